//! What a line did.

ghost use Rattle.std.specs.Prelude.{◌≡◌};
ghost use Rattle.gpu_block_session.specs.Run.{is_bad};

/// What a line did.
#[derive(Drop)]
pub enum Outcome<R> {
    /// It has no reply.
    Nothing,
    /// It is answered.
    Replied(R),
    /// It can't be read, or may not come here; the trace stops.
    Bad,
}

impl<R> Outcome<R> {
    /// Whether the line is bad, so that the trace stops here.
    pub fn is_bad(&self) -> bool
        ensures { result ≡ is_bad self.now }
    {
        match self {
            Outcome::Bad => true,
            Outcome::Nothing | Outcome::Replied(_) => false,
        }
    }
}
