//! What a caller says anew of a live piece.

/// The name that reports and leaks show, or the word that is kept with the piece for its caller.
#[derive(Clone, Copy)]
pub enum Said<'a> {
    Name(&'a str),
    Word(u64),
}
