//! What a caller says of a piece: its name, and a word of the caller's own.

ghost use Rattle.std.specs.Prelude.{◌≡◌, ◌≤◌, length, IfOk, IsOk};
ghost use Rattle.gpu_block_chunks.specs.Label.{no_label, plain_label};

use crate::name::{Name, NewName};
use std::alloc::{AllocError, Global};
use std::marker::Model;

/// The name of a chunk, and a word that its caller keeps with it: the address of an object, say, or a number. A gap has the empty name
/// and the word 0.
#[derive(Drop)]
pub struct Label {
    pub name: Name,
    pub word: u64,
}

// What a row of labels takes for each chunk.
const _: () = prove!(size_of::<Label>() == 32);

impl Label {
    /// The label of a gap. It takes no memory.
    pub fn empty() -> Label
        ensures { result ≡ no_label }
    {
        Label {
            name: Name::empty(),
            word: 0,
        }
    }

    /// The label that was made ready. It takes no memory.
    pub fn of(new: NewLabel<'_>) -> Label
        ensures { result ≡ new.entry }
    {
        Label {
            name: Name::of(new.name),
            word: new.word,
        }
    }

    /// Puts a label that was made ready in its place. It takes no memory.
    #[inline(always)]
    pub fn set(&mut self, new: NewLabel<'_>)
        ensures { self.new ≡ new.entry }
    {
        self.name.set(new.name);
        self.word = new.word;
    }
}

/// A label that is ready to be put where it is to lie.
#[derive(Drop)]
pub struct NewLabel<'a> {
    pub name: NewName<'a>,
    pub word: u64,
}

impl<'a> Model for NewLabel<'a> {
    ghost use Rattle.gpu_block_chunks.specs.declared.label.Label.{Label};

    ghost Value = { Label };

    ghost view = { λ l. record { name = l.name; word = l.word } };
}

impl<'a> NewLabel<'a> {
    /// A label with that name, and the word 0. A name of more than 22 bytes takes memory, and can be refused.
    #[inline(always)]
    pub fn new(alloc: Global, name: &'a str) -> Result<NewLabel<'a>, AllocError>
        ensures text { IfOk result (λ l. l ≡ plain_label name.now) }
        ensures short { length name.now ≤ 22 → IsOk result }
    {
        let name = NewName::new(alloc, name)?;
        Ok(NewLabel { name, word: 0 })
    }

    /// The label of a gap.
    pub fn empty() -> NewLabel<'a>
        ensures { result ≡ no_label }
    {
        NewLabel {
            name: NewName::empty(),
            word: 0,
        }
    }
}
