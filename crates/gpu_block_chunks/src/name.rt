//! The name of a chunk: a short one lies in the chunk's slot, a longer one in memory of its own.

ghost use Rattle.std.specs.Prelude.{◌≡◌, ◌≤◌, ◌<◌, [], length, IfOk, IsOk, MatchOption};

use std::alloc::{AllocError, Global};
use std::marker::Model;

/// A name of at most so many bytes lies in the slot.
const SHORT: usize = 22;

/// A short name: the first bytes of an array.
#[derive(Drop)]
struct Short {
    length: u8,
    bytes: [u8; SHORT],
}

impl Model for Short {
    ghost use Rattle.std.specs.Prelude.{List, ℕ, ◌≤◌, take, IsUtf8};

    ghost Value = { List ℕ };

    ghost view = { λ s. take s.length s.bytes };

    ghost invariant = { λ s. (s.length ≤ 22) × IsUtf8 (take s.length s.bytes) };
}

impl Short {
    /// The text of a gap's name.
    fn empty() -> Short
        ensures { result ≡ [] }
    {
        Short {
            length: 0,
            bytes: [0; SHORT],
        }
    }

    /// Copies another text into it.
    #[inline(always)]
    fn set(&mut self, text: &str)
        requires { length text.now ≤ 22 }
        ensures { self.new ≡ text.now }
    {
        let length = text.len();
        self.bytes[..length].copy_from_slice(text.as_bytes());
        self.length = length as u8;
    }

    fn as_str(&self) -> &str
        ensures { result.now ≡ self.now }
    {
        match std::str::from_utf8(&self.bytes[..self.length as usize]) {
            Ok(name) => name,
            Err(_) => unreachable!(),
        }
    }
}

// A longer text is boxed, so that a name takes 24 bytes and a label 32.
#[derive(Drop)]
enum Text {
    Short(Short),
    Long(Box<String>),
}

/// The name of a piece. One of at most 22 bytes takes no memory.
#[derive(Drop)]
pub struct Name {
    text: Text,
}

impl Model for Name {
    ghost use Rattle.std.specs.Prelude.{List, ℕ};
    ghost use Rattle.gpu_block_chunks.specs.Name.{bytes_of};

    ghost Value = { List ℕ };

    ghost view = { λ n. bytes_of n.text };
}

impl Name {
    /// The name of a gap. It takes no memory.
    pub fn empty() -> Name
        ensures { result ≡ [] }
    {
        Name {
            text: Text::Short(Short::empty()),
        }
    }

    /// A name with that text. Only one of more than 22 bytes can be refused.
    pub fn new(alloc: Global, name: &str) -> Result<Name, AllocError>
        ensures text { IfOk result (λ n. n ≡ name.now) }
        ensures short { length name.now ≤ 22 → IsOk result }
    {
        Ok(Name::of(NewName::new(alloc, name)?))
    }

    /// The name that was made ready. It takes no memory.
    pub fn of(new: NewName<'_>) -> Name
        ensures { result ≡ new.entry }
    {
        let mut name = Name::empty();
        name.set(new);
        name
    }

    /// Puts a name that was made ready in its place. It takes no memory.
    #[inline(always)]
    pub fn set(&mut self, new: NewName<'_>)
        ensures { self.new ≡ new.entry }
    {
        match new.text {
            NewText::Short(text) => self.copy(text),
            NewText::Long(text) => self.text = Text::Long(text),
        }
    }

    /// Copies a short text into it.
    #[inline(always)]
    fn copy(&mut self, text: &str)
        requires { length text.now ≤ 22 }
        ensures { self.new ≡ text.now }
    {
        match &mut self.text {
            Text::Short(short) => short.set(text),
            Text::Long(_) => {
                let mut short = Short::empty();
                short.set(text);
                self.text = Text::Short(short);
            }
        }
    }

    /// Its text.
    pub fn as_str(&self) -> &str
        ensures { result.now ≡ self.now }
    {
        match &self.text {
            Text::Short(short) => short.as_str(),
            Text::Long(long) => long.as_str(),
        }
    }
}

#[derive(Drop)]
enum NewText<'a> {
    Short(&'a str),
    Long(Box<String>),
}

/// A name that is ready to be put where it is to lie: a short one is copied there, and the memory of a longer one has been taken.
#[derive(Drop)]
pub struct NewName<'a> {
    text: NewText<'a>,
}

impl<'a> Model for NewName<'a> {
    ghost use Rattle.std.specs.Prelude.{List, ℕ};
    ghost use Rattle.gpu_block_chunks.specs.Name.{bytes_of_new, IsReady};

    ghost Value = { List ℕ };

    ghost view = { λ n. bytes_of_new n.text };

    ghost invariant = { λ n. IsReady n.text };
}

impl<'a> NewName<'a> {
    /// The name of a gap.
    pub fn empty() -> NewName<'a>
        ensures { result ≡ [] }
    {
        NewName {
            text: NewText::Short(""),
        }
    }

    /// A name with that text. Only one of more than 22 bytes takes memory, and can be refused.
    #[inline(always)]
    pub fn new(alloc: Global, name: &'a str) -> Result<NewName<'a>, AllocError>
        ensures text { IfOk result (λ n. n ≡ name.now) }
        ensures short { length name.now ≤ 22 → IsOk result }
    {
        let text = if name.len() <= SHORT {
            NewText::Short(name)
        } else {
            NewText::Long(Box::new(alloc, String::from_str(alloc, name)?)?)
        };
        Ok(NewName { text })
    }
}
