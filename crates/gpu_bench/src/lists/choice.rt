//! What the arguments ask for.

use std::alloc::{AllocError, Global};
use std::rt::Env;
use std::{env, io};

/// Which lists run, how often, or whether their checksums are asked for alone.
#[derive(Drop)]
pub struct Choice {
    pub runs: usize,
    pub check: bool,
    names: Vec<String>,
}

/// The number that a word says, or that one.
fn number(word: &str, or: usize) -> usize {
    word.parse::<usize>().unwrap_or(or)
}

/// Whether a word names a list, or, with a `_` at its end, the beginning of its name.
fn selects(word: &str, name: &str) -> bool {
    word == name || (word.ends_with('_') && name.starts_with(word))
}

/// What the next word is.
#[derive(Clone, Copy)]
enum Next {
    /// The program's own name, and the word `lists`.
    Skipped(usize),
    Runs,
    Any,
}

impl Choice {
    /// Reads the words behind `lists`.
    pub fn read(rt: &(impl Env + AllocGlobal), alloc: Global) -> io::Result<Choice> {
        let mut choice = Choice {
            runs: 5,
            check: false,
            names: Vec::new(alloc),
        };
        let mut next = Next::Skipped(2);
        for word in env::args(rt)? {
            next = choice.heed(next, word)?;
        }
        Ok(choice)
    }

    /// Heeds a word, and tells what the next one is.
    fn heed(&mut self, next: Next, word: String) -> Result<Next, AllocError> {
        match next {
            Next::Skipped(count) if count > 1 => return Ok(Next::Skipped(count - 1)),
            Next::Skipped(_) => (),
            Next::Runs => self.runs = number(word.as_str(), 5),
            Next::Any => match word.as_str() {
                "--check" => self.check = true,
                "--runs" => return Ok(Next::Runs),
                _ => self.names.push(word)?,
            },
        }
        Ok(Next::Any)
    }

    /// Whether a list runs.
    pub fn takes(&self, name: &str) -> bool {
        if self.names.is_empty() {
            return true;
        }
        self.names.iter().any(|word| selects(word.as_str(), name))
    }
}
