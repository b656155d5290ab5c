//! A set of classes, in which the next one is found by bits.

ghost use Rattle.std.specs.Prelude.{◌≡◌, ℕ, ◌+◌, ◌*◌, ◌/◌, ◌%◌, ◌<◌, ◌≤◌, ◌^◌, ◌==◌, [], length, MatchOption, IfOk, true, false, if◌then◌else◌, slice_index};
ghost use Rattle.gpu_block_gaps.specs.Key.{bit_of};
ghost use Rattle.gpu_block_gaps.specs.ClassSet.{is_in, IsFirst, NoneFrom, ChangesOne, KeepsWords};

use std::alloc::{AllocError, Global};
use std::marker::Model;

/// How many bits a word has.
const WORD: usize = 64;

/// A set of numbers below a bound: a bit for each of them, and one for each word that isn't 0.
#[derive(Drop)]
pub struct ClassSet {
    words: Vec<u64>,
    tops: Vec<u64>,
}

impl Model for ClassSet {
    ghost use Rattle.std.specs.Prelude.{List, ℕ};
    ghost use Rattle.gpu_block_gaps.specs.ClassSet.{AreTops};

    ghost Value = { List ℕ };

    ghost view = { λ s. s.words.items };

    ghost invariant = { λ s. AreTops s.words.items s.tops.items };
}

/// The first bit of a word from one on that is set.
fn first_from(word: u64, from: u32) -> Option<u32>
    requires { from < 64 }
    ensures { MatchOption result (NoneFrom (bit_of word) from)
        (λ k. (k < 64) × IsFirst (bit_of word) from k) }
{
    let rest = word >> from;
    if rest == 0 {
        return None;
    }
    Some(from + rest.trailing_zeros())
}

/// The first bit of the words from one on that is set.
fn next_bit(words: &[u64], from: usize) -> Option<usize>
    requires { length words.now < 2 ^ 32 }
    ensures { MatchOption result (NoneFrom (is_in words.now) from)
        (IsFirst (is_in words.now) from) }
{
    let start = from / WORD;
    if start >= words.len() {
        return None;
    }
    if let Some(bit) = first_from(words[start], (from % WORD) as u32) {
        return Some(start * WORD + bit as usize);
    }
    for at in start + 1..words.len() {
        if let Some(bit) = first_from(words[at], 0) {
            return Some(at * WORD + bit as usize);
        }
    }
    None
}

/// Sets a bit of the words.
fn set_bit(words: &mut [u64], class: usize)
    requires { class < length words.old * 64 }
    ensures changes { ChangesOne words.old words.new class true }
    ensures words { KeepsWords words.old words.new class }
{
    words[class / WORD] |= 1 << (class % WORD);
}

/// Clears a bit of the words.
fn clear_bit(words: &mut [u64], class: usize)
    requires { class < length words.old * 64 }
    ensures changes { ChangesOne words.old words.new class false }
    ensures words { KeepsWords words.old words.new class }
    ensures less { slice_index words.new (class / 64) ≤ slice_index words.old (class / 64) }
{
    words[class / WORD] &= !(1 << (class % WORD));
}

impl ClassSet {
    /// An empty set, for no number, which has taken no memory.
    pub fn new(alloc: Global) -> ClassSet
        ensures { result ≡ [] }
    {
        ClassSet {
            words: Vec::new(alloc),
            tops: Vec::new(alloc),
        }
    }

    /// An empty set, for numbers below a bound.
    pub fn with_room(alloc: Global, count: usize) -> Result<ClassSet, AllocError>
        requires { count < 2 ^ 32 }
        ensures room { IfOk result (λ s. count ≤ length s * 64) }
        ensures none { IfOk result (λ s. NoneFrom (is_in s) 0) }
    {
        let words = vec![in alloc; 0; count / WORD + 1]?;
        let tops = vec![in alloc; 0; count / WORD / WORD + 1]?;
        Ok(ClassSet { words, tops })
    }

    /// Puts a number into the set.
    pub fn insert(&mut self, class: usize)
        requires { class < length self.old * 64 }
        ensures { ChangesOne self.old self.new class true }
    {
        set_bit(&mut self.words, class);
        set_bit(&mut self.tops, class / WORD);
    }

    /// Takes a number out of the set.
    pub fn remove(&mut self, class: usize)
        requires { class < length self.old * 64 }
        ensures { ChangesOne self.old self.new class false }
    {
        clear_bit(&mut self.words, class);
        if self.words[class / WORD] == 0 {
            clear_bit(&mut self.tops, class / WORD);
        }
    }

    /// The first number of the set from one on.
    pub fn next_from(&self, class: usize) -> Option<usize>
        ensures { MatchOption result (NoneFrom (is_in self.now) class)
            (IsFirst (is_in self.now) class) }
    {
        let word = class / WORD;
        if word >= self.words.len() {
            return None;
        }
        if let Some(bit) = first_from(self.words[word], (class % WORD) as u32) {
            return Some(word * WORD + bit as usize);
        }
        let next = next_bit(&self.tops, word + 1)?;
        Some(next * WORD + self.words[next].trailing_zeros() as usize)
    }
}
