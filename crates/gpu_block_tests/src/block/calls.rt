//! Calls of a block of either form, and whether each answers as it should.

ghost use Rattle.std.specs.Prelude.{◌≡◌, ◌≢◌, ℕ};
ghost use Rattle.gpu_block.specs.Block.{HasPages};
ghost use Rattle.gpu_block.specs.SubAllocator.{block_of};

use self::Call::{
    Allocated, Finds, Frees, FreesNothing, IsGeneral, Leaks, Renames, RenamesNothing, Reports,
    SetsNoWord, SetsWord, Size, Takes, TakesAligned, TakesImage, TakesNothing, Words,
};
use super::{
    MB, Request, allocate, dedicated, free, gave, general, linear, rename, report_text, set_word,
};
use crate::steps::{prints, reads};
use gpu_block::SubAllocator;
use gpu_values::{AllocationType, Result};
use std::alloc::Global;
use std::num::NonZeroU64;
use std::process::Abort;

/// A call, and what it answers. The number 0 stands for none.
#[derive(Clone, Copy)]
pub enum Call {
    /// A piece of so many bytes with this name is taken, linear and at any offset: its offset and number.
    Takes(u64, &'static str, (u64, u64)),
    /// A linear piece with this alignment is taken.
    TakesAligned(u64, u64, &'static str, (u64, u64)),
    /// A piece that isn't linear is taken, with this alignment.
    TakesImage(u64, u64, &'static str, (u64, u64)),
    /// No piece of so many bytes with this alignment is taken, for the cause of this text.
    TakesNothing(u64, u64, &'static str),
    Frees(u64),
    FreesNothing(u64, &'static str),
    Renames(u64, &'static str),
    RenamesNothing(u64, &'static str),
    /// A word of the caller's is kept with a piece.
    SetsWord(u64, u64),
    SetsNoWord(u64, &'static str),
    /// The words of the pieces, in order of offset.
    Words(&'static [u64]),
    /// The place of a piece: its offset and size.
    Finds(u64, Option<(u64, u64)>),
    Reports(&'static str),
    /// The texts of the leaks of the block with this index, of the memory type with this one.
    Leaks((usize, usize), &'static [&'static str]),
    /// How many bytes are taken, padding included.
    Allocated(u64),
    Size(u64),
    IsGeneral(bool),
}

fn image(size: u64, alignment: u64, granularity: u64, name: &str) -> Request<'_>
    ensures piece { result.kind ≢ AllocationType.Free }
    ensures paged { result.granularity ≡ granularity }
{
    Request {
        kind: AllocationType::NonLinear,
        ..linear(size, alignment, granularity, name)
    }
}

/// 0 stands for no number.
fn place(block: &SubAllocator, chunk_id: u64) -> Option<(u64, u64)> {
    block.place_of(NonZeroU64::new(chunk_id)?)
}

/// Whether the call was refused for the cause of this text.
fn refuses<V: Drop>(alloc: Global, got: Result<V>, want: &str) -> bool {
    match got {
        Ok(_) => false,
        Err(error) => prints(alloc, &error, want),
    }
}

/// Whether the leaks print these texts, one by one.
fn leaks_print(alloc: Global, block: &SubAllocator, at: (usize, usize), want: &[&str]) -> bool {
    for (leak, want) in block.leaks(at.0, at.1).zip(want) {
        if !prints(alloc, &leak, want) {
            return false;
        }
    }
    true
}

/// Whether these are the texts.
fn texts_are(texts: &Vec<String>, want: &[&str]) -> bool {
    for (text, want) in texts.iter().zip(want) {
        let want: &str = *want;
        if text.as_str() != want {
            return false;
        }
    }
    texts.len() == want.len()
}

/// Whether the block's leaks, and their texts, are these.
fn leaks_are(alloc: Global, block: &SubAllocator, at: (usize, usize), want: &[&str]) -> bool {
    match block.leak_texts(at.0, at.1) {
        Ok(texts) => {
            block.leaks(at.0, at.1).count() == want.len()
                && texts_are(&texts, want)
                && leaks_print(alloc, block, at, want)
        }
        Err(_) => false,
    }
}

/// Whether these are the words of the pieces.
fn words_are(block: &SubAllocator, want: &[u64]) -> bool {
    let mut shown: usize = 0;
    for piece in block.pieces() {
        match want.get(shown) {
            Some(word) if *word == piece.word() => shown = shown.saturating_add(1),
            _ => return false,
        }
    }
    shown == want.len()
}

/// Makes a call that only looks.
fn looks(alloc: Global, block: &SubAllocator, call: Call) -> bool {
    match call {
        Finds(chunk_id, want) => place(block, chunk_id) == want,
        Reports(want) => reads(report_text(block, alloc), want),
        Words(want) => words_are(block, want),
        Leaks(at, want) => leaks_are(alloc, block, at, want),
        Allocated(want) => block.allocated() == want && block.is_empty() == (want == 0),
        Size(want) => block.size() == want,
        IsGeneral(want) => block.supports_general_allocations() == want,
        _ => false,
    }
}

/// Makes a call, and looks whether it answers so.
fn holds(alloc: Global, block: &mut SubAllocator, granularity: u64, call: Call) -> bool
    requires { HasPages (block_of block.old) granularity }
    ensures { (g : ℕ) → HasPages (block_of block.old) g → HasPages (block_of block.new) g }
{
    match call {
        Takes(size, name, want) => gave(allocate(block, linear(size, 1, granularity, name)), want),
        TakesAligned(size, alignment, name, want) => gave(
            allocate(block, linear(size, alignment, granularity, name)),
            want,
        ),
        TakesImage(size, alignment, name, want) => gave(
            allocate(block, image(size, alignment, granularity, name)),
            want,
        ),
        TakesNothing(size, alignment, want) => {
            let got = allocate(block, linear(size, alignment, granularity, "x"));
            refuses(alloc, got, want)
        }
        Frees(chunk_id) => free(block, chunk_id).is_ok(),
        FreesNothing(chunk_id, want) => refuses(alloc, free(block, chunk_id), want),
        Renames(chunk_id, name) => rename(block, chunk_id, name).is_ok(),
        RenamesNothing(chunk_id, want) => refuses(alloc, rename(block, chunk_id, "x"), want),
        SetsWord(chunk_id, word) => set_word(block, chunk_id, word).is_ok(),
        SetsNoWord(chunk_id, want) => refuses(alloc, set_word(block, chunk_id, 9), want),
        _ => looks(alloc, block, call),
    }
}

/// Makes the calls up to the first that answers otherwise, and counts them.
pub fn count(alloc: Global, block: &mut SubAllocator, granularity: u64, calls: &[Call]) -> usize
    requires { HasPages (block_of block.old) granularity }
{
    let mut done: usize = 0;
    for call in calls {
        if !holds(alloc, block, granularity, *call) {
            return done;
        }
        done = done.saturating_add(1);
    }
    done
}

/// Looks that all calls were made; the first that answers otherwise is told by its place.
pub fn check_calls(rt: &impl Abort, done: usize, calls: &[Call]) {
    assert!(rt; done == calls.len(), "call {done}");
}

/// Makes the calls in a block of 4 MB that is cut into pieces, on pages of this size.
pub fn check_list(rt: &impl Abort, alloc: Global, granularity: u64, calls: &[Call]) {
    let done = match general(alloc, 4 * MB, granularity) {
        Ok(mut block) => count(alloc, &mut block, granularity, calls),
        Err(_) => 0,
    };
    check_calls(rt, done, calls);
}

/// Makes the calls in a block of 1000 bytes that is one piece's own.
pub fn check_dedicated(rt: &impl Abort, alloc: Global, calls: &[Call]) {
    let mut block = dedicated(alloc, 1000);
    check_calls(rt, count(alloc, &mut block, 1, calls), calls);
}
