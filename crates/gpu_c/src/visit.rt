//! Visits of a block's pieces, in order of offset.

ghost use Rattle.std.specs.Prelude.{◌≡◌, ◌+◌, ◌≤◌, ◌++◌, None, Some, length, take, drop};
ghost use Rattle.gpu_c.specs.Visit.{kind_number, piece_view, piece_from, pieces_from, ShowsPieces, ShowsNames, name_of, room_for, copied_into};

use crate::request::{LINEAR, NON_LINEAR};
use crate::virtual_block_values::PieceView;
use gpu_block_pieces::{LivePiece, Pieces};
use gpu_values::AllocationType;

fn kind_number(kind: AllocationType) -> u32
    ensures { result ≡ kind_number kind }
{
    match kind {
        AllocationType::Free => 0,
        AllocationType::Linear => LINEAR,
        AllocationType::NonLinear => NON_LINEAR,
    }
}

fn view_of(piece: &LivePiece) -> PieceView
    ensures { result ≡ piece_view (Some piece.now) }
{
    PieceView {
        exists: true,
        number: piece.chunk_id(),
        start: piece.start(),
        offset: piece.offset(),
        end: piece.end(),
        kind: kind_number(piece.kind()),
        word: piece.word(),
    }
}

/// No piece.
pub fn no_piece() -> PieceView
    ensures { result ≡ piece_view None }
{
    PieceView {
        exists: false,
        number: 0,
        start: 0,
        offset: 0,
        end: 0,
        kind: 0,
        word: 0,
    }
}

/// The first piece whose own bytes begin at `from` or behind it.
pub fn first_from(pieces: Pieces<'_>, from: u64) -> PieceView
    ensures { result ≡ piece_view (piece_from from pieces.entry) }
{
    for piece in pieces {
        if from <= piece.offset() {
            return view_of(&piece);
        }
    }
    no_piece()
}

/// Fills an array with the pieces whose own bytes begin at `from` or behind it, as far as it has room, and returns how many it shows.
pub fn fill_from(pieces: Pieces<'_>, from: u64, views: &mut [PieceView]) -> usize
    ensures { ShowsPieces (pieces_from from pieces.entry) views.old views.new result }
{
    let mut count = 0;
    for piece in pieces {
        if count == views.len() {
            return count;
        }
        if from <= piece.offset() {
            views[count] = view_of(&piece);
            count += 1;
        }
    }
    count
}

/// Copies as much of a text as there is room for, and returns its whole length.
pub fn copy_text(text: &str, buffer: &mut [u8]) -> usize
    ensures whole { result ≡ length text.now }
    ensures copied { buffer.new ≡ copied_into text.now buffer.old }
{
    let count = text.len().min(buffer.len());
    buffer[..count].copy_from_slice(&text.as_bytes()[..count]);
    text.len()
}

/// Copies the name of the first piece whose own bytes begin at `from` or behind it, as much as there is room for, and returns its whole
/// length; 0 where there is no such piece.
pub fn name_from(pieces: Pieces<'_>, from: u64, buffer: &mut [u8]) -> usize
    ensures whole { result ≡ length (name_of (piece_from from pieces.entry)) }
    ensures copied { buffer.new ≡ copied_into (name_of (piece_from from pieces.entry)) buffer.old }
{
    for piece in pieces {
        if from <= piece.offset() {
            return copy_text(piece.name(), buffer);
        }
    }
    0
}

/// Copies as much of a text behind the bytes that a buffer is filled with as there is room for, and returns how many it is filled with then.
fn append_text(text: &str, buffer: &mut [u8], filled: usize) -> usize
    requires { filled ≤ length buffer.old }
    ensures filled { result ≡ filled + room_for text.now (drop filled buffer.old) }
    ensures copied { buffer.new ≡ take filled buffer.old
        ++ copied_into text.now (drop filled buffer.old) }
{
    let count = text.len().min(buffer.len() - filled);
    let _whole = copy_text(text, &mut buffer[filled..]);
    filled + count
}

/// Fills an array with the lengths of the names of the pieces whose own bytes begin at `from` or behind it, as far as it has room, and a
/// buffer with these names one after another, as far as it has room; returns how many lengths there are.
pub fn names_from(pieces: Pieces<'_>, from: u64, lengths: &mut [usize], names: &mut [u8]) -> usize
    ensures { ShowsNames (pieces_from from pieces.entry) lengths.old lengths.new names.old names.new
        result }
{
    let mut count = 0;
    let mut filled = 0;
    for piece in pieces {
        if count == lengths.len() {
            return count;
        }
        if from <= piece.offset() {
            let name = piece.name();
            lengths[count] = name.len();
            count += 1;
            filled = append_text(name, names, filled);
        }
    }
    count
}
