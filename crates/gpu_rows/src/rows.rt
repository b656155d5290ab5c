//! Rows in pages of the same length, under a directory. The first page's memory grows in steps: a whole page
//! for a table of a few rows would be mostly empty, and take some 12 kB.

ghost use Rattle.std.specs.Prelude.{◌≡◌, ◌+◌, ◌-◌, ◌*◌, ◌/◌, ◌^◌, ◌<◌, ◌≤◌, ◌==◌, ◌↔◌, ℕ, min, max, [], ◌∷◌, ◌++◌, length, take, IsOk, IsSome, OnOk, OnErr, Some, slice_get, slice_index_or, vec_len, vec_capacity};
ghost use Rattle.std.specs.Option.{option_copied, option_to_list};
ghost use Rattle.std.specs.Slice.{IsItemAt};
ghost use Rattle.std.specs.Borrow.{sem};
ghost use Rattle.gpu_rows.specs.Rows.{row_count, room_for};
ghost use Rattle.gpu_rows.specs.Pages.{rows_of, ArePages};

use std::alloc::{AllocError, Global};
use std::marker::Model;
use std::ops::{Index, IndexMut};

/// How many rows a page has.
const PAGE: usize = 256;

/// The room that a table of a few rows has, in its first page.
const FIRST: usize = 16;

/// The room that the first page has before it is whole.
const SECOND: usize = 64;

/// How many rows there can be at most.
const MOST: usize = 1 << 62;

/// A table's rows. Room comes in pages, which stay where they are: as it grows, only the directory of the pages
/// moves, and the first page until it is whole.
#[derive(Drop)]
pub struct Rows<T> {
    pages: Vec<Vec<T>>,
    len: usize,

    // For how many rows there is room. Each push asks for it, so it is kept here and not read in the first page.
    room: usize,
}

impl<T> Model for Rows<T> {
    ghost use Rattle.gpu_rows.specs.Rows.{Rows as Seen, rows_code};
    ghost use Rattle.gpu_rows.specs.Pages.{seen_of, AreRows};

    ghost Value = { Seen T };

    ghost coded = { rows_code T.code };

    ghost view = { λ r. seen_of r.pages.items r.room };

    ghost invariant = { λ r. AreRows r.pages.items r.len r.room };
}

impl<T> Rows<T> {
    ghost use Rattle.gpu_rows.specs.Lends.{lends_row};

    /// No rows: no memory is taken.
    pub fn new(alloc: Global) -> Rows<T>
        ensures items { result.items ≡ [] }
        ensures capacity { result.capacity ≡ 0 }
    {
        Rows {
            pages: Vec::new(alloc),
            len: 0,
            room: 0,
        }
    }

    /// How many rows there are.
    #[inline(always)]
    pub fn len(&self) -> usize
        ensures value { result ≡ row_count self.now }
        ensures fits { result ≤ self.now.capacity }
    {
        self.len
    }

    /// Whether there is no row.
    #[inline(always)]
    pub fn is_empty(&self) -> bool
        ensures { result ≡ (row_count self.now == 0) }
    {
        self.len == 0
    }

    /// How many rows there can be without taking memory.
    #[inline(always)]
    pub fn capacity(&self) -> usize
        ensures value { result ≡ self.now.capacity }
        ensures fits { row_count self.now ≤ result }
    {
        self.room
    }

    /// Where the memory of the rows comes from.
    pub fn allocator(&self) -> &Global {
        self.pages.allocator()
    }

    /// Makes room for that many more rows: for 16 rows in all, for 64, and then in whole pages. Only the rows of a first page that is not
    /// whole move. Refused where the host refuses memory, and above 2^62 rows; what was taken before that stays.
    pub fn reserve(&mut self, more: usize) -> Result<(), AllocError>
        ensures items { self.new.items ≡ self.old.items }
        ensures len { row_count self.new ≡ row_count self.old }
        ensures ok { OnOk result (row_count self.new + more ≤ self.new.capacity) }
        ensures capacity { self.old.capacity ≤ self.new.capacity }
        ensures exact { OnOk result (self.new.capacity ≡ max self.old.capacity (room_for (row_count self.old + more))) }
        ensures most { self.new.capacity ≤ max self.old.capacity (row_count self.old + more + 255) }
        ensures succeeds { row_count self.old + more ≤ self.old.capacity → IsOk result }
        ensures full { OnErr result (self.old.capacity < row_count self.old + more) }
    {
        if more <= self.capacity() - self.len {
            return Ok(());
        }
        if more > MOST.saturating_sub(self.len) {
            return Err(AllocError);
        }
        let room = enough_room(self.len + more);
        self.grow_first(room.min(PAGE))?;
        self.grow_whole(room / PAGE)
    }

    /// Makes the first page's room that much, if it is less. A refusal leaves all as it was.
    fn grow_first(&mut self, room: usize) -> Result<(), AllocError>
        requires page { room ≤ 256 }
        requires step { room_for room ≡ room }
        ensures items { self.new.items ≡ self.old.items }
        ensures capacity { self.old.capacity ≤ self.new.capacity }
        ensures ok { OnOk result (self.new.capacity ≡ max self.old.capacity room) }
        ensures err { OnErr result (self.new.capacity ≡ self.old.capacity) }
    {
        if room <= self.room {
            return Ok(());
        }
        if self.pages.is_empty() {
            self.pages.reserve(1)?;
            let page = Vec::with_capacity(*self.pages.allocator(), room)?;
            self.pages.push_reserved(page);
            self.room = room;
            return Ok(());
        }
        let first = &mut self.pages[0];
        first.reserve_exact(room - self.len)?;
        self.room = room;
        Ok(())
    }

    /// Adds pages up to that count, behind a first page that is whole. Pages that were taken before a refusal stay.
    fn grow_whole(&mut self, count: usize) -> Result<(), AllocError>
        requires first { min 256 (256 * count) ≤ self.old.capacity }
        requires few { 256 * count ≤ 2 ^ 63 }
        ensures items { self.new.items ≡ self.old.items }
        ensures capacity { self.old.capacity ≤ self.new.capacity }
        ensures ok { OnOk result (self.new.capacity ≡ max self.old.capacity (256 * count)) }
        ensures most { self.new.capacity ≤ max self.old.capacity (256 * count) }
    {
        if count <= self.pages.len() {
            return Ok(());
        }
        let added = add_pages(&mut self.pages, count);
        self.room = self.pages.len() * PAGE;
        added
    }

    /// Appends a row. There is room for it, so no memory is taken.
    #[inline(always)]
    pub fn push_reserved(&mut self, row: T)
        requires { row_count self.old < self.old.capacity }
        ensures items { self.new.items ≡ self.old.items ++ row ∷ [] }
        ensures len { row_count self.new ≡ row_count self.old + 1 }
        ensures capacity { self.new.capacity ≡ self.old.capacity }
    {
        self.pages[self.len / PAGE].push_reserved(row);
        self.len += 1;
    }

    /// Takes the last row out, if there is one. Its page stays.
    #[inline(always)]
    pub fn pop(&mut self) -> Option<T>
        ensures items { self.old.items ≡ self.new.items ++ option_to_list result }
        ensures variant { IsSome result ↔ (0 < row_count self.old) }
        ensures rest { self.new.items ≡ take (row_count self.old - 1) self.old.items }
        ensures value { (d : T) → 0 < row_count self.old
            → result ≡ Some (slice_index_or self.old.items (row_count self.old - 1) d) }
        ensures capacity { self.new.capacity ≡ self.old.capacity }
    {
        if self.len == 0 {
            return None;
        }
        self.len -= 1;
        self.pages[self.len / PAGE].pop()
    }

    /// The row at an index, if there is one.
    #[inline(always)]
    pub fn get(&self, index: usize) -> Option<&T>
        ensures value { option_copied result ≡ slice_get self.now.items index }
        ensures item { IsItemAt self.now.items index result }
    {
        if index >= self.len {
            return None;
        }
        Some(self.at(index))
    }

    /// The row at an index that has one.
    #[inline(always)]
    pub fn at(&self, index: usize) -> &T
        requires { index < row_count self.now }
        ensures { result.now ≡ slice_index_or self.now.items index result.now }
    {
        &self.pages[index / PAGE][index % PAGE]
    }

    /// The row at an index that has one, for writing.
    #[inline(always)]
    pub fn at_mut(&mut self, index: usize) -> &mut T
        requires { index < row_count self.old }
        ensures* writes_back { sem 𝓛 (lends_row T.row self.entry index result) }
        ensures value { result.now ≡ slice_index_or self.old.items index result.now }
    {
        let page = &mut self.pages[index / PAGE];
        &mut page[index % PAGE]
    }
}

impl<T> Index<usize> for Rows<T> {
    type Output = T;

    ghost can_index = { λ rows index. index < row_count rows };

    ghost index_gives = { λ rows index row. row ≡ slice_index_or rows.items index row };

    #[inline(always)]
    fn index(&self, index: usize) -> &T {
        self.at(index)
    }
}

impl<T> IndexMut<usize> for Rows<T> {
    ghost use Rattle.gpu_rows.specs.Lends.{lends_row};

    #[inline(always)]
    fn index_mut(&mut self, index: usize) -> &mut T
        requires { index < row_count self.old }
        ensures* writes_back { sem 𝓛 (lends_row T.row self.entry index result) }
        ensures value { result.now ≡ slice_index_or self.old.items index result.now }
    {
        self.at_mut(index)
    }
}

/// The room to make for so many rows.
fn enough_room(rows: usize) -> usize
    requires some { 0 < rows }
    requires few { rows ≤ 2 ^ 62 }
    ensures { result ≡ room_for rows }
{
    if rows <= FIRST {
        return FIRST;
    }
    if rows <= SECOND {
        return SECOND;
    }
    rows.div_ceil(PAGE) * PAGE
}

/// Adds empty whole pages up to that count. Pages that were taken before a refusal stay.
fn add_pages<T>(pages: &mut Vec<Vec<T>>, count: usize) -> Result<(), AllocError>
    requires pages { ArePages 256 256 pages.old.items (length (rows_of pages.old.items)) }
    requires more { length pages.old.items ≤ count }
    ensures pages { ArePages 256 256 pages.new.items (length (rows_of pages.new.items)) }
    ensures rows { rows_of pages.new.items ≡ rows_of pages.old.items }
    ensures ok { OnOk result (length pages.new.items ≡ count) }
    ensures kept { length pages.old.items ≤ length pages.new.items }
    ensures most { length pages.new.items ≤ count }
{
    let alloc = *pages.allocator();
    pages.reserve(count - pages.len())?;
    while pages.len() < count {
        let page = Vec::with_capacity(alloc, PAGE)?;
        pages.push_reserved(page);
    }
    Ok(())
}
