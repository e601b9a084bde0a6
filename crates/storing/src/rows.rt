// The rows of a store whose tests hold, one after another. The store l stands at the place base of its file.
ghost use Rattle.std.specs.Prelude.{◌≡◌, true, false, ◌+◌, ◌≤◌, ◌<◌, ◌^◌, length};
ghost use Rattle.format.specs.Tests.{all};
ghost use Rattle.format.specs.Store.{name_length, store_tests};
ghost use Rattle.format.specs.StoreList.{value_row, store_rows, nth_row, row_numbers, all_numbers};
ghost use Rattle.format.specs.Blind.{has_values};
ghost use Rattle.octets.specs.Parts.{put};
ghost use Rattle.std.specs.Iterator.{YieldsFirst, item_count};
ghost use Rattle.storing.specs.Steps.Rows.{Right, values_over, NextIs};

use format::{Place, StoreRow};
use std::marker::Model;

// The zeros are those of the definition, for a row that is not there.
pub const NO_ROW: StoreRow = StoreRow {
    kind: 0,
    number: 0,
    name: format::NO_PLACE,
    raw: format::NO_PLACE,
};

// Where the next size stands, and where the storage at hand ends; with no storage at hand the two are one place. Both are places in what is read: nothing is put there.
#[derive(Clone, Copy)]
struct StoreCursor {
    at: usize,
    end: usize,
    named: bool,
}

// The rows of a store that are left; a contract sees their list.
#[derive(Drop)]
pub struct Rows<'a> {
    store: &'a [u8],
    base: usize,
    cursor: StoreCursor,
}

impl<'a> Model for Rows<'a> {
    ghost use Rattle.std.specs.Prelude.{List};
    ghost use Rattle.format.specs.declared.StoreRow.{StoreRow};

    ghost Value = { List StoreRow };

    ghost use Rattle.storing.specs.Steps.Walk.{left, IsRight};

    ghost view = { left };

    ghost invariant = { IsRight };
}

impl<'a> Rows<'a> {
    pub fn new(store: &'a [u8], base: usize) -> Rows<'a>
        requires { (all (store_tests 0 store.now) ≡ true) × (base + length store.now < 2 ^ 64) }
        ensures { result ≡ store_rows base store.now }
    {
        Rows {
            store,
            base,
            cursor: StoreCursor {
                at: 0,
                end: 0,
                named: false,
            },
        }
    }
}

impl<'a> Iterator for Rows<'a> {
    type Item = StoreRow;

    ghost next_gives = { YieldsFirst (λ rest. rest) };

    ghost remaining = { item_count (λ rest. rest) };

    fn next(&mut self) -> Option<StoreRow> {
        let (row, after) = next_row(self.store, self.base, self.cursor)?;
        self.cursor = after;
        Some(row)
    }
}

// With no storage at hand, or at the zero size that ends its values.
fn values_over(l: &[u8], c: StoreCursor) -> bool
    requires { Right l.now c }
    ensures { result ≡ values_over l.now c }
{
    let at = c.at;
    if at == c.end {
        return true;
    }
    octets::u32_at(l, at) == 0
}

// A value by its own bytes.
fn value_row(v: &[u8], at: usize, named: bool) -> StoreRow
    requires { (9 + name_length named v.now ≤ length v.now) × (at + length v.now < 2 ^ 64) }
    ensures { result ≡ value_row named at v.now }
{
    let second = octets::u32_at(v, 4);
    if named {
        let len = second as usize;
        return StoreRow {
            kind: 2,
            number: 0,
            name: Place { at: at + 9, len },
            raw: Place {
                at: at + (9 + len),
                len: v.len() - (9 + len),
            },
        };
    }
    StoreRow {
        kind: 1,
        number: second as u64,
        name: format::NO_PLACE,
        raw: Place {
            at: at + 9,
            len: v.len() - 9,
        },
    }
}

fn next_value(l: &[u8], base: usize, c: StoreCursor) -> Option<(StoreRow, StoreCursor)>
    requires { Right l.now c × ((values_over l.now c ≡ false) × (base + length l.now < 2 ^ 64)) }
    ensures { NextIs l.now base c result }
{
    let at = c.at;
    let named = c.named;
    let next = at + octets::u32_at(l, at) as usize;
    let row = value_row(&l[at..next], base + at, named);
    Some((row, StoreCursor { at: next, ..c }))
}

fn next_storage(l: &[u8], base: usize, c: StoreCursor) -> Option<(StoreRow, StoreCursor)>
    requires { Right l.now c × ((values_over l.now c ≡ true) × (base + length l.now < 2 ^ 64)) }
    ensures { NextIs l.now base c result }
{
    let at = c.end;
    let n = octets::u32_at(l, at) as usize;
    if n == 0 {
        return None;
    }
    let row = StoreRow {
        kind: 0,
        number: 0,
        name: format::NO_PLACE,
        raw: Place {
            at: base + (at + 8),
            len: 16,
        },
    };
    let after = StoreCursor {
        at: at + 24,
        end: at + n,
        named: storages::is_named(l, at + 8),
    };
    Some((row, after))
}

fn next_row(l: &[u8], base: usize, c: StoreCursor) -> Option<(StoreRow, StoreCursor)>
    requires { Right l.now c × (base + length l.now < 2 ^ 64) }
    ensures { NextIs l.now base c result }
{
    if values_over(l, c) {
        return next_storage(l, base, c);
    }
    next_value(l, base, c)
}

pub fn count_rows(l: &[u8], base: usize) -> usize
    requires { (all (store_tests 0 l.now) ≡ true) × (base + length l.now < 2 ^ 64) }
    ensures { (result ≡ length (store_rows base l.now)) × (result ≤ length l.now) }
{
    Rows::new(l, base).count()
}

// Whether a row is a value: the first one ends the walk.
pub fn any_value(l: &[u8], base: usize) -> bool
    requires { (all (store_tests 0 l.now) ≡ true) × (base + length l.now < 2 ^ 64) }
    ensures { result ≡ has_values (store_rows base l.now) }
{
    Rows::new(l, base).any(|r| r.kind != 0)
}

// The row of this number, or zeros where there is none, as the definition has.
pub fn row_at(l: &[u8], base: usize, k: usize) -> StoreRow
    requires { (all (store_tests 0 l.now) ≡ true) × (base + length l.now < 2 ^ 64) }
    ensures { result ≡ nth_row k (store_rows base l.now) }
{
    Rows::new(l, base).nth(k).unwrap_or(NO_ROW)
}

// Its six numbers, into a row of numbers: an output is of bytes.
fn put_row(rows: &mut [u64], at: usize, r: StoreRow)
    requires { at + 6 ≤ length rows.old }
    ensures { rows.new ≡ put rows.old at (row_numbers r) }
{
    rows[at] = r.kind;
    rows[at + 1] = r.number;
    rows[at + 2] = r.name.at as u64;
    rows[at + 3] = r.name.len as u64;
    rows[at + 4] = r.raw.at as u64;
    rows[at + 5] = r.raw.len as u64;
}

pub fn put_rows(l: &[u8], base: usize, rows: &mut [u64])
    requires { (all (store_tests 0 l.now) ≡ true) × ((base + length l.now < 2 ^ 64) × (length (all_numbers (store_rows base l.now)) ≤ length rows.old)) }
    ensures { rows.new ≡ put rows.old 0 (all_numbers (store_rows base l.now)) }
{
    for (k, row) in Rows::new(l, base).enumerate() {
        put_row(rows, 6 * k, row);
    }
}
