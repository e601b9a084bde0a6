// The bytes of a store whose rows fit and lie in the body buffer d.
ghost use Rattle.std.specs.Prelude.{◌≡◌, ◌+◌, ◌*◌, ◌≤◌, ◌∷◌, length};
ghost use Rattle.octets.specs.Steps.Puts.{Wrote};
ghost use Rattle.copies.specs.Steps.Writes.{HasRoom, Writes};
ghost use Rattle.format.specs.StoreWriting.{entry_of, entries, rows_from, store_bytes};
ghost use Rattle.stores.specs.Steps.Making.{values_size, value_head, head_bytes, row_bytes, open_bytes, RowsRoom, StoreRoom};

use crate::tests::{row_from, row_size};
use canonical::texts::body;
use copies::output::Output;
use format::StoreRow;

// The values up to the next storage, with the zero size that ends them.
// Merged into the walk over all rows, it would have each row divide, not only storages.
#[inline(never)]
fn values_size(rows: &[u64]) -> usize
    requires { values_size (rows_from rows.now) ≤ 65448 }
    ensures { result ≡ values_size (rows_from rows.now) }
{
    let mut n: usize = 4;
    for k in 0..rows.len() / 6 {
        let r = row_from(rows, 6 * k);
        if r.kind == 0 {
            return n;
        }
        n += row_size(r);
    }
    n
}

// What stands before its name and raw bytes, of which there are n. The number is the value's own, or its name's length.
fn put_value(w: &mut Output, number: u32, n: usize)
    requires { HasRoom w.old 9 × (n ≤ 65448) }
    ensures { Writes w.old w.new (value_head number n) 9 }
{
    w.put_u32((9 + n) as u32);
    w.put_u32(number);
    w.put_u8(0);
}

// What stands before its values, of which there are n bytes.
fn put_storage(w: &mut Output, identifier: &[u8], n: usize)
    requires { HasRoom w.old 24 × ((length identifier.now ≡ 16) × (n ≤ 65448)) }
    ensures { Writes w.old w.new (head_bytes identifier.now n) 24 }
{
    w.put_u32((24 + n) as u32);
    w.put_u32(0x5350_5331);
    w.put_bytes(identifier);
}

// A row that is not the first; so a storage ends the values before it.
fn put_entry(w: &mut Output, r: StoreRow, after: &[u64], d: &[u8])
    requires { RowsRoom (r ∷ rows_from after.now) d.now w.old }
    ensures { Writes w.old w.new
        (row_bytes (entry_of d.now r) (entries d.now (rows_from after.now)))
        (length (row_bytes (entry_of d.now r) (entries d.now (rows_from after.now)))) }
{
    match r.kind {
        0 => {
            let n = values_size(after);
            w.put_u32(0);
            put_storage(w, body(d, r.raw), n);
        }
        1 => {
            let raw = body(d, r.raw);
            put_value(w, r.number as u32, raw.len());
            w.put_bytes(raw);
        }
        _ => {
            let name = body(d, r.name);
            let raw = body(d, r.raw);
            put_value(w, name.len() as u32, name.len() + raw.len());
            w.put_bytes(name);
            w.put_bytes(raw);
        }
    }
}

// The rows after a storage or a value, and the zero sizes that end the last values and the store.
fn put_entries(w: &mut Output, rows: &[u64], d: &[u8])
    requires { RowsRoom (rows_from rows.now) d.now w.old }
    ensures { Writes w.old w.new
        (open_bytes (entries d.now (rows_from rows.now)))
        (length (open_bytes (entries d.now (rows_from rows.now)))) }
{
    for k in 0..rows.len() / 6 {
        put_entry(w, row_from(rows, 6 * k), &rows[6 * k + 6..], d);
    }
    w.put_u64(0);
}

// Without rows a zero size; else the first storage up to its values, and then all that follows.
fn put_rows(w: &mut Output, rows: &[u64], d: &[u8])
    requires { (w.old.at ≡ 0) × StoreRoom rows.now d.now w.old.out.now }
    ensures { Writes w.old w.new
        (store_bytes (entries d.now (rows_from rows.now)))
        (length (store_bytes (entries d.now (rows_from rows.now)))) }
{
    if rows.len() < 6 {
        w.put_u32(0);
        return;
    }
    let first = row_from(rows, 0);
    let after = &rows[6..];
    let n = values_size(after);
    put_storage(w, body(d, first.raw), n);
    put_entries(w, after, d);
}

// From the buffer's start on. Answers the store's length.
pub fn put_store(rows: &[u64], d: &[u8], out: &mut [u8]) -> usize
    requires { StoreRoom rows.now d.now out.old }
    ensures written { Wrote out.old 0
        (store_bytes (entries d.now (rows_from rows.now)))
        (length (store_bytes (entries d.now (rows_from rows.now))))
        out.new result }
{
    let mut w = Output::new(out);
    put_rows(&mut w, rows, d);
    w.at()
}
