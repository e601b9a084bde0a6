// The property store of a shortcut: its list, its names and values shown (FORMAT: Store list), and a store from a list (FORMAT: Store writing).
#![tactic(auto)]

mod rows;

ghost use Rattle.std.specs.Prelude.{◌≡◌, drop, length};
ghost use Rattle.format.specs.Numbers.{Numbered};
ghost use Rattle.format.specs.Contents.{bytes_at};
ghost use Rattle.format.specs.Blind.{has_values};
ghost use Rattle.format.specs.StoreList.{block_rows, store_list, store_list_answer, store_list_output, store_name, store_raw};
ghost use Rattle.format.specs.StoreWriting.{store_writing, store_write_answer, store_write_output, StoreEnds};
ghost use Rattle.storing.specs.Steps.Stored.{Holds, StoredIs, RowIs};

use format::{Fault, Place, Profile, Refusal, Refused, StoreRow, Verdict};
use stores::{making, tests};

// Where the block stands that holds the store of an accepted shortcut, if there is one.
fn stored_in(s: &[u8], profile: Profile) -> Result<Option<Place>, Refusal>
    ensures { StoredIs profile s.now result }
{
    let mut texts = [0u32; 9];
    let mut firsts = [0u32; 11];
    reader::outline_of(s, profile, &mut texts, &mut firsts)?;
    Ok(blocks::block_from(s, firsts[8]))
}

// The store in the block that stands there.
fn store_of(s: &[u8], b: Place) -> &[u8]
    requires { Holds s.now b }
    ensures { result.now ≡ drop 8 (bytes_at s.now b) }
{
    let at = b.at + 8;
    octets::part(s, at, b.len - 8)
}

// A row of six numbers for each storage and each value, in order, with places in the shortcut.
pub fn store_list(s: &[u8], rows: &mut [u64], profile: Profile) -> Verdict
    ensures answer { result ≡ store_list_answer profile s.now rows.old }
    ensures output { rows.new ≡ store_list_output profile s.now rows.old }
    ensures numbers { Numbered result (store_list profile s.now (length rows.old)) }
{
    let Some(b) = stored_in(s, profile)? else {
        return Ok(0);
    };
    let at = b.at + 8;
    let l = store_of(s, b);
    let n = rows::count_rows(l, at);
    if rows.len() / 6 < n {
        return Err(Refused::at(Fault::Room, 0));
    }
    rows::put_rows(l, at, rows);
    Ok(n)
}

// The row of this number; zeros where there is none, as the definition has it.
fn row_of(s: &[u8], k: usize, profile: Profile) -> StoreRow
    ensures { RowIs profile s.now k result }
{
    match stored_in(s, profile) {
        Ok(Some(b)) => {
            let at = b.at + 8;
            rows::row_at(store_of(s, b), at, k)
        }
        Ok(None) => rows::NO_ROW,
        Err(_) => rows::NO_ROW,
    }
}

// The name of the value in this row; empty where the row has none, or there is no such row: C gets a slice.
pub fn store_name(s: &[u8], k: usize, profile: Profile) -> &[u8]
    ensures { result.now ≡ store_name profile s.now k }
{
    let r = row_of(s, k, profile);
    let b = r.name;
    octets::part(s, b.at, b.len)
}

// Its raw bytes, or a storage's format identifier; empty where there is no such row.
pub fn store_raw(s: &[u8], k: usize, profile: Profile) -> &[u8]
    ensures { result.now ≡ store_raw profile s.now k }
{
    let r = row_of(s, k, profile);
    let b = r.raw;
    octets::part(s, b.at, b.len)
}

// Whether the store in the block that stands there has values. No block has none; its condition allows the empty place for one, as the definition does.
pub fn has_values(s: &[u8], b: Place) -> bool
    requires { (b.len ≡ 0 → ⊥) → Holds s.now b }
    ensures { result ≡ has_values (block_rows s.now b) }
{
    if b.len == 0 {
        return false;
    }
    let at = b.at + 8;
    rows::any_value(store_of(s, b), at)
}

// The store alone, without a block around it, from rows with places in the body buffer d.
pub fn store_write(rows: &[u64], d: &[u8], out: &mut [u8]) -> Verdict
    ensures answer { result ≡ store_write_answer rows.now d.now out.old }
    ensures output { out.new ≡ store_write_output rows.now d.now out.old }
    ensures numbers { Numbered result (store_writing rows.now d.now (length out.old)) }
    ensures only { StoreEnds rows.now d.now out.old result out.new }
{
    if !tests::rows_placed(rows, d.len()) {
        return Err(Refused::at(Fault::Place, 0));
    }
    if rows.len() % 6 != 0 {
        return Err(Refused::at(Fault::Unwritable, 0));
    }
    let Some(n) = tests::store_size(rows, d) else {
        return Err(Refused::at(Fault::Unwritable, 0));
    };
    if 65448 < n {
        return Err(Refused::at(Fault::Unwritable, 0));
    }
    if out.len() < n {
        return Err(Refused::at(Fault::Room, 0));
    }
    Ok(making::put_store(rows, d, out))
}
