// Whether a list of rows can be written as a store, and how long that is. The body buffer is d.
ghost use Rattle.std.specs.Prelude.{◌≡◌, true, false, ◌+◌, ◌≤◌, length, MatchOption};
ghost use Rattle.format.specs.Bodies.{all_inside};
ghost use Rattle.format.specs.StoreWriting.{places_used, row_at, rows_from, rows_placed, entry_of, entries, entry_fits, kind_after};
ghost use Rattle.stores.specs.Steps.Sizes.{capped_store, row_size, values_kind, store_size};

use format::{Place, StoreRow};

// The row whose six numbers stand there.
pub fn row_from(rows: &[u64], i: usize) -> StoreRow
    requires { i + 6 ≤ length rows.now }
    ensures { result ≡ row_at rows.now i }
{
    StoreRow {
        kind: rows[i],
        number: rows[i + 1],
        name: Place {
            at: rows[i + 2] as usize,
            len: rows[i + 3] as usize,
        },
        raw: Place {
            at: rows[i + 4] as usize,
            len: rows[i + 5] as usize,
        },
    }
}

// ---- places

fn row_placed(r: StoreRow, n: usize) -> bool
    ensures { result ≡ all_inside n (places_used r) }
{
    match r.kind {
        0 | 1 => writable::inside(r.raw, n),
        2 => writable::inside(r.name, n) & writable::inside(r.raw, n),
        _ => true,
    }
}

pub fn rows_placed(rows: &[u64], n: usize) -> bool
    ensures { result ≡ rows_placed n (rows_from rows.now) }
{
    for k in 0..rows.len() / 6 {
        if !row_placed(row_from(rows, 6 * k), n) {
            return false;
        }
    }
    true
}

// ---- the values that may stand at a row

// No value before the first storage; then those that its format asks for.
#[derive(Clone, Copy)]
enum Values {
    NoneYet,
    ByNumber,
    ByName,
}

// The values that may stand after this row, if the row may stand where these may.
fn values_after(values: Values, r: StoreRow, d: &[u8]) -> Option<Values>
    requires { all_inside (length d.now) (places_used r) ≡ true }
    ensures { MatchOption result
        (entry_fits (values_kind values) (entry_of d.now r) ≡ false)
        (λ v. (entry_fits (values_kind values) (entry_of d.now r) ≡ true) × (values_kind v ≡ kind_after (values_kind values) (entry_of d.now r))) }
{
    match (r.kind, values) {
        (0, _) if r.raw.len == 16 => Some(if storages::is_named(d, r.raw.at) {
            Values::ByName
        } else {
            Values::ByNumber
        }),
        (1, Values::ByNumber) if r.number < 0x1_0000_0000 => Some(values),
        (2, Values::ByName) => Some(values),
        _ => None,
    }
}

// ---- length

// One more than the longest stands for every length that is too great (see `clipped` in sizes).
fn capped(n: usize) -> usize
    ensures { (result ≡ capped_store n) × (result ≤ 65449) }
{
    n.min(65449)
}

// A storage with its zero size, or a value; where a length is too great, so is this.
#[tactic(auto, unfolding(crate::specs::Steps::Sizes::row_size))]
pub fn row_size(r: StoreRow) -> usize
    ensures { (result ≡ row_size r) × (result ≤ 130907) }
{
    match r.kind {
        0 => 28,
        1 => 9 + capped(r.raw.len),
        _ => 9 + capped(r.name.len) + capped(r.raw.len),
    }
}

// The store's length, if the rows are a store's.
pub fn store_size(rows: &[u64], d: &[u8]) -> Option<usize>
    requires { rows_placed (length d.now) (rows_from rows.now) ≡ true }
    ensures { result ≡ store_size (entries d.now (rows_from rows.now)) }
{
    let mut values = Values::NoneYet;
    let mut size: usize = 4;
    for k in 0..rows.len() / 6 {
        let r = row_from(rows, 6 * k);
        values = values_after(values, r, d)?;
        size = capped(size + row_size(r));
    }
    Some(size)
}
