// The count and the table of a shelf.
ghost use Rattle.std.specs.Prelude.{◌≡◌, true, ◌+◌, ◌≤◌, ◌<◌, length, drop};
ghost use Rattle.octets.specs.Parts.{put};
ghost use Rattle.format.specs.Tests.{all};
ghost use Rattle.shelves.specs.Table.{most_entries, shelf_count, table_rows, bodies_start, rows_follow, shelf_tests, shelf_row};
ghost use Rattle.shelves.specs.Steps.Apart.{row, table_lengths};

use format::Place;

// Where the entry of this number stands, by its row.
fn row(s: &[u8], k: usize) -> Place
    requires { bodies_start (k + 1) ≤ length s.now }
    ensures is { result ≡ row s.now k }
    ensures small { result.len < 4294967296 }
{
    let i = 4 + 8 * k;
    Place {
        at: octets::u32_at(s, i) as usize,
        len: octets::u32_at(s, i + 4) as usize,
    }
}

// The bodies of n rows, end to end from the table's end to the file's.
fn rows_follow(s: &[u8], n: usize) -> bool
    requires { (n ≤ most_entries) × (bodies_start n ≤ length s.now) }
    ensures { result ≡ rows_follow (length s.now) (bodies_start n) (table_rows n (drop 4 s.now)) }
{
    let mut at = 4 + 8 * n;
    for k in 0..n {
        let b = row(s, k);
        if b.at != at {
            return false;
        }
        at += b.len;
    }
    at == s.len()
}

pub fn table_ok(s: &[u8]) -> bool
    ensures { result ≡ all (shelf_tests s.now) }
{
    if s.len() < 4 {
        return false;
    }
    let n = octets::u32_at(s, 0) as usize;
    if 64 < n {
        return false;
    }
    if s.len() < 4 + 8 * n {
        return false;
    }
    rows_follow(s, n)
}

// Where the entry of this number stands.
pub fn shelf_row(s: &[u8], k: usize) -> Place
    requires { (all (shelf_tests s.now) ≡ true) × (k < shelf_count s.now) }
    ensures { result ≡ shelf_row s.now k }
{
    row(s, k)
}

// The lengths of the table, to the front.
pub fn table_lengths(s: &[u8], lengths: &mut [u64])
    requires { (all (shelf_tests s.now) ≡ true) × (shelf_count s.now ≤ length lengths.old) }
    ensures { lengths.new ≡ put lengths.old 0 (table_lengths s.now) }
{
    for k in 0..octets::u32_at(s, 0) as usize {
        lengths[k] = row(s, k).len as u64;
    }
}
