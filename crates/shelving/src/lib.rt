// The shelf file: testing one, fetching from it, building it, and moving to it from the old form and back (FORMAT: The shelf).
#![tactic(auto)]

mod entries;

ghost use Rattle.std.specs.Prelude.{◌≡◌, ◌≤◌, ◌<◌, true, length, MatchOption};
ghost use Rattle.format.specs.Numbers.{Numbered};
ghost use Rattle.format.specs.Tests.{all};
ghost use Rattle.shelves.specs.Table.{shelf_count, shelf_tests, shelf_entries, shelf_row, shelf_bytes};
ghost use Rattle.shelving.specs.Shelf.{shelf, shelf_answer, shelf_entry, shelf_one, fetch_verdict, entry_answer, one_answer, entry_shown, one_shown};
ghost use Rattle.shelving.specs.Building.{filed, shelf_build, build_answer, build_output};
ghost use Rattle.shelves.specs.OldFile.{old_bytes};
ghost use Rattle.shelving.specs.OldForm.{from_old, from_old_answer, from_old_output, to_old, to_old_answer, to_old_output};
ghost use Rattle.shelves.specs.Steps.Apart.{apart, table_lengths};
ghost use Rattle.shelving.specs.Steps.Filing.{bad_entry, Entries, Filed};

use format::{Fault, Place, Refused, Verdict};
use shelves::{making, old, table};

// The number of the first bad entry, if there is one, on a shelf whose table is right.
fn first_on_shelf(s: &[u8]) -> Option<usize>
    requires { all (shelf_tests s.now) ≡ true }
    ensures { result ≡ bad_entry (shelf_entries s.now) }
{
    let n = octets::u32_at(s, 0) as usize;
    let mut lengths = [0u64; 64];
    table::table_lengths(s, &mut lengths);
    entries::first_bad(&s[4 + 8 * n..], 0, &lengths[..n])
}

// Whether it is a shelf; the answer is the number of its entries.
pub fn shelf_check(s: &[u8]) -> Verdict
    ensures answer { result ≡ shelf_answer s.now }
    ensures numbers { Numbered result (shelf s.now) }
{
    if !table::table_ok(s) {
        return Err(Refused::at(Fault::Shelf, 0));
    }
    if let Some(bad) = first_on_shelf(s) {
        return Err(Refused::at(Fault::Entry, bad));
    }
    Ok(octets::u32_at(s, 0) as usize)
}

// Where the entry of this number stands, if the table is right and has it.
fn row_on(s: &[u8], k: usize) -> Option<Place>
    ensures { MatchOption result
        (all (shelf_tests s.now) ≡ true → shelf_count s.now ≤ k)
        (λ b. (all (shelf_tests s.now) ≡ true) × (k < shelf_count s.now) × (b ≡ shelf_row s.now k)) }
{
    if !table::table_ok(s) {
        return None;
    }
    if octets::u32_at(s, 0) as usize <= k {
        return None;
    }
    Some(table::shelf_row(s, k))
}

// Where the entry of this number stands, on a shelf that is right in all its parts.
pub fn shelf_entry(s: &[u8], k: usize) -> Result<Place, Refused>
    ensures answer { result ≡ entry_answer s.now k }
    ensures numbers { Numbered (fetch_verdict result) (shelf_entry s.now k) }
{
    let Some(place) = row_on(s, k) else {
        return Err(Refused::at(Fault::Shelf, 0));
    };
    match first_on_shelf(s) {
        Some(bad) => Err(Refused::at(Fault::Entry, bad)),
        None => Ok(place),
    }
}

// The same without a look into the other entries. The rules have both calls by name.
pub fn shelf_one(s: &[u8], k: usize) -> Result<Place, Refused>
    ensures answer { result ≡ one_answer s.now k }
    ensures numbers { Numbered (fetch_verdict result) (shelf_one s.now k) }
{
    let Some(place) = row_on(s, k) else {
        return Err(Refused::at(Fault::Shelf, 0));
    };
    if entries::entry_ok(octets::part(s, place.at, place.len)) {
        Ok(place)
    } else {
        Err(Refused::at(Fault::Entry, k))
    }
}

// The bytes of that entry; empty beside a refusal. This and the next are two names of the rules.
pub fn shelf_fetch(s: &[u8], k: usize) -> &[u8]
    ensures { result.now ≡ entry_shown s.now k }
{
    let b = shelf_entry(s, k).unwrap_or(format::NO_PLACE);
    octets::part(s, b.at, b.len)
}

pub fn shelf_fetch_one(s: &[u8], k: usize) -> &[u8]
    ensures { result.now ≡ one_shown s.now k }
{
    let b = shelf_one(s, k).unwrap_or(format::NO_PLACE);
    octets::part(s, b.at, b.len)
}

// A shelf of the entries that d has by these lengths, each after a gap; there are as many bytes of them.
fn shelve(d: &[u8], gap: usize, lengths: &[u64], bytes: usize, out: &mut [u8]) -> Verdict
    requires { Entries d.now gap lengths.now bytes }
    ensures { Filed (filed (apart gap lengths.now d.now) (shelf_bytes (apart gap lengths.now d.now)) (length out.old))
        out.old result out.new }
{
    if let Some(bad) = entries::first_bad(d, gap, lengths) {
        return Err(Refused::at(Fault::Entry, bad));
    }
    if out.len() < 4 + 8 * lengths.len() + bytes {
        return Err(Refused::at(Fault::Room, 0));
    }
    Ok(making::put_shelf(d, gap, lengths, out))
}

// A shelf of bodies, which stand one after another in a slice, by their lengths.
pub fn shelf_build(lengths: &[u64], bodies: &[u8], out: &mut [u8]) -> Verdict
    ensures answer { result ≡ build_answer lengths.now bodies.now out.old }
    ensures output { out.new ≡ build_output lengths.now bodies.now out.old }
    ensures numbers { Numbered result (shelf_build lengths.now bodies.now (length out.old)) }
{
    let few = lengths.len() <= 64;
    let fit = few && making::adds_up(lengths, bodies.len());
    if !fit {
        return Err(Refused::at(Fault::Shelf, 0));
    }
    shelve(bodies, 0, lengths, bodies.len(), out)
}

// A shelf from a file of the old form.
pub fn shelf_from_old(s: &[u8], out: &mut [u8]) -> Verdict
    ensures answer { result ≡ from_old_answer s.now out.old }
    ensures output { out.new ≡ from_old_output s.now out.old }
    ensures numbers { Numbered result (from_old s.now (length out.old)) }
{
    let Some(n) = old::old_count(s) else {
        return Err(Refused::at(Fault::Shelf, 0));
    };
    let mut lengths = [0u64; 64];
    old::old_lengths(s, &mut lengths);
    shelve(s, 4, &lengths[..n], s.len() - 4 * n, out)
}

// The old form of the entries on a shelf whose table is right and has these lengths.
fn unshelve(s: &[u8], lengths: &[u64], out: &mut [u8]) -> Verdict
    requires { (all (shelf_tests s.now) ≡ true) × (lengths.now ≡ table_lengths s.now) }
    ensures { Filed (filed (shelf_entries s.now) (old_bytes (shelf_entries s.now)) (length out.old)) out.old result out.new }
{
    let n = lengths.len();
    let start = 4 + 8 * n;
    if let Some(bad) = entries::first_bad(&s[start..], 0, lengths) {
        return Err(Refused::at(Fault::Entry, bad));
    }
    if out.len() < s.len() - (4 + 4 * n) {
        return Err(Refused::at(Fault::Room, 0));
    }
    Ok(making::put_old(s, start, lengths, out))
}

// And back.
pub fn shelf_to_old(s: &[u8], out: &mut [u8]) -> Verdict
    ensures answer { result ≡ to_old_answer s.now out.old }
    ensures output { out.new ≡ to_old_output s.now out.old }
    ensures numbers { Numbered result (to_old s.now (length out.old)) }
{
    if !table::table_ok(s) {
        return Err(Refused::at(Fault::Shelf, 0));
    }
    let n = octets::u32_at(s, 0) as usize;
    let mut lengths = [0u64; 64];
    table::table_lengths(s, &mut lengths);
    unshelve(s, &lengths[..n], out)
}
