// Entries that stand one after another in d, each after a gap, by their lengths: put as a shelf, and in the old form.
ghost use Rattle.std.specs.Prelude.{◌≡◌, ◌+◌, ◌≤◌, ◌<◌, ◌++◌, length, drop, eqb};
ghost use Rattle.octets.specs.Numbers.{little};
ghost use Rattle.octets.specs.Steps.Puts.{Wrote};
ghost use Rattle.copies.specs.Steps.Writes.{HasRoom, Writes};
ghost use Rattle.format.specs.Shortcut.{sum};
ghost use Rattle.format.specs.Writing.{end_to_end};
ghost use Rattle.shelves.specs.Table.{bodies_start, table_bytes, shelf_bytes};
ghost use Rattle.shelves.specs.OldFile.{old_bytes};
ghost use Rattle.shelves.specs.Steps.Apart.{apart, span, Small, ShelfRoom, OldRoom};

use crate::entries::Entries;
use copies::output::Output;

// By a difference, since the sum could wrap.
pub fn adds_up(lengths: &[u64], n: usize) -> bool
    ensures { result ≡ eqb (sum lengths.now) n }
{
    let mut left = n;
    for m in lengths {
        let Some(rest) = left.checked_sub(*m as usize) else {
            return false;
        };
        left = rest;
    }
    left == 0
}

// The count and the table of a shelf.
fn put_table(w: &mut Output, lengths: &[u64])
    requires { Small lengths.now × HasRoom w.old (bodies_start (length lengths.now)) }
    ensures { Writes w.old w.new
        (little 4 (length lengths.now) ++ table_bytes (bodies_start (length lengths.now)) lengths.now)
        (bodies_start (length lengths.now)) }
{
    w.put_u32(lengths.len() as u32);
    let mut start = 4 + 8 * lengths.len();
    for n in lengths {
        w.put_u32(start as u32);
        w.put_u32(*n as u32);
        start += *n as usize;
    }
}

// The entries, end to end.
fn put_bodies(w: &mut Output, entries: Entries)
    requires { HasRoom w.old (length (end_to_end entries)) }
    ensures { Writes w.old w.new (end_to_end entries.entry) (length (end_to_end entries.entry)) }
{
    for entry in entries {
        w.put_bytes(entry);
    }
}

// The entries, each with its length before it.
fn put_each(w: &mut Output, entries: Entries)
    requires { HasRoom w.old (length (old_bytes entries)) × (length (old_bytes entries) < 4294967296) }
    ensures { Writes w.old w.new (old_bytes entries.entry) (length (old_bytes entries.entry)) }
{
    for entry in entries {
        w.put_u32(entry.len() as u32);
        w.put_bytes(entry);
    }
}

pub fn put_shelf(d: &[u8], gap: usize, lengths: &[u64], out: &mut [u8]) -> usize
    requires { ShelfRoom d.now gap lengths.now out.old }
    ensures written { Wrote out.old 0
        (shelf_bytes (apart gap lengths.now d.now))
        (bodies_start (length lengths.now) + sum lengths.now) out.new result }
{
    let mut w = Output::new(out);
    put_table(&mut w, lengths);
    put_bodies(&mut w, Entries::new(d, gap, lengths));
    w.at()
}

// The entries from the base on.
pub fn put_old(d: &[u8], base: usize, lengths: &[u64], out: &mut [u8]) -> usize
    requires { OldRoom d.now base lengths.now out.old }
    ensures written { Wrote out.old 0
        (old_bytes (apart 0 lengths.now (drop base d.now)))
        (span 4 lengths.now) out.new result }
{
    let mut w = Output::new(out);
    put_each(&mut w, Entries::new(&d[base..], 0, lengths));
    w.at()
}
