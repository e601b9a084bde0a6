// Entries that stand one after another in a slice, each after a gap, by their lengths.
ghost use Rattle.std.specs.Prelude.{◌≡◌, ◌≤◌, length};
ghost use Rattle.std.specs.Iterator.{YieldsFirstRef, item_count};
ghost use Rattle.shelves.specs.Steps.Apart.{apart, span};

use std::marker::Model;

// Those that are left; a contract sees their list.
#[derive(Drop)]
pub struct Entries<'a> {
    rest: &'a [u8],
    gap: usize,
    lengths: &'a [u64],
}

impl<'a> Model for Entries<'a> {
    ghost use Rattle.std.specs.Prelude.{ℕ, List, ◌≤◌, length};
    ghost use Rattle.shelves.specs.Steps.Apart.{apart, span};

    ghost Value = { List (List ℕ) };

    ghost view = { λ e. apart e.gap e.lengths.now e.rest.now };

    ghost invariant = { λ e. span e.gap e.lengths.now ≤ length e.rest.now };
}

impl<'a> Entries<'a> {
    pub fn new(d: &'a [u8], gap: usize, lengths: &'a [u64]) -> Entries<'a>
        requires { span gap lengths.now ≤ length d.now }
        ensures { result ≡ apart gap lengths.now d.now }
    {
        Entries {
            rest: d,
            gap,
            lengths,
        }
    }
}

impl<'a> Iterator for Entries<'a> {
    type Item = &'a [u8];

    ghost next_gives = { YieldsFirstRef (λ rest. rest) };

    ghost remaining = { item_count (λ rest. rest) };

    fn next(&mut self) -> Option<&'a [u8]> {
        let (n, lengths) = self.lengths.split_first()?;
        let end = self.gap + *n as usize;
        let entry = &self.rest[self.gap..end];
        self.rest = &self.rest[end..];
        self.lengths = lengths;
        Some(entry)
    }
}
