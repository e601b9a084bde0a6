// Which entry is bad.
ghost use Rattle.std.specs.Prelude.{◌≡◌, ◌≤◌, length};
ghost use Rattle.shelves.specs.Steps.Apart.{apart, span};
ghost use Rattle.shelving.specs.Shelf.{accepted_entry};
ghost use Rattle.shelving.specs.Steps.Filing.{bad_entry};

use format::Profile;
use shelves::entries::Entries;

pub fn entry_ok(e: &[u8]) -> bool
    ensures { result ≡ accepted_entry e.now }
{
    matches!(reader::check(e, Profile::Strict), Ok(_))
}

// The number of the first bad entry of those that stand one after another in d, each after a gap, by their lengths.
pub fn first_bad(d: &[u8], gap: usize, lengths: &[u64]) -> Option<usize>
    requires { span gap lengths.now ≤ length d.now }
    ensures { result ≡ bad_entry (apart gap lengths.now d.now) }
{
    Entries::new(d, gap, lengths).position(|e| !entry_ok(e))
}
