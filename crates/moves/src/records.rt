// The record that has the lengths of the moved contents. `unicode` tells the way.
ghost use Rattle.std.specs.Prelude.{◌≡◌, false, ◌≤◌};
ghost use Rattle.format.specs.Moving.{with_flags};
ghost use Rattle.moves.specs.Steps.Moves.{moved_place, gained, unicode_place, moved_flags, moved_places, moved_record, Few, Lengths};

use format::{Header, Link, Place, Record};

// How long a text is once it is translated.
fn moved_place(unicode: bool, b: Place) -> Place
    requires { b.len ≤ 65536 }
    ensures { result ≡ moved_place unicode b }
{
    let len = if unicode { 2 * b.len } else { b.len / 2 };
    Place { at: b.at, len }
}

// A Unicode text of LinkInfo: translated from the byte text, as it was, or dropped. Both flags are facts of the records.
fn unicode_place(unicode: bool, gain: bool, text: Place, old: Place) -> Place
    requires { text.len ≤ 65536 }
    ensures { result ≡ unicode_place unicode gain text old }
{
    if !unicode {
        format::NO_PLACE
    } else if gain {
        moved_place(true, text)
    } else {
        old
    }
}

// Flag bit 7 is set or cleared.
fn moved_header(unicode: bool, h: Header) -> Header
    requires flags_bound { h.flags ≤ 0x7FFFFFF }
    requires le_flags { unicode ≡ false → 0x80 ≤ h.flags }
    ensures { result ≡ with_flags (moved_flags unicode h.flags) h }
{
    let flags = if unicode {
        h.flags + 0x80
    } else {
        h.flags - 0x80
    };
    Header { flags, ..h }
}

// LinkInfo gains its Unicode texts if its head was short.
pub fn gains(r: Record) -> bool
    ensures { result ≡ gained r }
{
    format::info_there(r.header.flags) & !r.link.long
}

// All but StringData and LinkInfo's Unicode texts stay.
fn moved_places(unicode: bool, gain: bool, row: [Place; 17]) -> [Place; 17]
    requires { Few row }
    ensures { result ≡ moved_places unicode gain row }
{
    let mut moved = row;
    moved[format::LOCAL_UNICODE] = unicode_place(
        unicode,
        gain,
        row[format::LOCAL],
        row[format::LOCAL_UNICODE],
    );
    moved[format::SUFFIX_UNICODE] = unicode_place(
        unicode,
        gain,
        row[format::SUFFIX],
        row[format::SUFFIX_UNICODE],
    );
    for k in format::STRINGS..format::BLOCKS {
        moved[k] = moved_place(unicode, row[k]);
    }
    moved
}

// The way is a flag: both share the record, its row and its flags.
#[tactic(auto, using(crate::proofs::RecordLaws::long_is), unfolding(crate::specs::Steps::Moves::moved_record))]
pub fn moved(unicode: bool, r: Record) -> Record
    requires { Lengths unicode r }
    ensures { result ≡ moved_record unicode r }
{
    let gain = gains(r);
    let long = unicode & (gain | r.link.long);
    Record {
        header: moved_header(unicode, r.header),
        link: Link { long, ..r.link },
        places: moved_places(unicode, gain, r.places),
    }
}
