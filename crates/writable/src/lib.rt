// Whether a record can be written (FORMAT: Writing tests): the bodies' places, the rules of each section, and the length of the whole.
#![tactic(auto)]

ghost use Rattle.std.specs.Prelude.{◌≡◌, true, not, ◌||◌, cond, ◌+◌, ◌-◌, ◌/◌, ◌%◌, ◌≤◌, length, get_or, eqb, leb};
ghost use Rattle.format.specs.Tests.{no_place};
ghost use Rattle.format.specs.Bodies.{blocks_slot, placed};
ghost use Rattle.format.specs.Contents.{bytes_at, contents};
ghost use Rattle.format.specs.Writing.{writable_if, writable_header, writable_items, writable_text, writable_string, writable_blocks, writable_further, writable_body, writable_link, writable};
ghost use Rattle.format.specs.Steps.Shape.{shape_of};
ghost use Rattle.sizes.specs.Steps.Sizes.{clipped_length};
ghost use Rattle.canonical.specs.Steps.Puts.{InBuffer, RowInBuffer};
ghost use Rattle.writable.specs.Steps.Slots.{kind_at, slots_ok, bodies_ok};

use format::{Header, Link, Place, Profile, Record, Shape};

// ---- whether the bodies lie in the buffer

// By a difference, since a place near the largest number plus its length would wrap.
pub fn inside(b: Place, n: usize) -> bool
    ensures { result ≡ leb (b.at + b.len) n }
{
    b.len <= n && b.at <= n - b.len
}

// Every body that is there lies in a buffer of n bytes.
#[tactic(auto, using(crate::proofs::SlotLaws::placed_one))]
pub fn placed(q: Record, s: Shape, n: usize) -> bool
    requires { s ≡ shape_of q.header.flags q.link }
    ensures { result ≡ placed n q }
{
    let row = q.places;
    for k in 0..17 {
        if s[k].there && !inside(row[k], n) {
            return false;
        }
    }
    true
}

// ---- whether a body can be written

// The bytes at a place, which was tested before.
fn body(d: &[u8], b: Place) -> &[u8]
    requires { InBuffer d.now b }
    ensures { result.now ≡ bytes_at d.now b }
{
    &d[b.at..][..b.len]
}

// Whole characters: in Unicode an even number of bytes. `unicode` is a flag of the file, and a constant in the calls of pathing.
fn whole(unicode: bool, n: usize) -> bool
    ensures { result ≡ (not unicode || eqb (n % 2) 0) }
{
    !unicode | (n % 2 == 0)
}

// Whole characters, none of them zero.
pub fn text_ok(unicode: bool, x: &[u8]) -> bool
    ensures { result ≡ writable_text unicode x.now }
{
    whole(unicode, x.len()) & !octets::has_zero(unicode, x)
}

// Whole characters, as many as a count of two bytes can hold.
#[tactic(auto, using(crate::proofs::TextLaws::string_is))]
fn string_ok(unicode: bool, x: &[u8]) -> bool
    ensures { result ≡ writable_string unicode x.now }
{
    let n = x.len();
    whole(unicode, n) & (canonical::characters_in(unicode, n) < 65536)
}

// Items, each with a size of two bytes that counts itself, up to the end.
fn items_ok(x: &[u8]) -> bool
    ensures { result ≡ writable_items x.now }
{
    if 65533 < x.len() {
        return false;
    }
    let n = x.len();
    // Where the size ends that is due, and no slice of the rest, by which an item costs nine instructions in place of six.
    let mut p: usize = 2;
    while p <= n {
        let size = octets::u16_at(x, p - 2) as usize;
        if size < 2 {
            return false;
        }
        p += size;
    }
    p == n + 2
}

// Blocks up to the end, with no terminal block among them. What the walk notes on its way serves nobody here.
fn blocks_ok(x: &[u8]) -> bool
    ensures { result ≡ writable_blocks x.now }
{
    let mut firsts = [0u32; 11];
    blocks::run(x, 0, &mut firsts) == x.len()
}

// A short head has no further bytes.
fn further_if(there: bool, long: bool, b: Place, d: &[u8]) -> bool
    requires { there ≡ true → InBuffer d.now b }
    ensures { result ≡ writable_if there (writable_further long) (bytes_at d.now b) }
{
    !there | long | (b.len == 0)
}

// ---- whether a section can be written

fn header_ok(h: Header, profile: Profile) -> bool
    ensures { result ≡ writable_header profile h }
{
    header::flags_ok(h.flags)
        & header::attributes_ok(h.attributes, profile)
        & header::hotkey_ok(h.hotkey)
}

// LinkInfo's flags, the drive type and the network link's flags, as far as they are there.
fn link_ok(flags: u32, l: Link) -> bool
    ensures { result ≡ writable_link flags l }
{
    let info = format::info_there(flags);
    let local = info & format::local_there(l.flags);
    let network = info & format::network_there(l.flags);
    (!info | (l.flags <= 3)) & (!local | (l.drive <= 6)) & (!network | (l.network_flags <= 3))
}

// ---- whether the bodies can be written, each by the rule of its kind

fn items_if(there: bool, b: Place, d: &[u8]) -> bool
    requires { there ≡ true → InBuffer d.now b }
    ensures { result ≡ writable_if there writable_items (bytes_at d.now b) }
{
    !there || items_ok(body(d, b))
}

// LinkInfo's texts stand before the strings.
fn slot_ok(k: usize, unicode: bool, x: &[u8]) -> bool
    ensures { result ≡ writable_body (kind_at k unicode) x.now }
{
    if k < format::STRINGS {
        text_ok(unicode, x)
    } else {
        string_ok(unicode, x)
    }
}

// The bodies of characters in the slots from one to before another.
#[tactic(auto, using(crate::proofs::SlotLaws::slots_each, crate::proofs::SlotLaws::slots_one))]
fn slots_ok(row: [Place; 17], s: Shape, d: &[u8], from: usize, to: usize) -> bool
    requires inside { RowInBuffer d.now row s }
    requires span { (from ≤ to) × (to ≤ 17) }
    ensures { result ≡ slots_ok d.now row s from (to - from) }
{
    for k in from..to {
        if s[k].there && !slot_ok(k, s[k].wide, body(d, row[k])) {
            return false;
        }
    }
    true
}

// Texts and strings apart, so that the compiler unrolls both walks.
#[tactic(auto, unfolding(crate::specs::Steps::Slots::bodies_ok))]
fn bodies_ok(row: [Place; 17], s: Shape, long: bool, d: &[u8]) -> bool
    requires inside { RowInBuffer d.now row s }
    requires blocks { InBuffer d.now (get_or row blocks_slot no_place) }
    ensures { result ≡ bodies_ok d.now row s long }
{
    items_if(s[format::ITEMS].there, row[format::ITEMS], d)
        & slots_ok(row, s, d, format::LABEL, format::STRINGS)
        & slots_ok(row, s, d, format::STRINGS, format::BLOCKS)
        & blocks_ok(body(d, row[format::BLOCKS]))
        & further_if(s[format::FURTHER].there, long, row[format::FURTHER], d)
}

// ---- the whole

// A body that is too long is refused by its length, before any body is looked at. `end` is where the shortest form ends.
pub fn writable(q: Record, s: Shape, end: u32, d: &[u8], profile: Profile) -> bool
    requires shape { s ≡ shape_of q.header.flags q.link }
    requires placed { placed (length d.now) q ≡ true }
    requires counted { end ≡ clipped_length q }
    ensures { result ≡ writable profile (contents d.now q) }
{
    if 65536 < end {
        return false;
    }
    header_ok(q.header, profile)
        & link_ok(q.header.flags, q.link)
        & bodies_ok(q.places, s, q.link.long, d)
}
