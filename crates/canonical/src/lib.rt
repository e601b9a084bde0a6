// Puts the canonical bytes of a record into a lent buffer (FORMAT: Canonical form).
#![tactic(auto)]

pub mod heads;
pub mod texts;

ghost use Rattle.std.specs.Prelude.{◌≡◌, [], true, cond, ◌+◌, ◌-◌, ◌≤◌, length};
ghost use Rattle.octets.specs.Parts.{put};
ghost use Rattle.copies.specs.Steps.Writes.{HasRoom, Writes};
ghost use Rattle.format.specs.Presence.{info_there};
ghost use Rattle.format.specs.Shortcut.{most};
ghost use Rattle.format.specs.Bodies.{placed};
ghost use Rattle.format.specs.Contents.{bytes_at, contents};
ghost use Rattle.format.specs.Writing.{if_there, header_bytes, items_bytes, bytes_of_string, blocks_bytes, canonical};
ghost use Rattle.format.specs.Steps.Lengths.{beside, written_row};
ghost use Rattle.format.specs.Steps.Shape.{shape_of, rows_from};
ghost use Rattle.format.specs.Steps.Flat.{body_bytes, slots_bytes, info_to, info_flat, flat_bytes};
ghost use Rattle.sizes.specs.Steps.Sizes.{sizes_of};
ghost use Rattle.canonical.specs.Steps.Puts.{characters_in, characters_kind, characters_row, InBuffer, RowInBuffer, slots_size, info_parts, flat_size, RoomFor};
ghost use Rattle.canonical.specs.Steps.Layout.{magic_bytes, mark_bytes, view_bytes};

use crate::heads::{put_info_head, put_network_head, put_volume_head};
use crate::texts::{body, put_text};
use copies::output::Output;
use format::{Header, Place, Record, Shape};

// ---- the header

// The header's size and the class identifier, in five numbers.
fn put_magic(w: &mut Output)
    requires { HasRoom w.old 20 }
    ensures { Writes w.old w.new magic_bytes 20 }
{
    w.put_u32(0x4C);
    w.put_u32(0x00021401);
    w.put_u32(0);
    w.put_u32(0xC0);
    w.put_u32(0x46000000);
}

// The flags, the attributes and the three times.
fn put_marks(w: &mut Output, h: Header)
    requires { HasRoom w.old 32 }
    ensures { Writes w.old w.new (mark_bytes h) 32 }
{
    w.put_u32(h.flags);
    w.put_u32(h.attributes);
    w.put_u64(h.creation);
    w.put_u64(h.access);
    w.put_u64(h.write);
}

// From the file's size to the ten zero bytes.
fn put_view(w: &mut Output, h: Header)
    requires { HasRoom w.old 24 }
    ensures { Writes w.old w.new (view_bytes h) 24 }
{
    let icon = format::bits_of(h.icon_index);
    w.put_u32(h.file_size);
    w.put_u32(icon);
    w.put_u32(h.command);
    w.put_u16(h.hotkey);
    w.put_u64(0);
    w.put_u16(0);
}

pub fn put_header(w: &mut Output, h: Header)
    requires { HasRoom w.old 76 }
    ensures { Writes w.old w.new (header_bytes h) 76 }
{
    put_magic(w);
    put_marks(w, h);
    put_view(w, h);
}

// ---- the bodies, each as its kind is written

// Its size, the items, and two zero bytes.
fn put_items(w: &mut Output, x: &[u8])
    requires room { HasRoom w.old (length x.now + 4) }
    requires few { length x.now + 4 ≤ most }
    ensures { Writes w.old w.new (items_bytes x.now) (length x.now + 4) }
{
    let n = x.len();
    w.put_u16((n + 2) as u16);
    w.put_bytes(x);
    w.put_u16(0);
}

// How many characters stand in n bytes. `unicode` is a flag of the file.
pub fn characters_in(unicode: bool, n: usize) -> usize
    ensures { result ≡ characters_in unicode n }
{
    if unicode { n / 2 } else { n }
}

// A count of characters, and the characters.
fn put_string(w: &mut Output, unicode: bool, x: &[u8])
    requires room { HasRoom w.old (length x.now + 2) }
    requires few { length x.now + 2 ≤ most }
    ensures { Writes w.old w.new (bytes_of_string unicode x.now) (length x.now + 2) }
{
    let n = x.len();
    let count = characters_in(unicode, n);
    w.put_u16(count as u16);
    w.put_bytes(x);
}

// The blocks, and a zero terminal block.
pub fn put_blocks(w: &mut Output, x: &[u8])
    requires { HasRoom w.old (length x.now + 4) }
    ensures { Writes w.old w.new (blocks_bytes x.now) (length x.now + 4) }
{
    w.put_bytes(x);
    w.put_u32(0);
}

// Presence is a fact of the record, which has the place either way.
pub fn put_items_if(w: &mut Output, there: bool, d: &[u8], b: Place)
    requires inside { there ≡ true → InBuffer d.now b }
    requires room { HasRoom w.old (cond there (b.len + 4) 0) }
    requires few { cond there (b.len + 4) 0 ≤ most }
    ensures { Writes w.old w.new
        (if_there there items_bytes (bytes_at d.now b))
        (cond there (b.len + 4) 0) }
{
    if there {
        put_items(w, body(d, b));
    }
}

// LinkInfo's texts stand before the strings.
fn put_slot(w: &mut Output, k: usize, unicode: bool, x: &[u8])
    requires room { HasRoom w.old (length x.now + beside (characters_kind k unicode)) }
    requires few { length x.now + beside (characters_kind k unicode) ≤ most }
    ensures { Writes w.old w.new
        (body_bytes (characters_kind k unicode) x.now)
        (length x.now + beside (characters_kind k unicode)) }
{
    if k < format::STRINGS {
        put_text(w, unicode, x);
    } else {
        put_string(w, unicode, x);
    }
}

// The bodies of characters in the slots from one to before another. Merged into its callers, where both numbers are known.
#[inline(always)]
pub fn put_slots(w: &mut Output, row: [Place; 17], s: Shape, d: &[u8], from: usize, to: usize)
    requires inside { RowInBuffer d.now row s }
    requires span { (from ≤ to) × (to ≤ 17) }
    requires room { HasRoom w.old (slots_size row from (rows_from (characters_row s) from (to - from))) }
    requires few { slots_size row from (rows_from (characters_row s) from (to - from)) ≤ most }
    ensures { Writes w.old w.new
        (slots_bytes d.now row from (rows_from (characters_row s) from (to - from)))
        (slots_size row from (rows_from (characters_row s) from (to - from))) }
{
    for k in from..to {
        if s[k].there {
            put_slot(w, k, s[k].wide, body(d, row[k]));
        }
    }
}

// ---- the whole

// A record as it is put: what of it is there, the size of each slot, and the buffer in which its bodies lie.
#[derive(Drop)]
struct Form<'a> {
    held: Record,
    shape: Shape,
    sizes: [u32; 17],
    bodies: &'a [u8],
    ghost shaped: { shape ≡ shape_of held.header.flags held.link },
    ghost sized: { sizes ≡ written_row held },
    ghost inside: { placed (length bodies.now) held ≡ true },
}

// LinkInfo's further bytes. Most heads have none, and a call that puts none costs as much as one that puts a few.
fn put_further(w: &mut Output, x: &[u8])
    requires { HasRoom w.old (length x.now) }
    ensures { Writes w.old w.new x.now (length x.now) }
{
    if 0 < x.len() {
        w.put_bytes(x);
    }
}

// LinkInfo: each head before the bodies that it leads to, its own with the further bytes.
fn put_info_parts(w: &mut Output, f: &Form)
    requires present { info_there f.now.held.header.flags ≡ true }
    requires fits { info_to f.now.held.link f.now.sizes ≡ info_parts f.now.held f.now.shape }
    requires room { HasRoom w.old (info_to f.now.held.link f.now.sizes) }
    requires few { info_to f.now.held.link f.now.sizes ≤ most }
    ensures { Writes w.old w.new
        (info_flat f.now.bodies.now f.now.held f.now.shape f.now.sizes)
        (info_to f.now.held.link f.now.sizes) }
{
    let l = f.held.link;
    let row = f.held.places;
    let sizes = f.sizes;
    put_info_head(w, l, sizes);
    put_further(w, body(f.bodies, row[format::FURTHER]));
    put_volume_head(w, l, sizes);
    put_slots(w, row, f.shape, f.bodies, format::LABEL, format::NET);
    put_network_head(w, l, sizes);
    put_slots(w, row, f.shape, f.bodies, format::NET, format::STRINGS);
}

// The flag is the record's own: the record has the part either way.
fn put_info(w: &mut Output, there: bool, f: &Form)
    requires present { there ≡ info_there f.now.held.header.flags }
    requires room { HasRoom w.old (cond there (info_to f.now.held.link f.now.sizes) 0) }
    requires few { cond there (info_to f.now.held.link f.now.sizes) 0 ≤ most }
    ensures { Writes w.old w.new
        (cond there (info_flat f.now.bodies.now f.now.held f.now.shape f.now.sizes) [])
        (cond there (info_to f.now.held.link f.now.sizes) 0) }
{
    if there {
        put_info_parts(w, f);
    }
}

// The sections in file order.
fn put_record(w: &mut Output, f: &Form)
    requires room { HasRoom w.old (flat_size f.now.held f.now.shape f.now.sizes) }
    requires few { flat_size f.now.held f.now.shape f.now.sizes ≤ most }
    ensures { Writes w.old w.new
        (flat_bytes f.now.bodies.now f.now.held f.now.shape f.now.sizes)
        (flat_size f.now.held f.now.shape f.now.sizes) }
{
    let flags = f.held.header.flags;
    let row = f.held.places;
    put_header(w, f.held.header);
    put_items_if(w, format::items_there(flags), f.bodies, row[format::ITEMS]);
    put_info(w, format::info_there(flags), f);
    put_slots(w, row, f.shape, f.bodies, format::STRINGS, format::BLOCKS);
    put_blocks(w, body(f.bodies, row[format::BLOCKS]));
}

// From the buffer's start on. Answers the shortcut's length. The rows stand beside the record: docs/MAP.md and docs/CONTRACTS.md name this call.
pub fn put_canonical(out: &mut [u8], q: Record, s: Shape, sizes: [u32; 17], d: &[u8]) -> usize
    requires fits { RoomFor d.now out.old q }
    requires shape { s ≡ shape_of q.header.flags q.link }
    requires sized { sizes ≡ sizes_of q }
    ensures value { result ≡ length (canonical (contents d.now q)) }
    ensures out_after { out.new ≡ put out.old 0 (canonical (contents d.now q)) }
{
    let f = Form {
        held: q,
        shape: s,
        sizes,
        bodies: d,
    };
    let mut w = Output::new(out);
    put_record(&mut w, &f);
    w.at()
}
