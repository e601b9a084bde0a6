// The bytes of the moved contents, each piece translated as it is put.
ghost use Rattle.std.specs.Prelude.{◌≡◌, [], true, cond, ◌+◌, ◌*◌, ◌≤◌, length};
ghost use Rattle.copies.specs.Steps.Writes.{HasRoom, Writes};
ghost use Rattle.format.specs.Shortcut.{most};
ghost use Rattle.format.specs.Writing.{if_there, text_bytes};
ghost use Rattle.format.specs.Codepage.{to_units};
ghost use Rattle.format.specs.Steps.Flat.{info_to};
ghost use Rattle.moves.specs.Steps.Moves.{Inside, Known};
ghost use Rattle.moving.specs.Steps.Pieces.{moved_strings, strings_size, unicode_texts, unicode_size, moved_info, info_size};

use canonical::heads::{put_info_head, put_network_head, put_volume_head};
use canonical::put_slots;
use canonical::texts::body;
use copies::output::Output;
use format::{Record, Shape};
use moves::strings::{put_string, put_units};

// What a moved shortcut is put from: the record that was read, that with the moved lengths, the shape and the sizes of the
// second, and the shortcut itself, in which all bodies lie.
#[derive(Drop)]
pub struct Moved<'a> {
    pub held: Record,
    pub moved: Record,
    pub shape: Shape,
    pub sizes: [u32; 17],
    pub bodies: &'a [u8],
    ghost inside: { Inside bodies.now held.places },
}

// ---- StringData

pub fn put_strings(w: &mut Output, unicode: bool, m: &Moved)
    requires known { Known unicode m.now.bodies.now m.now.held.places }
    requires room { HasRoom w.old (strings_size unicode m.now.held.places m.now.shape) }
    requires few { strings_size unicode m.now.held.places m.now.shape ≤ most }
    ensures { Writes w.old w.new
        (moved_strings unicode m.now.bodies.now m.now.held.places m.now.shape)
        (strings_size unicode m.now.held.places m.now.shape) }
{
    let row = m.held.places;
    for k in format::STRINGS..format::BLOCKS {
        if m.shape[k].there {
            put_string(w, unicode, body(m.bodies, row[k]));
        }
    }
}

// ---- LinkInfo

// A Unicode text that is gained, with its terminator. What is there, and what is gained, are facts of the records.
fn put_gained(w: &mut Output, there: bool, x: &[u8])
    requires { HasRoom w.old (cond there (2 * length x.now + 2) 0) }
    ensures { Writes w.old w.new
        (if_there there (text_bytes true) (to_units x.now))
        (cond there (2 * length x.now + 2) 0) }
{
    if there {
        put_units(w, x);
        w.put_u16(0);
    }
}

// Both Unicode texts: gained, or as they stand.
fn put_unicode_texts(w: &mut Output, gain: bool, m: &Moved)
    requires room { HasRoom w.old (unicode_size gain m.now.held.places m.now.shape) }
    requires few { unicode_size gain m.now.held.places m.now.shape ≤ most }
    ensures { Writes w.old w.new
        (unicode_texts gain m.now.bodies.now m.now.held.places m.now.shape)
        (unicode_size gain m.now.held.places m.now.shape) }
{
    let row = m.held.places;
    if gain {
        put_gained(
            w,
            m.shape[format::LOCAL_UNICODE].there,
            body(m.bodies, row[format::LOCAL]),
        );
        put_gained(
            w,
            m.shape[format::SUFFIX_UNICODE].there,
            body(m.bodies, row[format::SUFFIX]),
        );
    } else {
        put_slots(
            w,
            row,
            m.shape,
            m.bodies,
            format::LOCAL_UNICODE,
            format::STRINGS,
        );
    }
}

// Each head before the bodies that it leads to.
fn put_info_parts(w: &mut Output, m: &Moved)
    requires fits { info_to m.now.moved.link m.now.sizes ≡ info_size m.now.held m.now.moved m.now.shape }
    requires room { HasRoom w.old (info_to m.now.moved.link m.now.sizes) }
    requires few { info_to m.now.moved.link m.now.sizes ≤ most }
    ensures { Writes w.old w.new
        (moved_info m.now.bodies.now m.now.held m.now.moved m.now.shape m.now.sizes)
        (info_to m.now.moved.link m.now.sizes) }
{
    let l = m.moved.link;
    let row = m.held.places;
    let sizes = m.sizes;
    let gain = l.long & !m.held.link.long;
    put_info_head(w, l, sizes);
    w.put_bytes(body(m.bodies, row[format::FURTHER]));
    put_volume_head(w, l, sizes);
    put_slots(w, row, m.shape, m.bodies, format::LABEL, format::NET);
    put_network_head(w, l, sizes);
    put_slots(
        w,
        row,
        m.shape,
        m.bodies,
        format::NET,
        format::LOCAL_UNICODE,
    );
    put_unicode_texts(w, gain, m);
}

// The flag is the record's own: the record has the part either way.
pub fn put_info(w: &mut Output, there: bool, m: &Moved)
    requires fits { there ≡ true → info_to m.now.moved.link m.now.sizes ≡ info_size m.now.held m.now.moved m.now.shape }
    requires room { HasRoom w.old (cond there (info_to m.now.moved.link m.now.sizes) 0) }
    requires few { cond there (info_to m.now.moved.link m.now.sizes) 0 ≤ most }
    ensures { Writes w.old w.new
        (cond there (moved_info m.now.bodies.now m.now.held m.now.moved m.now.shape m.now.sizes) [])
        (cond there (info_to m.now.moved.link m.now.sizes) 0) }
{
    if there {
        put_info_parts(w, m);
    }
}
