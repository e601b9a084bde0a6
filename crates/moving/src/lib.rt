// A shortcut of byte strings moved to one of Unicode, and home again (FORMAT: Moving). `unicode`, a flag of the file that is made, tells the way.
#![tactic(auto)]

pub mod texts;

ghost use Rattle.std.specs.Prelude.{◌≡◌, true, ◌≤◌, length};
ghost use Rattle.octets.specs.Parts.{put};
ghost use Rattle.copies.specs.Steps.Writes.{HasRoom, Writes};
ghost use Rattle.format.specs.Presence.{info_there};
ghost use Rattle.format.specs.Numbers.{Numbered};
ghost use Rattle.format.specs.Shortcut.{most, verdict_of};
ghost use Rattle.format.specs.Contents.{contents};
ghost use Rattle.format.specs.Writing.{output_of};
ghost use Rattle.format.specs.Moving.{moving, to_unicode, to_byte_strings, to_unicode_answer, to_unicode_output, to_bytes_answer, to_bytes_output, MovesToUnicode, MovesToBytes};
ghost use Rattle.format.specs.Steps.Lengths.{written_row};
ghost use Rattle.format.specs.Steps.Shape.{shape_of};
ghost use Rattle.format.specs.Steps.Flat.{info_to};
ghost use Rattle.moves.specs.Steps.Moves.{maps, head_fits, moved, call, moved_record, Inside, Known, Going, ReadFrom};
ghost use Rattle.moving.specs.Steps.Pieces.{info_size, moved_total, moved_flat};

use crate::texts::{Moved, put_info, put_strings};
use canonical::texts::body;
use copies::output::Output;
use format::{Fault, Profile, Record, Refused, Verdict};
use moves::records;
use moves::tests::maps;

// ---- whether it can be moved

// On the way home the head becomes short, and has no further bytes then.
fn head_fits(unicode: bool, r: Record) -> bool
    ensures { result ≡ head_fits unicode r }
{
    unicode || r.places[format::FURTHER].len == 0
}

// ---- the result

// The sections in file order.
fn put_sections(w: &mut Output, unicode: bool, m: &Moved)
    requires known { Known unicode m.now.bodies.now m.now.held.places }
    requires fits { info_there m.now.moved.header.flags ≡ true
        → info_to m.now.moved.link m.now.sizes ≡ info_size m.now.held m.now.moved m.now.shape }
    requires room { HasRoom w.old (moved_total unicode m.now.held m.now.moved m.now.shape m.now.sizes) }
    requires few { moved_total unicode m.now.held m.now.moved m.now.shape m.now.sizes ≤ most }
    ensures { Writes w.old w.new
        (moved_flat unicode m.now.bodies.now m.now.held m.now.moved m.now.shape m.now.sizes)
        (moved_total unicode m.now.held m.now.moved m.now.shape m.now.sizes) }
{
    let header = m.moved.header;
    let row = m.held.places;
    canonical::put_header(w, header);
    canonical::put_items_if(
        w,
        format::items_there(header.flags),
        m.bodies,
        row[format::ITEMS],
    );
    put_info(w, format::info_there(header.flags), m);
    put_strings(w, unicode, m);
    canonical::put_blocks(w, body(m.bodies, row[format::BLOCKS]));
}

// From the buffer's start on. Answers the shortcut's length.
fn put_moved(out: &mut [u8], unicode: bool, m: &Moved) -> usize
    requires going { Going unicode m.now.bodies.now out.old m.now.held }
    requires lengths { m.now.moved ≡ moved_record unicode m.now.held }
    requires shape { m.now.shape ≡ shape_of m.now.moved.header.flags m.now.moved.link }
    requires sized { m.now.sizes ≡ written_row m.now.moved }
    ensures value { result ≡ length
        (moved_flat unicode m.now.bodies.now m.now.held m.now.moved m.now.shape m.now.sizes) }
    ensures out_after { out.new ≡ put out.old 0
        (moved_flat unicode m.now.bodies.now m.now.held m.now.moved m.now.shape m.now.sizes) }
{
    let mut w = Output::new(out);
    put_sections(&mut w, unicode, m);
    w.at()
}

// The length alone decides whether it can be written, since all that was read could be and the head fits.
fn write_moved(unicode: bool, r: Record, d: &[u8], out: &mut [u8], profile: Profile) -> Verdict
    requires read { ReadFrom profile d.now r }
    requires maps { maps unicode (contents d.now r) ≡ true }
    requires head { head_fits unicode r ≡ true }
    ensures answer { result ≡ verdict_of (moving profile true (moved unicode (contents d.now r)) (length out.old)) }
    ensures output { out.new ≡ output_of (moving profile true (moved unicode (contents d.now r)) (length out.old)) out.old }
{
    let q = records::moved(unicode, r);
    let s = format::shape_of(q.header.flags, q.link);
    let sizes = sizes::sizes_of(q, s);
    let end = sizes::end_of(q, sizes);
    if 65536 < end {
        return Err(Refused::at(Fault::Unwritable, 0));
    }
    if out.len() < end as usize {
        return Err(Refused::at(Fault::Room, 0));
    }
    let m = Moved {
        held: r,
        moved: q,
        shape: s,
        sizes,
        bodies: d,
    };
    Ok(put_moved(out, unicode, &m))
}

// ---- the calls

fn move_to(unicode: bool, s: &[u8], out: &mut [u8], profile: Profile) -> Verdict
    ensures answer { result ≡ verdict_of (call profile unicode s.now (length out.old)) }
    ensures output { out.new ≡ output_of (call profile unicode s.now (length out.old)) out.old }
{
    let g = reader::read(s, profile);
    g.verdict?;
    let r = g.held;
    if !maps(s, r, unicode) {
        return Err(Refused::at(Fault::NoMap, 0));
    }
    if !head_fits(unicode, r) {
        return Err(Refused::at(Fault::Unwritable, 0));
    }
    write_moved(unicode, r, s, out, profile)
}

pub fn to_unicode(s: &[u8], out: &mut [u8], profile: Profile) -> Verdict
    ensures answer { result ≡ to_unicode_answer profile s.now out.old }
    ensures output { out.new ≡ to_unicode_output profile s.now out.old }
    ensures numbers { Numbered result (to_unicode profile s.now (length out.old)) }
    ensures moves { MovesToUnicode profile s.now out.old result out.new }
{
    move_to(true, s, out, profile)
}

pub fn to_bytes(s: &[u8], out: &mut [u8], profile: Profile) -> Verdict
    ensures answer { result ≡ to_bytes_answer profile s.now out.old }
    ensures output { out.new ≡ to_bytes_output profile s.now out.old }
    ensures numbers { Numbered result (to_byte_strings profile s.now (length out.old)) }
    ensures moves { MovesToBytes profile s.now out.old result out.new }
{
    move_to(false, s, out, profile)
}
