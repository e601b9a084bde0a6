// Writes a record and the bytes of its bodies as the shortest shortcut that reads as the record.
#![tactic(auto)]

ghost use Rattle.std.specs.Prelude.{◌≡◌, length};
ghost use Rattle.format.specs.Numbers.{Numbered};
ghost use Rattle.format.specs.Shortcut.{verdict_of};
ghost use Rattle.format.specs.Writing.{writing, output_of, write_answer, write_output};
ghost use Rattle.format.specs.Demands.{Ends};
ghost use Rattle.format.specs.Steps.Shape.{shape_of};
ghost use Rattle.writer.specs.Steps.Leaving.{measured, leaving};

use format::{Fault, Profile, Record, Refused, Shape, Verdict};

// How long the shortcut of a record will be, with the bytes for which room is left, and the sizes of its slots.
#[derive(Clone, Copy)]
struct Measured {
    len: usize,
    sizes: [u32; 17],
}

// Or why the record is not written.
// A record can be written only if it is no longer than the most, so the difference does not wrap.
#[tactic(auto, using(writable::proofs::WholeLaws::writable_few))]
#[inline(always)]
fn measure(
    r: Record,
    s: Shape,
    d: &[u8],
    more: usize,
    room: usize,
    profile: Profile,
) -> Result<Measured, Fault>
    requires { s ≡ shape_of r.header.flags r.link }
    ensures { result ≡ measured profile r d.now more room }
{
    if !writable::placed(r, s, d.len()) {
        return Err(Fault::Place);
    }
    let sizes = sizes::sizes_of(r, s);
    let end = sizes::end_of(r, sizes);
    if !writable::writable(r, s, end, d, profile) {
        return Err(Fault::Unwritable);
    }
    if 65536 - (end as usize) < more {
        return Err(Fault::Unwritable);
    }
    let n = end as usize + more;
    if room < n {
        return Err(Fault::Room);
    }
    Ok(Measured { len: n, sizes })
}

// Every call that writes a record goes through here: with a second caller of the parts, the compiler would merge them into neither.
pub fn write_leaving(r: Record, d: &[u8], more: usize, out: &mut [u8], profile: Profile) -> Verdict
    ensures answer { result ≡ verdict_of (leaving profile r d.now more (length out.old)) }
    ensures output { out.new ≡ output_of (leaving profile r d.now more (length out.old)) out.old }
{
    let s = format::shape_of(r.header.flags, r.link);
    match measure(r, s, d, more, out.len(), profile) {
        Ok(m) => {
            canonical::put_canonical(out, r, s, m.sizes, d);
            Ok(m.len)
        }
        Err(fault) => Err(Refused::at(fault, 0)),
    }
}

pub fn write(r: Record, d: &[u8], out: &mut [u8], profile: Profile) -> Verdict
    ensures answer { result ≡ write_answer profile r d.now out.old }
    ensures output { out.new ≡ write_output profile r d.now out.old }
    ensures numbers { Numbered result (writing profile r d.now (length out.old)) }
    ensures least { Ends profile r d.now out.old result out.new }
{
    write_leaving(r, d, 0, out, profile)
}
