// Of a damaged shortcut the beginning that still reads, written with a terminal behind it (FORMAT: Salvage).
#![tactic(auto)]

ghost use Rattle.std.specs.Prelude.{◌≡◌, cond, ◌+◌, ◌≤◌, length};
ghost use Rattle.octets.specs.Parts.{put};
ghost use Rattle.format.specs.Numbers.{number_of, Numbered};
ghost use Rattle.format.specs.Salvage.{mendable, refused_by, rescue, rescued, salvaging, salvage_verdict, salvage_answer, salvage_output, SalvageEnds};

use format::{Fault, Profile, Refusal, Refused, Rescue, Salvaged};

// ---- what can be kept

// The first n bytes, which end with their own terminal block or get one.
fn keep(number: u8, n: usize, mended: bool) -> Rescue
    ensures { result ≡ record { number = number; kept = n; mended = mended } }
{
    Rescue {
        number,
        kept: n,
        mended,
    }
}

#[tactic(auto, using(crate::proofs::Laws::no_mend), unfolding(format::specs::Numbers::number_of))]
fn can_mend(f: Fault) -> bool
    ensures { result ≡ mendable (number_of f) }
{
    matches!(f, Fault::Cut | Fault::Block | Fault::Twice | Fault::Store)
}

// By the fault, the section at fault and its start.
#[tactic(auto, using(crate::proofs::Laws::by_trail, crate::proofs::Laws::by_mending, crate::proofs::Laws::by_nothing))]
fn refused_by(r: Refusal) -> Option<Rescue>
    requires { r.spot.start ≤ 65536 }
    ensures { result ≡ refused_by (number_of r.fault) r.spot.section r.spot.start }
{
    let number = format::number_of(r.fault);
    let section = r.spot.section;
    let start = r.spot.start;
    if matches!(r.fault, Fault::Trail) {
        return Some(keep(number, start + 4, false));
    }
    if can_mend(r.fault) & ((section == 8) | (section == 9)) {
        return Some(keep(number, start, true));
    }
    None
}

// What can be kept of the shortcut.
#[tactic(auto, using(crate::proofs::Laws::start_small, crate::proofs::Laws::of_accepted, crate::proofs::Laws::of_refused))]
fn rescue(s: &[u8]) -> Option<Rescue>
    ensures { result ≡ rescue s.now }
{
    match reader::fault(s, Profile::Strict) {
        Ok(n) => Some(keep(0, n, false)),
        Err(r) => refused_by(r),
    }
}

// ---- the call

// The result's length.
fn length_of(r: Rescue) -> usize
    requires { r.kept ≤ 65536 }
    ensures { result ≡ r.kept + cond r.mended 4 0 }
{
    if r.mended { r.kept + 4 } else { r.kept }
}

fn put_saved(s: &[u8], r: Rescue, out: &mut [u8])
    requires kept_in_bounds { r.kept ≤ length s.now }
    requires mended_in_bounds { r.kept + cond r.mended 4 0 ≤ length out.old }
    ensures { out.new ≡ put out.old 0 (rescued s.now r) }
{
    let kept = r.kept;
    copies::put_bytes(out, 0, &s[..kept]);
    if r.mended {
        octets::put_u32(out, kept, 0);
    }
}

pub fn salvage(s: &[u8], out: &mut [u8]) -> Result<Salvaged, Refused>
    ensures answer { result ≡ salvage_answer s.now out.old }
    ensures output { out.new ≡ salvage_output s.now out.old }
    ensures numbers { Numbered (salvage_verdict result) (salvaging s.now (length out.old)) }
    ensures saved { SalvageEnds s.now out.old result out.new }
{
    let Some(r) = rescue(s) else {
        return Err(Refused::at(Fault::Lost, 0));
    };
    let n = length_of(r);
    if n > 65536 {
        return Err(Refused::at(Fault::Lost, 0));
    }
    if n > out.len() {
        return Err(Refused::at(Fault::Room, 0));
    }
    put_saved(s, r, out);
    Ok(Salvaged {
        len: n,
        number: r.number,
        kept: r.kept,
        dropped: s.len() - r.kept,
    })
}
