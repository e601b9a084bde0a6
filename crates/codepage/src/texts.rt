// Texts translated both ways, and whether they can be. A function that puts answers the place after what it put.
ghost use Rattle.std.specs.Prelude.{◌≡◌, true, ◌+◌, ◌*◌, ◌/◌, ◌≤◌, length};
ghost use Rattle.octets.specs.Steps.Puts.{Wrote};
ghost use Rattle.format.specs.Codepage.{to_units, all_assigned, to_bytes, all_in_table, is_translation};

#[tactic(auto, using(crate::proofs::TextLaws::assigned_each, crate::proofs::TextLaws::assigned_one), unfolding(format::specs::Codepage::windows1252))]
pub fn all_assigned(x: &[u8]) -> bool
    ensures { result ≡ all_assigned x.now }
{
    let units = crate::UNITS;
    for b in x {
        if crate::assigned(&units, *b).is_none() {
            return false;
        }
    }
    true
}

#[tactic(auto, using(crate::proofs::TextLaws::known_each, crate::proofs::TextLaws::known_one), unfolding(format::specs::Codepage::windows1252, crate::specs::Steps::Candidates::by_remainder))]
pub fn all_in_table(x: &[u8]) -> bool
    ensures { result ≡ all_in_table x.now }
{
    let units = crate::UNITS;
    let bytes = crate::BYTES;
    // `all` and chunks cost 12 to 39 per cent more.
    for k in 0..x.len() / 2 {
        if crate::byte_of(&units, &bytes, octets::u16_at(x, 2 * k)).is_none() {
            return false;
        }
    }
    true
}

// Whether y is the translation of the byte text x.
#[tactic(auto, using(crate::proofs::TextLaws::translation_each, crate::proofs::TextLaws::translation_one, crate::proofs::TextLaws::translation_long), unfolding(format::specs::Codepage::windows1252))]
pub fn is_translation(x: &[u8], y: &[u8]) -> bool
    ensures { result ≡ is_translation x.now y.now }
{
    if y.len() % 2 != 0 || y.len() / 2 != x.len() {
        return false;
    }
    let units = crate::UNITS;
    for (k, b) in x.iter().enumerate() {
        if crate::assigned(&units, *b) != Some(octets::u16_at(y, 2 * k)) {
            return false;
        }
    }
    true
}

// A byte text as Unicode. The place is the loop's own number: where an output keeps it, each character costs five instructions more.
pub fn put_units(out: &mut [u8], at: usize, x: &[u8]) -> usize
    requires { at + 2 * length x.now ≤ length out.old }
    ensures written { Wrote out.old at
        (to_units x.now)
        (2 * length x.now) out.new result }
{
    let units = crate::UNITS;
    for (k, b) in x.iter().enumerate() {
        octets::put_u16(out, at + 2 * k, crate::unit_of(&units, *b));
    }
    at + 2 * x.len()
}

// A Unicode text as bytes. Its units are all in the table, so that a candidate need not be looked at again. The place is as in `put_units`.
pub fn put_bytes(out: &mut [u8], at: usize, x: &[u8]) -> usize
    requires known { all_in_table x.now ≡ true }
    requires room { at + length x.now / 2 ≤ length out.old }
    ensures written { Wrote out.old at
        (to_bytes x.now)
        (length x.now / 2) out.new result }
{
    let bytes = crate::BYTES;
    let n = x.len() / 2;
    for k in 0..n {
        out[at + k] = crate::candidate(&bytes, octets::u16_at(x, 2 * k));
    }
    at + n
}
