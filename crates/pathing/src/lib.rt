// A path block put into a record, and the shortcut that the record is then written as (FORMAT: Path block call).
#![tactic(auto)]

ghost use Rattle.std.specs.Prelude.{◌≡◌, cond, ◌+◌, ◌-◌, ◌≤◌, length};
ghost use Rattle.octets.specs.Numbers.{little};
ghost use Rattle.octets.specs.Parts.{put};
ghost use Rattle.format.specs.Numbers.{Numbered};
ghost use Rattle.format.specs.PathWriting.{is_path, path_text, path_block, path_writing, path_answer, path_output, PathEnds};
ghost use Rattle.pathing.specs.Steps.Places.{path_fits, Found};

use format::{Profile, Record, Verdict};

// ---- the block

// The three kinds that hold a path in two texts.
fn is_path(signature: u32) -> bool
    ensures { result ≡ is_path signature }
{
    (signature == 0xA000_0001) | (signature == 0xA000_0006) | (signature == 0xA000_0007)
}

// A byte short of 260 characters.
fn longest(unicode: bool) -> usize
    ensures { result ≡ cond unicode 519 259 }
{
    if unicode { 519 } else { 259 }
}

// Whole characters, none of them zero, and space for a terminator. What is too long is not looked at.
// The callers pass the kind as a constant: one function and two calls.
#[tactic(auto, using(crate::proofs::BlockLaws::text_long, crate::proofs::BlockLaws::text_short))]
fn path_text(unicode: bool, x: &[u8]) -> bool
    ensures { result ≡ path_text unicode x.now }
{
    x.len() <= longest(unicode) && writable::text_ok(unicode, x)
}

#[tactic(auto, unfolding(crate::specs::Steps::Places::path_fits))]
fn path_fits(signature: u32, text: &[u8], unicode: &[u8]) -> bool
    ensures { result ≡ path_fits signature text.now unicode.now }
{
    is_path(signature) & path_text(false, text) & path_text(true, unicode)
}

// All bytes that get nothing stay zero.
fn block_of(signature: u32, text: &[u8], unicode: &[u8]) -> [u8; 788]
    requires { (length text.now ≤ 260) × (length unicode.now ≤ 520) }
    ensures { result ≡ path_block signature text.now unicode.now }
{
    let mut b = [0u8; 788];
    octets::put_u32(&mut b, 0, 788);
    octets::put_u32(&mut b, 4, signature);
    copies::put_bytes(&mut b, 8, text);
    copies::put_bytes(&mut b, 268, unicode);
    b
}

// ---- where it goes

// Where a block of this signature goes in a body of whole blocks: over the first one that has it, or after the last block. It is asked before the blocks are tested, so it stops at what is no block.
#[tactic(auto, using(crate::proofs::WalkLaws::begins, crate::proofs::WalkLaws::found_end, crate::proofs::WalkLaws::found_here, crate::proofs::WalkLaws::found_small, crate::proofs::WalkLaws::found_past))]
fn place_of(x: &[u8], signature: u32) -> usize
    ensures { Found signature x.now result }
{
    let mut rest = x;
    // No index is counted: the step is the size that stands there.
    while 8 <= rest.len() {
        let size = octets::u32_at(rest, 0) as usize;
        if octets::u32_at(rest, 4) == signature || size < 8 || rest.len() < size {
            return x.len() - rest.len();
        }
        rest = &rest[size..];
    }
    x.len() - rest.len()
}

// How many bytes a body of n bytes gains by a block at this place: none where one is replaced. Where there is no such block, more than a shortcut has.
fn gained(fits: bool, n: usize, at: usize) -> usize
    requires { at ≤ n }
    ensures { result ≡ cond fits (at + 788 - n) 65537 }
{
    if fits {
        788usize.saturating_sub(n - at)
    } else {
        65537
    }
}

// The block over what stands at its place, and the terminal block after the last one.
fn put_over(out: &mut [u8], b: [u8; 788], at: usize, end: usize)
    requires { (at + 788 ≤ length out.old) × (end + 4 ≤ length out.old) }
    ensures { out.new ≡ put (put out.old at b) end (little 4 0) }
{
    copies::put_bytes(out, at, &b);
    octets::put_u32(out, end, 0);
}

// ---- the call

// The record is written as it is, with room for what the block adds, and the block over it: each body is copied once.
pub fn path_block(
    r: Record,
    d: &[u8],
    signature: u32,
    text: &[u8],
    unicode: &[u8],
    out: &mut [u8],
    profile: Profile,
) -> Verdict
    ensures answer { result ≡ path_answer profile r d.now signature text.now unicode.now out.old }
    ensures output { out.new ≡ path_output profile r d.now signature text.now unicode.now out.old }
    ensures numbers { Numbered result (path_writing profile r d.now signature text.now unicode.now (length out.old)) }
    ensures least { PathEnds profile r d.now signature text.now unicode.now out.old result out.new }
{
    let body = r.places[format::BLOCKS];
    let x = octets::part(d, body.at, body.len);
    let at = place_of(x, signature);
    let fits = path_fits(signature, text, unicode);
    let more = gained(fits, x.len(), at);
    let n = writer::write_leaving(r, d, more, out, profile)?;
    let b = block_of(signature, text, unicode);
    put_over(out, b, n - more - 4 - x.len() + at, n - 4);
    Ok(n)
}
