// Blocks (FORMAT: Blocks): what stands where one is due, and the walks over them up to the terminal block.
#![tactic(auto)]

ghost use Rattle.std.specs.Prelude.{◌≡◌, true, ◌+◌, ◌≤◌, length, IfSome, SomeIff};
ghost use Rattle.format.specs.Tests.{spot_at};
ghost use Rattle.format.specs.Blocks.{slot_of, size_fits, path_tests, inside_tests};
ghost use Rattle.format.specs.Shortcut.{most};
ghost use Rattle.format.specs.Steps.Answers.{refusal};
ghost use Rattle.format.specs.Steps.Wrong.{wrong, held_fault};
ghost use Rattle.blocks.specs.Steps.Walk.{by_size, Stands, no_firsts, field_of, is_free, noted, Passed, NoMore, blocks_at, blocks_firsts, read_to, step_site, wrong_block, block_from, nth_block};

use format::{Fault, Place, Refusal};
use octets::Cursor;

// A block of so many bytes, with the slot of its signature.
#[derive(Clone, Copy)]
pub struct Block {
    pub len: usize,
    pub slot: usize,
}

// ---- one block

// The table's slots: 11 for a signature that it does not have, as in the definition.
#[tactic(auto, unfolding(format::specs::Blocks::slot_of))]
fn slot_of(signature: u32) -> usize
    ensures { result ≡ slot_of signature }
{
    match signature {
        0xA000_0001 => 0,
        0xA000_0002 => 1,
        0xA000_0003 => 2,
        0xA000_0004 => 3,
        0xA000_0005 => 4,
        0xA000_0006 => 5,
        0xA000_0007 => 6,
        0xA000_0008 => 7,
        0xA000_0009 => 8,
        0xA000_000B => 9,
        0xA000_000C => 10,
        _ => 11,
    }
}

// The table's sizes.
#[tactic(auto, unfolding(format::specs::Blocks::size_fits))]
fn size_ok(slot: usize, n: usize) -> bool
    ensures { result ≡ size_fits slot n }
{
    match slot {
        0 => n == 0x314,
        1 => n == 0xCC,
        2 => n == 0x60,
        3 => n == 0x0C,
        4 => n == 0x10,
        5 => n == 0x314,
        6 => n == 0x314,
        7 => 0x88 <= n,
        8 => 0x0C <= n,
        9 => n == 0x1C,
        10 => 0x0A <= n,
        _ => true,
    }
}

// The first text that does not end in its room: 260 bytes from 8 on, and as many units from 268 on.
fn path_wrong(b: &[u8]) -> Option<usize>
    requires { 0x314 ≤ length b.now }
    ensures is { result ≡ wrong (path_tests b.now) }
    ensures inside { IfSome result (λ i. i ≤ length b.now) }
{
    if !octets::has_zero(false, &b[8..268]) {
        return Some(8);
    }
    if !octets::has_zero(true, &b[268..788]) {
        return Some(268);
    }
    None
}

// The first field found wrong of what the block holds: two texts, or from byte 8 on a store or items. Most have no rule for
// it, and in the walk cost no call, hence the hint.
#[tactic(auto, using(crate::proofs::InsideLaws::holding), unfolding(format::specs::Blocks::slot_of, format::specs::Blocks::size_fits, format::specs::Blocks::inside_tests))]
#[inline(always)]
fn inside_wrong(slot: usize, b: &[u8]) -> Option<usize>
    requires { size_fits slot (length b.now) ≡ true }
    ensures is { result ≡ wrong (inside_tests slot b.now) }
    ensures inside { IfSome result (λ i. i ≤ length b.now) }
{
    match slot {
        0 | 5 | 6 => path_wrong(b),
        8 => storages::store_wrong(&b[8..], 8),
        10 => items::items_wrong(&b[8..], 8),
        _ => None,
    }
}

// Its fault: a store has its own.
#[tactic(auto, unfolding(format::specs::Steps::Wrong::held_fault, format::specs::Blocks::slot_of))]
fn held_fault(slot: usize) -> Fault
    ensures { result ≡ held_fault slot }
{
    if slot == 8 {
        return Fault::Store;
    }
    Fault::Block
}

// ---- the step

// What stands at the start of the rest, by its sizes: a block, or none but the terminal. What a block holds is not looked at.
#[tactic(auto, unfolding(crate::specs::Steps::Walk::by_size))]
#[inline(always)]
pub fn step(rest: &[u8]) -> Result<Option<Block>, Fault>
    ensures { result ≡ by_size rest.now }
{
    let left = rest.len();
    if left < 4 {
        return Err(Fault::Cut);
    }
    let len = octets::u32_at(rest, 0) as usize;
    if len < 8 {
        if len < 4 {
            return Ok(None);
        }
        return Err(Fault::Block);
    }
    if left < len {
        return Err(Fault::Cut);
    }
    let slot = slot_of(octets::u32_at(rest, 4));
    if !size_ok(slot, len) {
        return Err(Fault::Block);
    }
    Ok(Some(Block { len, slot }))
}

// The same, and a block is one only if what it holds is right.
#[tactic(auto, using(crate::proofs::StepLaws::judging))]
fn judged(rest: &[u8]) -> Result<Option<Block>, Fault>
    ensures { Stands rest.now result }
{
    let Some(b) = step(rest)? else {
        return Ok(None);
    };
    match inside_wrong(b.slot, &rest[..b.len]) {
        None => Ok(Some(b)),
        Some(_) => Err(held_fault(b.slot)),
    }
}

// ---- the walks

// Where the signature of the block at p stands, which is never 0; no shortcut reaches what is too far for the number.
fn field_of(p: usize) -> u32
    ensures { result ≡ field_of p }
{
    if p < 65536 { (p + 4) as u32 } else { 65540 }
}

// The block at p takes its slot, unless a block before it has done so; of signatures that are not known none is noted.
#[tactic(auto, unfolding(crate::specs::Steps::Walk::is_free, crate::specs::Steps::Walk::noted, crate::specs::Steps::Walk::taken))]
fn note(firsts: &mut [u32; 11], slot: usize, p: usize) -> bool
    ensures free { result ≡ is_free firsts.old slot }
    ensures row { firsts.new ≡ noted firsts.old slot (field_of p) }
{
    if 11 <= slot {
        return true;
    }
    if firsts[slot] != 0 {
        return false;
    }
    firsts[slot] = field_of(p);
    true
}

// Past all blocks from `start` on, up to what is no block or the second of its kind. It notes the first of each kind.
#[tactic(auto, using(crate::proofs::WalkLaws::walking))]
pub fn run(s: &[u8], start: usize, firsts: &mut [u32; 11]) -> usize
    requires { (start ≤ length s.now) × (firsts.old ≡ no_firsts) }
    ensures passed { Passed s.now start result firsts.new }
    ensures ended { NoMore s.now result firsts.new }
{
    let mut p = start;
    let mut rest = &s[start..];
    // No index is counted: the step is the size that stands there.
    while let Ok(Some(b)) = judged(rest)
        && note(firsts, b.slot, p)
    {
        p += b.len;
        rest = &rest[b.len..];
    }
    p
}

// The blocks from `start` to p, with the terminal block there.
fn read_to(start: usize, p: usize) -> Result<(Place, Cursor), Refusal>
    requires { (start ≤ p) × (p ≤ most) }
    ensures { result ≡ read_to start p }
{
    let body = Place {
        at: start,
        len: p - start,
    };
    Ok((body, Cursor { at: p + 4 }))
}

// After a refusal nothing is noted.
fn stopped(r: Refusal, firsts: &mut [u32; 11]) -> Result<(Place, Cursor), Refusal>
    ensures value { result ≡ Err r }
    ensures row { firsts.new ≡ no_firsts }
{
    *firsts = [0u32; 11];
    Err(r)
}

// Of what is due at p, with so many bytes left, the size is wrong: a block's, or the terminal's where no size is left.
fn size_wrong(fault: Fault, p: usize, left: usize) -> Refusal
    ensures { result ≡ refusal fault (spot_at (step_site p left) 0) }
{
    let section = if left < 4 { 9 } else { 8 };
    Refusal::at(fault, section, p, 0)
}

// A block whose sizes are right is refused for what it holds, or else as the second of its kind.
#[tactic(auto, unfolding(crate::specs::Steps::Walk::wrong_block))]
fn wrong_block(slot: usize, b: &[u8], p: usize) -> Refusal
    requires { (size_fits slot (length b.now) ≡ true) × (p + length b.now ≤ most) }
    ensures { result ≡ wrong_block slot b.now p }
{
    match inside_wrong(slot, b) {
        Some(field) => Refusal::at(held_fault(slot), 8, p, field),
        None => Refusal::at(Fault::Twice, 8, p, 4),
    }
}

// The blocks up to the terminal as a single body, with the cursor after it; or the fault and where it stands.
// The row gets for each slot where its signature first stands; 0 where it does not, and after a refusal. No signature stands at 0, and the definition `firsts` has it.
#[tactic(auto, using(crate::proofs::WalkLaws::ending))]
#[inline(always)]
pub fn blocks(s: &[u8], c: Cursor, firsts: &mut [u32; 11]) -> Result<(Place, Cursor), Refusal>
    requires small { length s.now ≤ most }
    requires row { firsts.old ≡ no_firsts }
    ensures answer { result ≡ blocks_at s.now c.at }
    ensures row { firsts.new ≡ blocks_firsts s.now c.at }
{
    let start = c.at;
    if s.len() < start {
        return stopped(size_wrong(Fault::Cut, start, 0), firsts);
    }
    let p = run(s, start, firsts);
    let rest = &s[p..];
    match step(rest) {
        Ok(None) => read_to(start, p),
        Ok(Some(b)) => stopped(wrong_block(b.slot, &rest[..b.len], p), firsts),
        Err(f) => stopped(size_wrong(f, p, rest.len()), firsts),
    }
}

// The block whose signature stands there; none for 0.
#[tactic(auto, unfolding(crate::specs::Steps::Walk::block_from))]
pub fn block_from(s: &[u8], field: u32) -> Option<Place>
    requires { field ≤ length s.now }
    ensures { SomeIff result (4 ≤ field) (block_from s.now field) }
{
    let at = (field as usize).checked_sub(4)?;
    Some(Place {
        at,
        len: octets::u32_at(s, at) as usize,
    })
}

// Where block number k stands, of those that start at `from`.
#[tactic(auto, using(crate::proofs::NthLaws::finding))]
pub fn nth_block(s: &[u8], from: usize, k: usize) -> Option<Place>
    ensures { result ≡ nth_block s.now from k }
{
    let mut at = from;
    let mut rest = s.get(from..)?;
    for _ in 0..k {
        let b = step(rest).ok()??;
        at += b.len;
        rest = &rest[b.len..];
    }
    let last = step(rest).ok()??;
    Some(Place { at, len: last.len })
}
