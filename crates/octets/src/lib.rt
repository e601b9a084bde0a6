// Bytes: numbers at a place, the cursor, scans for a zero, parts, and numbers put into a lent buffer.
#![tactic(auto)]

mod zeros;

ghost use Rattle.std.specs.Prelude.{◌≡◌, true, false, ◌+◌, ◌≤◌, ◌<◌, length, take, drop, MatchOption, IfSome};
ghost use Rattle.octets.specs.Numbers.{u16_at, u32_at, u64_at, little};
ghost use Rattle.octets.specs.Characters.{bytes_of, characters, has_zero};
ghost use Rattle.octets.specs.Steps.Scans.{zero_at, zero_from, FirstZero};
ghost use Rattle.octets.specs.Steps.Cursors.{taken, skipped};
ghost use Rattle.octets.specs.Parts.{put};
ghost use Rattle.octets.specs.Steps.Puts.{part};

use crate::zeros::{Byte, Unit, first_zero};

// Where reading stands. It goes by value and comes back with each answer.
#[derive(Clone, Copy)]
pub struct Cursor {
    pub at: usize,
}

// W bytes, a number that the compiler knows, so that it makes one load of them.
fn bytes_at<const W: usize>(s: &[u8], i: usize) -> [u8; W]
    requires { i + W ≤ length s.now }
    ensures { result ≡ take W (drop i s.now) }
{
    *s[i..i + W].as_array().unwrap()
}

// A function for each width: a trait of widths would have the same three bodies.
pub fn u16_at(s: &[u8], i: usize) -> u16
    requires { i + 2 ≤ length s.now }
    ensures { result ≡ u16_at s.now i }
{
    u16::from_le_bytes(bytes_at::<2>(s, i))
}

pub fn u32_at(s: &[u8], i: usize) -> u32
    requires { i + 4 ≤ length s.now }
    ensures { result ≡ u32_at s.now i }
{
    u32::from_le_bytes(bytes_at::<4>(s, i))
}

pub fn u64_at(s: &[u8], i: usize) -> u64
    requires { i + 8 ≤ length s.now }
    ensures { result ≡ u64_at s.now i }
{
    u64::from_le_bytes(bytes_at::<8>(s, i))
}

// The n bytes from `at` on, where they stand. No sum is made that could wrap.
// The last place where they can is looked at and not what the library's `get` cuts, so that a caller's own test of the length takes this one in.
fn stands(s: &[u8], at: usize, n: usize) -> Option<&[u8]>
    ensures { MatchOption result (length s.now < at + n) (λ p. (at + n ≤ length s.now) × (p.now ≡ take n (drop at s.now))) }
{
    let last = s.len().checked_sub(n)?;
    if last < at {
        return None;
    }
    Some(&s[at..at + n])
}

impl Cursor {
    pub fn new(at: usize) -> Self
        ensures { result ≡ record { at = at } }
    {
        Cursor { at }
    }

    // Past n bytes, where they stand.
    fn past(self, s: &[u8], n: usize) -> Option<Cursor>
        ensures { MatchOption result (length s.now < self.at + n) (λ c. (self.at + n ≤ length s.now) × (c.at ≡ self.at + n)) }
    {
        stands(s, self.at, n)?;
        Some(Cursor { at: self.at + n })
    }

    pub fn take_u16(self, s: &[u8]) -> Result<(u32, Cursor), Cursor>
        ensures { result ≡ taken 2 s.now self.at }
    {
        let Some(next) = self.past(s, 2) else {
            return Err(self);
        };
        Ok((u16_at(s, self.at) as u32, next))
    }

    pub fn take_u32(self, s: &[u8]) -> Result<(u32, Cursor), Cursor>
        ensures { result ≡ taken 4 s.now self.at }
    {
        let Some(next) = self.past(s, 4) else {
            return Err(self);
        };
        Ok((u32_at(s, self.at), next))
    }

    pub fn skip(self, s: &[u8], n: usize) -> Result<Cursor, Cursor>
        ensures { result ≡ skipped s.now self.at n }
    {
        self.past(s, n).ok_or(self)
    }
}

// Where the first zero character from `from` on stands. Units are counted from the place itself. The kind is a flag of the file.
// Merged into its callers, which mostly know the kind; the two scans are not.
#[inline(always)]
pub fn zero_at(unicode: bool, s: &[u8], from: usize) -> Option<usize>
    ensures is { result ≡ zero_at unicode s.now from }
    ensures found { MatchOption result (has_zero (characters unicode (drop from s.now)) ≡ false) (FirstZero unicode s.now from) }
{
    if s.len() < from {
        return None;
    }
    let t = &s[from..];
    if unicode {
        return Some(from + 2 * first_zero::<Unit>(t)?);
    }
    Some(from + first_zero::<Byte>(t)?)
}

// How many characters stand before it.
pub fn zero_from(unicode: bool, s: &[u8], from: usize) -> Option<usize>
    ensures is { result ≡ zero_from unicode s.now from }
    ensures inside { IfSome result (λ n. from + bytes_of unicode n ≤ length s.now) }
{
    let p = zero_at(unicode, s, from)?;
    if unicode {
        return Some((p - from) / 2);
    }
    Some(p - from)
}

pub fn has_zero(unicode: bool, s: &[u8]) -> bool
    ensures { result ≡ has_zero (characters unicode s.now) }
{
    zero_at(unicode, s, 0).is_some()
}

// The empty part where the bytes do not stand there, so that no caller has to test first.
#[tactic(auto, unfolding(crate::specs::Steps::Puts::part))]
pub fn part(s: &[u8], at: usize, n: usize) -> &[u8]
    ensures { result.now ≡ part s.now at n }
{
    match stands(s, at, n) {
        Some(p) => p,
        None => &s[..0],
    }
}

fn put_array<const W: usize>(out: &mut [u8], at: usize, bytes: [u8; W])
    requires { at + W ≤ length out.old }
    ensures { out.new ≡ put out.old at bytes.entry }
{
    out[at..at + W].copy_from_slice(&bytes);
}

// A function for each width, as for reading.
pub fn put_u16(out: &mut [u8], at: usize, n: u16)
    requires { at + 2 ≤ length out.old }
    ensures { out.new ≡ put out.old at (little 2 n) }
{
    put_array::<2>(out, at, n.to_le_bytes());
}

pub fn put_u32(out: &mut [u8], at: usize, n: u32)
    requires { at + 4 ≤ length out.old }
    ensures { out.new ≡ put out.old at (little 4 n) }
{
    put_array::<4>(out, at, n.to_le_bytes());
}

pub fn put_u64(out: &mut [u8], at: usize, n: u64)
    requires { at + 8 ≤ length out.old }
    ensures { out.new ≡ put out.old at (little 8 n) }
{
    put_array::<8>(out, at, n.to_le_bytes());
}
