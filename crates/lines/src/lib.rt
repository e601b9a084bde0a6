// What the programs write: each text is put into a lent buffer piece by piece, and the pieces are written as they are.
#![tactic(auto)]

mod rows;
mod window;

ghost use Rattle.std.specs.Prelude.{◌≡◌, ◌≤◌, ℕ, List, length};
ghost use Rattle.octets.specs.Parts.{put};
ghost use Rattle.lines.specs.Text.{verdict_line, listing_text, key_text, piece};
ghost use Rattle.lines.specs.Steps.Pieces.{PiecesOf};

use crate::window::Window;
use format::{Profile, Refused, Verdict};
use reader::Outline;
use std::env::{Env, FillError};

// The line of a verdict, from its place `from` on; answers how many bytes it put, as the two below do.
pub fn put_verdict(v: Verdict, from: usize, out: &mut [u8]) -> usize
    ensures answer { result ≡ length (piece (verdict_line v) from (length out.old)) }
    ensures output { out.new ≡ put out.old 0 (piece (verdict_line v) from (length out.old)) }
{
    let mut w = Window::new(out, from);
    w.verdict(v);
    w.filled()
}

// The listing.
pub fn put_listing(s: &[u8], from: usize, out: &mut [u8], profile: Profile) -> usize
    ensures answer { result ≡ length (piece (listing_text profile s.now) from (length out.old)) }
    ensures output { out.new ≡ put out.old 0 (piece (listing_text profile s.now) from (length out.old)) }
{
    let mut texts = [0u32; 9];
    let mut firsts = [0u32; 11];
    let o = reader::outline_of(s, profile, &mut texts, &mut firsts);
    let mut w = Window::new(out, from);
    w.verdict(reader::verdict_of(s, o));
    let Ok(ends) = o else {
        return w.filled();
    };
    let outline = Outline {
        s,
        profile,
        ends,
        texts: &texts,
    };
    w.sections(outline.flags(), ends);
    w.blocks(s, ends.icon);
    w.filled()
}

// The key's line.
pub fn put_key_line(s: &[u8], from: usize, out: &mut [u8], profile: Profile) -> usize
    ensures answer { result ≡ length (piece (key_text profile s.now) from (length out.old)) }
    ensures output { out.new ≡ put out.old 0 (piece (key_text profile s.now) from (length out.old)) }
{
    // A key is never longer than its shortcut.
    let mut bytes = [0u8; 65536];
    let v = keying::key(s, &mut bytes, profile);
    let mut w = Window::new(out, from);
    let Ok(n) = v else {
        w.verdict(v);
        return w.filled();
    };
    w.hex(octets::part(&bytes, 0, n));
    w.show(b"\n");
    w.filled()
}

// ---- written on standard output

// In pieces of 64 KiB: the first that does not fill the buffer is the last. Answers how many bytes they have together.
// Merged into its callers, it would clear its buffer once more, and where one writes two texts both buffers would be on the stack.
#[inline(never)]
fn write_text<F: Fn(&[u8], usize, &mut [u8], Profile) -> usize>(
    put: F,
    s: &[u8],
    profile: Profile,
) -> usize
    requires callable { F.IsAlwaysCallable put }
    requires text { (text : List ℕ) × (length text ≤ 524288) × PiecesOf (F.post put) s.now profile text }
    ensures { (text : List ℕ) → PiecesOf (F.post put) s.now profile text → result ≡ length text }
{
    let mut out = [0u8; 65536];
    let mut from = 0;
    // It ends in the middle: the last piece is written too.
    loop {
        let n = put(s, from, &mut out, profile);
        io::write_all(1, octets::part(&out, 0, n));
        let last = n < 65536;
        if last {
            return from + n;
        }
        from += n;
    }
}

pub fn listing(s: &[u8], profile: Profile) {
    write_text(put_listing, s, profile);
}

pub fn key_line(s: &[u8], profile: Profile) {
    write_text(put_key_line, s, profile);
}

// ---- the program's arguments

fn says_95(rt: &impl Env) -> bool {
    let mut word = [0u8; 3];
    let Ok(n) = rt.arg(1, &mut word) else {
        return false;
    };
    (n == 2) & (word[0] == b'9') & (word[1] == b'5')
}

// Strict, unless the program's first argument is 95.
pub fn profile_asked(rt: &impl Env) -> Profile {
    if says_95(rt) {
        return Profile::NinetyFive;
    }
    Profile::Strict
}

// One that is longer than the word is there too.
fn has_argument(rt: &impl Env, number: usize) -> bool {
    let mut word = [0u8; 3];
    !matches!(rt.arg(number, &mut word), Err(FillError::NotPresent))
}

// Whether there are other arguments than 95 alone: then it says so, and writes the refusal that C answers.
pub fn wrong_words(rt: &impl Env) -> bool {
    if !has_argument(rt, 1) {
        return false;
    }
    if !has_argument(rt, 2) & says_95(rt) {
        return false;
    }
    io::write_all(2, b"the only argument is 95, for shortcuts of Windows 95\n");
    io::write_all(1, b"refused 203 0\n");
    true
}

// A line is never longer than the buffer.
pub fn refused_line(r: Refused) {
    let mut out = [0u8; 64];
    let n = put_verdict(Err(r), 0, &mut out);
    io::write_all(1, octets::part(&out, 0, n));
}
