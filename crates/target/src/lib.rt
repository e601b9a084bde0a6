// The target text of a shortcut, into a lent buffer.
#![tactic(auto)]

ghost use Rattle.std.specs.Prelude.{◌≡◌, true, ◌+◌, ◌≤◌, length, cond, []};
ghost use Rattle.copies.specs.Steps.Writes.{HasRoom, Writes};
ghost use Rattle.format.specs.Bodies.{place_in, suffix_slot};
ghost use Rattle.format.specs.Contents.{bytes_at};
ghost use Rattle.format.specs.Numbers.{Numbered};
ghost use Rattle.format.specs.Shortcut.{reading};
ghost use Rattle.format.specs.Tests.{one_or_0};
ghost use Rattle.format.specs.Target.{targeted, has_target, separated, backslash, target, target_answer, target_output};
ghost use Rattle.target.specs.Steps.Texts.{first_text, texts_of, Stands, texts_length, texts_bytes};

use copies::output::Output;
use format::{Fault, Place, Profile, Record, Refused, Verdict};
use reader::Outline;

// The two texts, and whether a separator stands between them.
#[derive(Clone, Copy)]
pub struct Texts {
    pub first: Place,
    pub separated: bool,
    pub suffix: Place,
}

// By LinkFlags and LinkInfo's flags.
pub fn targeted(f: u32, i: u32) -> bool
    ensures { result ≡ targeted f i }
{
    !format::bit::<8>(f)
        & format::info_there(f)
        & (format::local_there(i) | format::network_there(i))
}

pub fn has_target(r: Record) -> bool
    ensures { result ≡ has_target r }
{
    targeted(r.header.flags, r.link.flags)
}

// The local path, or the net name where there is none.
fn first_text(r: Record) -> Place
    ensures { result ≡ first_text r }
{
    let row = r.places;
    if format::local_there(r.link.flags) {
        return row[format::LOCAL];
    }
    row[format::NET]
}

// Only the end of the first text is looked at.
fn separated(s: &[u8], a: Place, b: Place) -> bool
    requires { (a.at + a.len ≤ length s.now) × (b.at + b.len ≤ length s.now) }
    ensures { result ≡ separated (bytes_at s.now a) (bytes_at s.now b) }
{
    if b.len == 0 {
        return false;
    }
    if a.len == 0 {
        return false;
    }
    s[a.at + a.len - 1] != 0x5C
}

pub fn texts_of(s: &[u8], r: Record) -> Texts
    requires stands { ((first_text r).at + (first_text r).len ≤ length s.now)
        × ((place_in r suffix_slot).at + (place_in r suffix_slot).len ≤ length s.now) }
    ensures { result ≡ texts_of s.now r }
{
    let first = first_text(r);
    let row = r.places;
    let suffix = row[format::SUFFIX];
    Texts {
        first,
        separated: separated(s, first, suffix),
        suffix,
    }
}

// The same of an accepted shortcut.
pub fn texts_in(o: &Outline) -> Texts
    requires { has_target (reading o.now.profile o.now.s.now).held ≡ true }
    ensures { result ≡ texts_of o.now.s.now (reading o.now.profile o.now.s.now).held }
{
    let first = o.first_text();
    let suffix = o.suffix_text();
    Texts {
        first,
        separated: separated(o.s, first, suffix),
        suffix,
    }
}

// How many bytes they have together.
pub fn texts_length(t: Texts) -> usize
    requires { texts_length t ≤ 4294967295 }
    ensures { result ≡ texts_length t }
{
    t.first.len + usize::from(t.separated) + t.suffix.len
}

// The body that stands at b.
pub fn put_body(s: &[u8], b: Place, out: &mut Output)
    requires { (b.at + b.len ≤ length s.now) × HasRoom out.old b.len }
    ensures { Writes out.old out.new (bytes_at s.now b) b.len }
{
    let from = b.at;
    let end = from + b.len;
    out.put_bytes(&s[from..end]);
}

// Whether there is one is a fact of the texts.
fn put_separator(there: bool, out: &mut Output)
    requires { HasRoom out.old (one_or_0 there) }
    ensures { Writes out.old out.new (cond there backslash []) (one_or_0 there) }
{
    if there {
        out.put_bytes(b"\\");
    }
}

pub fn put_texts(s: &[u8], t: Texts, out: &mut Output)
    requires { Stands s.now t × HasRoom out.old (texts_length t) }
    ensures { Writes out.old out.new (texts_bytes s.now t) (texts_length t) }
{
    put_body(s, t.first, out);
    put_separator(t.separated, out);
    // Most targets are one text.
    if t.suffix.len != 0 {
        put_body(s, t.suffix, out);
    }
}

pub fn target(s: &[u8], out: &mut [u8], profile: Profile) -> Verdict
    ensures answer { result ≡ target_answer profile s.now out.old }
    ensures output { out.new ≡ target_output profile s.now out.old }
    ensures numbers { Numbered result (target profile s.now (length out.old)) }
{
    let mut texts = [0u32; 9];
    let mut firsts = [0u32; 11];
    let o = reader::outline_of(s, profile, &mut texts, &mut firsts);
    let Ok(ends) = o else {
        return reader::verdict_of(s, o);
    };
    let whole = Outline {
        s,
        profile,
        ends,
        texts: &texts,
    };
    if !targeted(whole.flags(), whole.link_flags()) {
        return Err(Refused::at(Fault::NoTarget, 0));
    }
    let t = texts_in(&whole);
    let n = texts_length(t);
    if out.len() < n {
        return Err(Refused::at(Fault::Room, 0));
    }
    let mut w = Output::new(out);
    put_texts(s, t, &mut w);
    Ok(n)
}
