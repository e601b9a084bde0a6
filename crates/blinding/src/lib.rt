// Where a shortcut can name its driver without its key telling it (FORMAT: Blind spots).
#![tactic(auto)]

ghost use Rattle.std.specs.Prelude.{◌≡◌, ◌+◌, ◌≤◌, cond, length, IfSome, unwrap_or};
ghost use Rattle.format.specs.Tests.{no_place};
ghost use Rattle.format.specs.Numbers.{Numbered};
ghost use Rattle.format.specs.Pieces.{text_length};
ghost use Rattle.format.specs.Contents.{bytes_at};
ghost use Rattle.format.specs.Key.{block_text};
ghost use Rattle.format.specs.PathWriting.{until_zero, unicode_text};
ghost use Rattle.format.specs.Blind.{could_name, other_twin, other_target, other_environment, has_values, key_blind, key_blind_answer};
ghost use Rattle.format.specs.StoreList.{block_rows};
ghost use Rattle.format.specs.Shortcut.{reading};
ghost use Rattle.reader.specs.Steps.Finish.{FirstsOf};
ghost use Rattle.storing.specs.Steps.Stored.{Holds};
ghost use Rattle.blinding.specs.Steps.Bits.{AllInside, PathBlock, names_in, first_twin, bits_in};

use format::{Place, Profile, Record, Verdict};
use reader::Outline;

// ---- the texts of the environment block

// Up to the first zero character; where there is none, all whole characters.
// The callers of `until_zero` pass the kind as a constant.
fn text_length(unicode: bool, s: &[u8]) -> usize
    ensures { (result ≡ text_length unicode s.now) × (result ≤ length s.now) }
{
    let width = 1 + usize::from(unicode);
    width * octets::zero_from(unicode, s, 0).unwrap_or(s.len() / width)
}

// The callers pass the kind as a constant: one function and two calls.
fn until_zero(unicode: bool, s: &[u8]) -> &[u8]
    ensures { result.now ≡ until_zero unicode s.now }
{
    let n = text_length(unicode, s);
    octets::part(s, 0, n)
}

fn byte_text(s: &[u8], b: Option<Place>) -> &[u8]
    requires { IfSome b (PathBlock s.now) }
    ensures { result.now ≡ block_text s.now (unwrap_or b no_place) }
{
    let Some(b) = b else {
        return &s[..0];
    };
    until_zero(false, octets::part(s, b.at + 8, 780))
}

fn unicode_text(s: &[u8], b: Option<Place>) -> &[u8]
    requires { IfSome b (PathBlock s.now) }
    ensures { result.now ≡ unicode_text (bytes_at s.now (unwrap_or b no_place)) }
{
    let Some(b) = b else {
        return &s[..0];
    };
    until_zero(true, octets::part(s, b.at + 268, 520))
}

// ---- the bits

// By its target text, or by the text of the environment block b.
fn names_driver(s: &[u8], r: Record, b: Option<Place>) -> bool
    requires { AllInside s.now r × IfSome b (PathBlock s.now) }
    ensures { result ≡ names_in s.now r (unwrap_or b no_place) }
{
    if byte_text(s, b).len() != 0 {
        return true;
    }
    if !target::has_target(r) {
        return false;
    }
    let t = target::texts_of(s, r);
    (t.first.len != 0) | t.separated | (t.suffix.len != 0)
}

fn could_name(r: Record) -> bool
    ensures { result ≡ could_name r }
{
    let f = r.header.flags;
    format::items_there(f) | format::relative_there(f) | format::info_there(f)
}

// Presence is a fact of the record, which has both places either way.
fn other_twin(s: &[u8], there: bool, text: Place, unicode: Place) -> bool
    requires { (text.at + text.len ≤ length s.now) × (unicode.at + unicode.len ≤ length s.now) }
    ensures { result ≡ other_twin there (bytes_at s.now text) (bytes_at s.now unicode) }
{
    if !there {
        return false;
    }
    let x = octets::part(s, text.at, text.len);
    let y = octets::part(s, unicode.at, unicode.len);
    !codepage::texts::is_translation(x, y)
}

// Of the local path, or of the net name where there is none.
fn other_first(s: &[u8], r: Record) -> bool
    requires { AllInside s.now r }
    ensures { result ≡ first_twin s.now r }
{
    let row = r.places;
    let i = r.link.flags;
    if format::local_there(i) {
        let there = format::local_unicode_there(r.link.long, i);
        return other_twin(s, there, row[format::LOCAL], row[format::LOCAL_UNICODE]);
    }
    other_twin(
        s,
        r.link.network_unicode,
        row[format::NET],
        row[format::NET_UNICODE],
    )
}

fn other_target(s: &[u8], r: Record) -> bool
    requires { AllInside s.now r }
    ensures { result ≡ other_target s.now r }
{
    if !target::has_target(r) {
        return false;
    }
    let row = r.places;
    other_first(s, r)
        | other_twin(
            s,
            r.link.long,
            row[format::SUFFIX],
            row[format::SUFFIX_UNICODE],
        )
}

fn other_environment(s: &[u8], b: Option<Place>) -> bool
    requires { IfSome b (PathBlock s.now) }
    ensures { result ≡ other_environment s.now (unwrap_or b no_place) }
{
    if b.is_none() {
        return false;
    }
    let text = byte_text(s, b);
    let unicode = unicode_text(s, b);
    !codepage::texts::is_translation(text, unicode)
}

fn store_has_values(s: &[u8], store: Option<Place>) -> bool
    requires { IfSome store (Holds s.now) }
    ensures { result ≡ has_values (block_rows s.now (unwrap_or store no_place)) }
{
    match store {
        Some(b) => storing::has_values(s, b),
        None => false,
    }
}

// The bound is in the contract, so that a caller's sum is seen to fit.
fn bit_if(set: bool, n: usize) -> usize
    ensures { (result ≡ cond set n 0) × (result ≤ n) }
{
    if set {
        return n;
    }
    0
}

// It adds up five tests.
fn bits_of(o: &Outline, firsts: &[u32; 11]) -> usize
    requires { FirstsOf o.now.s.now (reading o.now.profile o.now.s.now).held firsts.now }
    ensures { result ≡ bits_in o.now.profile o.now.s.now }
{
    let s = o.s;
    let r = o.record();
    let environment = blocks::block_from(s, firsts[0]);
    let darwin = blocks::block_from(s, firsts[5]);
    let store = blocks::block_from(s, firsts[8]);
    let items = blocks::block_from(s, firsts[10]);
    bit_if(!names_driver(s, r, environment) & could_name(r), 1)
        + bit_if(other_target(s, r), 2)
        + bit_if(other_environment(s, environment), 4)
        + bit_if(darwin.is_some() | items.is_some(), 8)
        + bit_if(store_has_values(s, store), 16)
}

// ---- the call

pub fn key_blind(s: &[u8], profile: Profile) -> Verdict
    ensures answer { result ≡ key_blind_answer profile s.now }
    ensures numbers { Numbered result (key_blind profile s.now) }
{
    let mut texts = [0u32; 9];
    let mut firsts = [0u32; 11];
    let ends = reader::outline_of(s, profile, &mut texts, &mut firsts)?;
    let o = Outline {
        s,
        profile,
        ends,
        texts: &texts,
    };
    Ok(bits_of(&o, &firsts))
}
