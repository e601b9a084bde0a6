// The cache key of a shortcut, into a lent buffer.
#![tactic(auto)]

ghost use Rattle.std.specs.Prelude.{◌≡◌, ◌+◌, ◌≤◌, ◌++◌, length};
ghost use Rattle.octets.specs.Numbers.{little};
ghost use Rattle.copies.specs.Steps.Writes.{HasRoom, Writes};
ghost use Rattle.format.specs.Key.{part_bytes, key_bytes, key, key_in, key_answer, key_output};
ghost use Rattle.format.specs.Numbers.{Numbered};
ghost use Rattle.format.specs.Shortcut.{most, reading};
ghost use Rattle.format.specs.Tests.{one_or_0};
ghost use Rattle.blocks.specs.Steps.Walk.{block_from};
ghost use Rattle.reader.specs.Steps.Finish.{FirstsOf};
ghost use Rattle.keying.specs.Steps.KeyParts.{target_part, target_shown, target_length, TargetStands, body_shown, body_length, BodyStands, TextOf, BlockAt, EnvironmentOf, key_shown, key_length, KeyStands};

use copies::output::Output;
use format::{Fault, Place, Profile, Refused, Verdict};
use reader::Outline;
use target::Texts;

// Where the four parts stand that are there: the target's texts, and three bodies. `unicode` is a flag of the file.
#[derive(Clone, Copy)]
struct KeyParts {
    unicode: bool,
    target: Option<Texts>,
    arguments: Option<Place>,
    workdir: Option<Place>,
    environment: Option<Place>,
}

// ---- where the parts stand

// From the block's byte 8 up to its zero.
fn block_text(s: &[u8], b: Place) -> Place
    requires { (b.at + b.len ≤ length s.now) × (8 ≤ b.len) }
    ensures { TextOf s.now b result }
{
    let block = octets::part(s, b.at, b.len);
    Place {
        at: b.at + 8,
        len: octets::zero_from(false, block, 8).unwrap_or(b.len - 8),
    }
}

// By the block, whatever flag bit 9 says. Its signature stands at the field; 0 where there is none: the field is a number of the row `firsts`.
fn environment(s: &[u8], field: u32) -> Option<Place>
    requires at { BlockAt s.now field }
    requires long { 4 ≤ field → 8 ≤ (block_from s.now field).len }
    ensures { EnvironmentOf s.now (block_from s.now field) result }
{
    let b = blocks::block_from(s, field)?;
    Some(block_text(s, b))
}

fn target_part(o: &Outline) -> Option<Texts>
    ensures { result ≡ target_part o.now.s.now (reading o.now.profile o.now.s.now).held }
{
    if target::targeted(o.flags(), o.link_flags()) {
        return Some(target::texts_in(o));
    }
    None
}

fn parts_of(o: &Outline, firsts: &[u32; 11]) -> KeyParts
    requires { FirstsOf o.now.s.now (reading o.now.profile o.now.s.now).held firsts.now }
    ensures shown { key_shown o.now.s.now result ≡ key_in o.now.profile o.now.s.now }
    ensures stands { KeyStands o.now.s.now result }
{
    let f = o.flags();
    KeyParts {
        unicode: format::strings_unicode(f),
        target: target_part(o),
        arguments: format::arguments_there(f).then_some(o.arguments()),
        workdir: format::workdir_there(f).then_some(o.workdir()),
        environment: environment(o.s, firsts[0]),
    }
}

// ---- their bytes

fn target_length(t: Option<Texts>) -> usize
    requires { target_length t ≤ 4294967295 }
    ensures { result ≡ target_length t }
{
    match t {
        Some(t) => 5 + target::texts_length(t),
        None => 5,
    }
}

fn body_length(b: Option<Place>) -> usize
    requires { body_length b ≤ 4294967295 }
    ensures { result ≡ body_length b }
{
    match b {
        Some(b) => 5 + b.len,
        None => 5,
    }
}

fn key_length(k: KeyParts) -> usize
    requires { key_length k ≤ 4294967295 }
    ensures { result ≡ key_length k }
{
    1 + target_length(k.target)
        + body_length(k.arguments)
        + body_length(k.workdir)
        + body_length(k.environment)
}

// The presence byte and the length. Presence is a fact of the part.
fn put_head(there: bool, n: usize, out: &mut Output)
    requires { (n ≤ 4294967295) × HasRoom out.old 5 }
    ensures { Writes out.old out.new (little 1 (one_or_0 there) ++ little 4 n) 5 }
{
    out.put_u8(format::one_or_0(there));
    out.put_u32(n as u32);
}

// Apart from a body, five lines each: one function for both wants a trait with three ghost members.
fn put_target(s: &[u8], t: Option<Texts>, out: &mut Output)
    requires { TargetStands s.now t × HasRoom out.old (target_length t) }
    ensures { Writes out.old out.new (part_bytes (target_shown s.now t)) (target_length t) }
{
    match t {
        Some(t) => {
            put_head(true, target::texts_length(t), out);
            target::put_texts(s, t, out);
        }
        None => put_head(false, 0, out),
    }
}

fn put_body(s: &[u8], b: Option<Place>, out: &mut Output)
    requires { BodyStands s.now b × HasRoom out.old (body_length b) }
    ensures { Writes out.old out.new (part_bytes (body_shown s.now b)) (body_length b) }
{
    match b {
        Some(b) => {
            put_head(true, b.len, out);
            target::put_body(s, b, out);
        }
        None => put_head(false, 0, out),
    }
}

fn put_key(s: &[u8], k: KeyParts, out: &mut Output)
    requires { KeyStands s.now k × HasRoom out.old (key_length k) }
    ensures { Writes out.old out.new (key_bytes (key_shown s.now k)) (key_length k) }
{
    out.put_u8(format::one_or_0(k.unicode));
    put_target(s, k.target, out);
    put_body(s, k.arguments, out);
    put_body(s, k.workdir, out);
    put_body(s, k.environment, out);
}

// ---- the call

pub fn key(s: &[u8], out: &mut [u8], profile: Profile) -> Verdict
    ensures answer { result ≡ key_answer profile s.now out.old }
    ensures output { out.new ≡ key_output profile s.now out.old }
    ensures numbers { Numbered result (key profile s.now (length out.old)) }
{
    let mut texts = [0u32; 9];
    let mut firsts = [0u32; 11];
    let ends = reader::outline_of(s, profile, &mut texts, &mut firsts)?;
    let o = Outline {
        s,
        profile,
        ends,
        texts: &texts,
    };
    let k = parts_of(&o, &firsts);
    let n = key_length(k);
    if out.len() < n {
        return Err(Refused::at(Fault::Room, 0));
    }
    let mut w = Output::new(out);
    put_key(s, k, &mut w);
    Ok(n)
}
