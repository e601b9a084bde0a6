// The pieces that LinkInfo's offsets lead to: strings, VolumeID and the network link, each read from its own part of the file (FORMAT: LinkInfo pieces, LinkInfo overlaps, VolumeID fields, Network link fields).
#![tactic(auto)]

ghost use Rattle.std.specs.Prelude.{◌≡◌, true, cond, [], ◌∷◌, ◌+◌, ◌≤◌, length, take, drop, ◌<◌, ◌^◌, IfOk, IfErr, IfSome, MatchResult};
ghost use Rattle.octets.specs.Numbers.{u32_at};
ghost use Rattle.octets.specs.Characters.{bytes_of};
ghost use Rattle.format.specs.Tests.{place, no_place};
ghost use Rattle.format.specs.Pieces.{absent_zero, uncut, apart, apart_tests};
ghost use Rattle.format.specs.Volume.{label_unicode, volume_fields};
ghost use Rattle.format.specs.Network.{network_unicode, network_head_tests, network_fields};
ghost use Rattle.format.specs.Steps.Wrong.{given};
ghost use Rattle.pieces.specs.Steps.Found.{EndSmall, field_if, text_found, end_at, OwnPart, placed, label_length, volume_in, volume_found, four_apart, six_apart, network_in, network_lengths, network_found};

use format::{Network, Place, Volume, demand};
use octets::Cursor;

// What an offset leads to, where it keeps the rules: the bytes that it takes, and how many of them its body has, or each of its bodies. Zeros where it is absent.
#[derive(Clone, Copy)]
pub struct Found<T> {
    pub span: Place,
    pub body: T,
}

// How many bytes the bodies of a network link's strings have.
#[derive(Clone, Copy)]
pub struct NetworkTexts {
    pub net: usize,
    pub device: usize,
    pub net_unicode: usize,
    pub device_unicode: usize,
}

const NO_TEXTS: NetworkTexts = NetworkTexts {
    net: 0,
    device: 0,
    net_unicode: 0,
    device_unicode: 0,
};

// What is absent takes no bytes.
fn absent<T>(body: T) -> Found<T>
    ensures { result ≡ record { span = no_place; body = body } }
{
    Found {
        span: format::NO_PLACE,
        body,
    }
}

// ---- numbers and flags

// A field that only some heads have, or 0: the offset of what is absent is 0 too, so one test serves both heads.
pub fn field(there: bool, l: &[u8], i: usize) -> usize
    requires { there ≡ true → i + 4 ≤ length l.now }
    ensures { result ≡ field_if there l.now i }
{
    if there {
        return octets::u32_at(l, i) as usize;
    }
    0
}

// An absent part has the offset 0.
pub fn absent_zero(present: bool, o: usize) -> bool
    ensures { result ≡ absent_zero present o }
{
    present | (o == 0)
}

// A field that ends here is not cut by the size, where it is there.
fn uncut(there: bool, end: usize, l: &[u8]) -> bool
    ensures { result ≡ uncut there end l.now }
{
    !there | (end <= l.len())
}

// ---- strings

// The one of `single` takes a count of 32 bits and asks nothing. `unicode`, here and below, is what the file says of a text.
fn bytes_of(unicode: bool, n: usize) -> usize
    requires { n ≤ 65536 }
    ensures { result ≡ bytes_of unicode n }
{
    if unicode { 2 * n } else { n }
}

// The string at the offset o of the part l, where it passes its tests.
// Who calls knows which field leads there: given the field to answer with, each string cost six instructions more.
#[tactic(auto, unfolding(crate::specs::Steps::Found::text_found))]
pub fn text_at(
    present: bool,
    unicode: bool,
    l: &[u8],
    head: usize,
    o: usize,
) -> Option<Found<usize>>
    requires { length l.now ≤ 65536 }
    ensures is { result ≡ text_found present unicode l.now head o }
    ensures small { IfSome result (λ t. EndSmall t.span) }
{
    if !present {
        return Some(absent(0));
    }
    if o < head {
        return None;
    }
    let p = octets::zero_at(unicode, l, o)?;
    let len = p - o;
    let end = bytes_of(unicode, 1);
    Some(Found {
        span: Place {
            at: o,
            len: len + end,
        },
        body: len,
    })
}

// The place of a body of so many bytes at the offset o of a part that starts at `start` in the file; the empty place where it is absent (FORMAT: Zeros).
pub fn body_at(present: bool, start: usize, o: usize, len: u32) -> Place
    requires { start + o ≤ 4295098367 }
    ensures { result ≡ cond present (place (start + o) len) no_place }
{
    if !present {
        return format::NO_PLACE;
    }
    Place {
        at: start + o,
        len: len as usize,
    }
}

// ---- no two pieces share a byte

fn apart(x: Place, y: Place) -> bool
    requires { EndSmall x × EndSmall y }
    ensures { result ≡ apart x y }
{
    (x.at + x.len <= y.at) | (y.at + y.len <= x.at)
}

// No piece shares a byte with that of an earlier field. LinkInfo and the network link both have their third and fourth at 20 and 24.
#[tactic(auto, unfolding(crate::specs::Steps::Found::four_apart))]
fn apart_four(second: usize, a: Place, b: Place, c: Place, d: Place) -> Result<(), usize>
    requires { EndSmall a × EndSmall b × EndSmall c × EndSmall d }
    ensures { result ≡ four_apart second a b c d }
{
    demand(apart(b, a), second)?;
    demand(apart(c, b) & apart(c, a), 20)?;
    demand(apart(d, c) & apart(d, b) & apart(d, a), 24)
}

// The same of LinkInfo's six.
#[tactic(auto, unfolding(crate::specs::Steps::Found::four_apart, crate::specs::Steps::Found::six_apart))]
pub fn apart_six(a: Place, b: Place, c: Place, d: Place, e: Place, f: Place) -> Result<(), usize>
    requires { EndSmall a × EndSmall b × EndSmall c × EndSmall d × EndSmall e × EndSmall f }
    ensures { result ≡ six_apart a b c d e f }
{
    apart_four(16, a, b, c, d)?;
    // The last two are absent with a short head: they end at 0, apart from every other.
    if (e.at + e.len == 0) & (f.at + f.len == 0) {
        return Ok(());
    }
    let e_apart = apart(e, d) & apart(e, c) & apart(e, b) & apart(e, a);
    let f_apart = apart(f, e) & apart(f, d) & apart(f, c) & apart(f, b) & apart(f, a);
    demand(e_apart, 28)?;
    demand(f_apart, 32)
}

// ---- structures

// A structure at the offset o, to which the field at i leads, says its size in its first four bytes: where it ends. Else the field, offset or size, that is wrong about that.
#[tactic(auto, using(crate::proofs::StructLaws::first_number, std::proofs::lemmas::Grind::common_steps))]
fn end_of(l: &[u8], head: usize, least: u32, i: usize, o: usize) -> Result<usize, usize>
    ensures { result ≡ end_at l.now head least i o }
{
    demand(head <= o, i)?;
    let c = Cursor { at: o };
    let (size, _) = c.take_u32(l).map_err(|_| i)?;
    let next = c.skip(l, size as usize).map_err(|_| i)?;
    demand(least <= size, o)?;
    Ok(next.at)
}

// Its offset, which the field at i holds, and its own part of l.
fn structure(l: &[u8], head: usize, least: u32, i: usize) -> Result<(usize, &[u8]), usize>
    requires { i + 4 ≤ length l.now }
    ensures { MatchResult result (λ r. OwnPart l.now head least i r.0 r.1.now) (λ wrong. end_at l.now head least i (u32_at l.now i) ≡ Err wrong) }
{
    let o = octets::u32_at(l, i) as usize;
    let e = end_of(l, head, least, i, o)?;
    Ok((o, &l[o..e]))
}

// What its own bytes v at the offset o say: the bytes that it takes with that, or the field at fault, counted from what holds it.
#[tactic(auto, unfolding(crate::specs::Steps::Found::placed))]
fn placed<T>(o: usize, v: &[u8], said: Result<T, usize>) -> Result<Found<T>, usize>
    requires inside { o + length v.now ≤ 65536 }
    requires fits { IfErr said (λ wrong. o + wrong < 2 ^ 64) }
    ensures is { result ≡ placed o (length v.now) said }
    ensures small { IfOk result (λ a. EndSmall a.span) }
{
    match said {
        Err(wrong) => Err(o + wrong),
        Ok(body) => Ok(Found {
            span: Place {
                at: o,
                len: v.len(),
            },
            body,
        }),
    }
}

// ---- VolumeID

// Where the offset field of the label stands.
fn label_field(unicode: bool) -> usize
    ensures { result ≡ cond unicode 16 12 }
{
    if unicode { 16 } else { 12 }
}

// How many bytes the label of VolumeID has, which is given as its own part of the file; or the first field that breaks a rule, counted from there.
#[tactic(auto, using(crate::proofs::VolumeLaws::volume_read, std::proofs::lemmas::Grind::common_steps))]
fn volume_in(v: &[u8]) -> Result<usize, usize>
    requires { (0x11 ≤ length v.now) × (length v.now ≤ 65536) }
    ensures { result ≡ volume_in v.now }
{
    demand(octets::u32_at(v, 4) <= 6, 4)?;
    let unicode = octets::u32_at(v, 12) == 0x14;
    demand(uncut(unicode, 0x14, v), 16)?;
    let i = label_field(unicode);
    let o = octets::u32_at(v, i) as usize;
    let least = format::label_least(unicode) as usize;
    let label = text_at(true, unicode, v, least, o).ok_or(i)?;
    Ok(label.body)
}

// VolumeID, to which the field at 12 of LinkInfo l leads; or the first field at fault, counted from LinkInfo's start.
#[tactic(auto, using(crate::proofs::VolumeLaws::volume_judged, std::proofs::lemmas::Grind::common_steps))]
pub fn volume(present: bool, l: &[u8], head: usize) -> Result<Found<usize>, usize>
    requires { (0x1C ≤ length l.now) × (length l.now ≤ 65536) }
    ensures is { result ≡ volume_found present l.now head }
    ensures small { IfOk result (λ a. EndSmall a.span) }
{
    if !present {
        return Ok(absent(0));
    }
    let (o, v) = structure(l, head, 0x11, 12)?;
    placed(o, v, volume_in(v))
}

// What a VolumeID that keeps the rules says; it starts at the place at, and its label has so many bytes.
pub fn volume_of(v: &[u8], at: usize, len: u32) -> Volume
    requires stands { (0x11 ≤ length v.now) × ((label_unicode v.now ≡ true → 0x14 ≤ length v.now) × (at ≤ 65536)) }
    requires label { len ≡ label_length v.now }
    ensures { result ≡ volume_fields at v.now }
{
    let unicode = octets::u32_at(v, 12) == 0x14;
    let o = octets::u32_at(v, label_field(unicode)) as usize;
    Volume {
        drive: octets::u32_at(v, 4),
        serial: octets::u32_at(v, 8),
        label: format::Label::of(unicode, body_at(true, at, o, len)),
    }
}

// ---- network link

// Its head keeps the rules, or the first field that breaks one; these tests come before those of its strings.
fn network_head_wrong(v: &[u8]) -> Result<(), usize>
    requires { 0x14 ≤ length v.now }
    ensures { result ≡ given (network_head_tests v.now) tt }
{
    let flags = octets::u32_at(v, 4);
    let name = octets::u32_at(v, 8);
    let unicode = 0x14 < name;
    demand(flags <= 3, 4)?;
    demand(0x14 <= name, 8)?;
    demand(uncut(unicode, 0x18, v), 20)?;
    demand(uncut(unicode, 0x1C, v), 24)?;
    let there = format::device_there(flags);
    demand(absent_zero(there, octets::u32_at(v, 12) as usize), 12)?;
    demand(absent_zero(there, field(unicode, v, 24)), 24)
}

// The strings of the network link, which is given as its own part of the file; or the first field that breaks a rule, counted from there.
#[tactic(auto, using(crate::proofs::NetworkLaws::network_read, std::proofs::lemmas::Grind::common_steps))]
fn network_in(v: &[u8]) -> Result<NetworkTexts, usize>
    requires { (0x14 ≤ length v.now) × (length v.now ≤ 65536) }
    ensures { result ≡ network_in v.now }
{
    network_head_wrong(v)?;
    let flags = octets::u32_at(v, 4);
    let name = octets::u32_at(v, 8) as usize;
    let device = format::device_there(flags);
    let unicode = 0x14 < name;
    let both = format::device_unicode_there(unicode, flags);
    let head = format::network_head(unicode) as usize;
    // All four are looked for before one can end the call: what stands after several tests looks so seldom reached to the compiler that it would not merge it.
    let a = text_at(true, false, v, head, name);
    let b = text_at(device, false, v, head, octets::u32_at(v, 12) as usize);
    let c = text_at(unicode, true, v, head, field(unicode, v, 20));
    let d = text_at(both, true, v, head, field(unicode, v, 24));
    let a = a.ok_or(8usize)?;
    let b = b.ok_or(12usize)?;
    let c = c.ok_or(20usize)?;
    let d = d.ok_or(24usize)?;
    apart_four(12, a.span, b.span, c.span, d.span)?;
    Ok(NetworkTexts {
        net: a.body,
        device: b.body,
        net_unicode: c.body,
        device_unicode: d.body,
    })
}

// The network link, to which the field at 20 of LinkInfo l leads; or the first field at fault, counted from LinkInfo's start.
#[tactic(auto, using(crate::proofs::NetworkLaws::network_judged, std::proofs::lemmas::Grind::common_steps))]
pub fn network(present: bool, l: &[u8], head: usize) -> Result<Found<NetworkTexts>, usize>
    requires { (0x1C ≤ length l.now) × (length l.now ≤ 65536) }
    ensures is { result ≡ network_found present l.now head }
    ensures small { IfOk result (λ a. EndSmall a.span) }
{
    if !present {
        return Ok(absent(NO_TEXTS));
    }
    let (o, v) = structure(l, head, 0x14, 20)?;
    placed(o, v, network_in(v))
}

// What a network link that keeps the rules says; it starts at the place at. The row has the lengths of LinkInfo's texts, those of the network link from the third on; it is lent (see info).
pub fn network_of(v: &[u8], at: usize, texts: &[u32; 9]) -> Network
    requires stands { (0x14 ≤ length v.now) × ((network_unicode v.now ≡ true → 0x1C ≤ length v.now) × (at ≤ 65536)) }
    requires lengths { take 4 (drop 2 texts.now) ≡ network_lengths (network_fields at v.now) }
    ensures { result ≡ network_fields at v.now }
{
    let flags = octets::u32_at(v, 4);
    let name = octets::u32_at(v, 8) as usize;
    let device = format::device_there(flags);
    let unicode = 0x14 < name;
    let both = format::device_unicode_there(unicode, flags);
    Network {
        flags,
        provider: format::number_if(format::provider_there(flags), octets::u32_at(v, 16)),
        unicode,
        net: body_at(true, at, name, texts[2]),
        device: body_at(device, at, octets::u32_at(v, 12) as usize, texts[3]),
        net_unicode: body_at(unicode, at, field(unicode, v, 20), texts[4]),
        device_unicode: body_at(both, at, field(unicode, v, 24), texts[5]),
    }
}
