// LinkInfo, read from its own part of the file (FORMAT: LinkInfo).
#![tactic(auto)]

ghost use Rattle.std.specs.Prelude.{◌≡◌, true, cond, ◌||◌, ◌+◌, ◌≤◌, ◌<◌, length, slice_index, replicate, IfOk, MatchResult};
ghost use Rattle.octets.specs.Numbers.{u32_at};
ghost use Rattle.format.specs.declared.Profile.{Profile};
ghost use Rattle.format.specs.Tests.{place, no_place};
ghost use Rattle.format.specs.Info.{head_ok, info_head, has_local, has_network, info_head_tests, info_fields};
ghost use Rattle.format.specs.Steps.Wrong.{given};
ghost use Rattle.pieces.specs.Steps.Found.{EndSmall};
ghost use Rattle.info.specs.Steps.Found.{ignores_leftovers, no_lengths, text_lengths, lengths_after, earlier_in, later_in, pieces_in};
ghost use Rattle.info.specs.Steps.Taken.{OwnPart, InfoAnswer, info_at, info_held};
ghost use Rattle.info.specs.Steps.Putting.{Right, info_part, with_local, with_network, with_long};

use fields::put_place;
use format::{Fault, Place, Profile, Refusal, demand};
use octets::Cursor;
use pieces::{
    Found, NetworkTexts, absent_zero, apart_six, body_at, field, network, network_of, text_at,
    volume, volume_of,
};

// ---- whether it is right

// Whether the offset fields of absent parts are not looked at.
#[tactic(auto, unfolding(crate::specs::Steps::Found::ignores_leftovers))]
fn ignores_leftovers(profile: Profile) -> bool
    ensures { result ≡ ignores_leftovers profile }
{
    match profile {
        Profile::Strict => false,
        Profile::NinetyFive => true,
    }
}

// Its fixed head keeps the rules, or the first field that breaks one; these tests come before those of its pieces.
#[tactic(auto, using(crate::proofs::InfoLaws::leftovers, std::proofs::lemmas::Grind::common_steps))]
fn info_head_wrong(l: &[u8], profile: Profile) -> Result<(), usize>
    requires { 0x1C ≤ length l.now }
    ensures { result ≡ given (info_head_tests profile l.now) tt }
{
    let head = octets::u32_at(l, 4) as usize;
    let long = 0x24 <= head;
    demand((head == 0x1C) | (long & (head <= l.len())), 4)?;
    let flags = octets::u32_at(l, 8);
    demand(flags <= 3, 8)?;
    let ignored = ignores_leftovers(profile);
    let local = format::local_there(flags) | ignored;
    demand(absent_zero(local, octets::u32_at(l, 12) as usize), 12)?;
    demand(absent_zero(local, octets::u32_at(l, 16) as usize), 16)?;
    let network = format::network_there(flags) | ignored;
    demand(absent_zero(network, octets::u32_at(l, 20) as usize), 20)?;
    demand(absent_zero(local, field(long, l, 28)), 28)
}

// The first three pieces, or the first field at fault of these.
// Six tests one after another, each of which can end the call, would look so seldom reached to the compiler that it would not merge what they call.
#[tactic(auto, using(crate::proofs::InfoLaws::earlier_read, std::proofs::lemmas::Grind::common_steps))]
fn earlier_pieces(
    l: &[u8],
    head: usize,
) -> Result<(Found<usize>, Found<usize>, Found<NetworkTexts>), usize>
    requires { (0x1C ≤ length l.now) × ((length l.now ≤ 65536) × (head ≡ info_head l.now)) }
    ensures is { result ≡ earlier_in l.now }
    ensures small { IfOk result (λ t. EndSmall t.0.span × EndSmall t.1.span × EndSmall t.2.span) }
{
    let flags = octets::u32_at(l, 8);
    let there = format::local_there(flags);
    let a = volume(there, l, head)?;
    let b = text_at(there, false, l, head, octets::u32_at(l, 16) as usize).ok_or(16usize)?;
    let c = network(format::network_there(flags), l, head)?;
    Ok((a, b, c))
}

// The suffix and the Unicode pieces.
#[tactic(auto, using(crate::proofs::InfoLaws::later_read, std::proofs::lemmas::Grind::common_steps))]
fn later_pieces(l: &[u8], head: usize) -> Result<(Found<usize>, Found<usize>, Found<usize>), usize>
    requires { (0x1C ≤ length l.now) × ((length l.now ≤ 65536) × ((head_ok l.now ≡ true) × (head ≡ info_head l.now))) }
    ensures is { result ≡ later_in l.now }
    ensures small { IfOk result (λ t. EndSmall t.0.span × EndSmall t.1.span × EndSmall t.2.span) }
{
    let long = 0x24 <= head;
    let both = format::local_unicode_there(long, octets::u32_at(l, 8));
    let d = text_at(true, false, l, head, octets::u32_at(l, 24) as usize).ok_or(24usize)?;
    let e = text_at(both, true, l, head, field(long, l, 28)).ok_or(28usize)?;
    let f = text_at(long, true, l, head, field(long, l, 32)).ok_or(32usize)?;
    Ok((d, e, f))
}

// What the offsets of LinkInfo l lead to keeps the rules, or the first field at fault. Where none is, the row gets the lengths of its texts.
// It is lent: by value a check costs 24 instructions more.
#[tactic(auto, using(crate::proofs::InfoLaws::pieces_read, crate::proofs::LengthLaws::lengths, std::proofs::lemmas::Grind::common_steps))]
fn pieces_wrong(l: &[u8], texts: &mut [u32; 9]) -> Result<(), usize>
    requires in_bounds { (0x1C ≤ length l.now) × ((length l.now ≤ 65536) × (head_ok l.now ≡ true)) }
    requires row { length texts.old ≡ 9 }
    ensures field { result ≡ pieces_in l.now }
    ensures lengths { texts.new ≡ lengths_after result l.now texts.old }
{
    let head = octets::u32_at(l, 4) as usize;
    let (a, b, c) = earlier_pieces(l, head)?;
    let (d, e, f) = later_pieces(l, head)?;
    apart_six(a.span, b.span, c.span, d.span, e.span, f.span)?;
    let n = c.body;
    *texts = [
        a.body as u32,
        b.body as u32,
        n.net as u32,
        n.device as u32,
        n.net_unicode as u32,
        n.device_unicode as u32,
        d.body as u32,
        e.body as u32,
        f.body as u32,
    ];
    Ok(())
}

// LinkInfo's own part of the file, from the cursor to its declared end, and the cursor after it.
#[tactic(auto, using(crate::proofs::SectionLaws::part_read, std::proofs::lemmas::Grind::common_steps))]
fn own_part(s: &[u8], c: Cursor) -> Result<(&[u8], Cursor), Refusal>
    ensures { MatchResult result (λ r. OwnPart s.now c.at r.0.now r.1) (λ r. (profile : Profile) → info_at profile s.now c.at ≡ Err r) }
{
    let at = c.at;
    let (size, _) = c
        .take_u32(s)
        .map_err(|_| Refusal::at(Fault::Cut, 2, at, 0))?;
    if size < 0x1C {
        return Err(Refusal::at(Fault::Info, 2, at, 0));
    }
    let next = c
        .skip(s, size as usize)
        .map_err(|_| Refusal::at(Fault::Cut, 2, at, 0))?;
    let end = next.at;
    Ok((&s[at..end], next))
}

// The cursor after LinkInfo. The row gets the lengths of its texts.
#[tactic(auto, using(crate::proofs::SectionLaws::section_read, std::proofs::lemmas::Grind::common_steps))]
pub fn info(s: &[u8], c: Cursor, profile: Profile, texts: &mut [u32; 9]) -> Result<Cursor, Refusal>
    requires small { length s.now ≤ 65536 }
    requires row { texts.old ≡ no_lengths }
    ensures answer { result ≡ info_at profile s.now c.at }
    ensures numbers { InfoAnswer profile s.now c.at result }
    ensures lengths { texts.new ≡ text_lengths (info_held profile s.now c.at) }
{
    let at = c.at;
    let (l, next) = own_part(s, c)?;
    info_head_wrong(l, profile).map_err(|field| Refusal::at(Fault::Info, 2, at, field))?;
    pieces_wrong(l, texts).map_err(|field| Refusal::at(Fault::Piece, 2, at, field))?;
    Ok(next)
}

// ---- what one that is right says, by the lengths of its texts: as numbers, in the order of a record's fields

// A LinkInfo that keeps the rules: its own part of the file, where that starts, and the lengths of its texts.
#[derive(Clone, Copy)]
pub struct RightInfo<'a> {
    pub l: &'a [u8],
    pub start: usize,
    pub texts: &'a [u32; 9],
    pub ghost right: { Right start l.now texts.now },
}

impl RightInfo<'_> {
    // The place of the text to which the field at i leads, where it is there; its length is the k-th of the row.
    fn text(self, there: bool, i: usize, k: usize) -> Place
        requires { (i + 4 ≤ length self.l.now) × (k < 9) }
        ensures { result ≡ cond there (place (self.entry.start + u32_at self.entry.l.now i) (slice_index self.entry.texts.now k)) no_place }
    {
        let o = octets::u32_at(self.l, i) as usize;
        body_at(there, self.start, o, self.texts[k])
    }

    // VolumeID and the local path.
    fn put_local(self, f: &mut [u64])
        requires { (has_local self.l.now ≡ true) × (length f.old ≡ 51) }
        ensures { f.new ≡ with_local f.old (info_fields self.entry.start self.entry.l.now) }
    {
        let o = octets::u32_at(self.l, 12) as usize;
        let e = o + octets::u32_at(self.l, o) as usize;
        let v = volume_of(&self.l[o..e], self.start + o, self.texts[0]);
        let b = v.label;
        f[11] = v.drive as u64;
        f[12] = v.serial as u64;
        f[13] = format::one_or_0(b.is_unicode()) as u64;
        put_place(f, format::LABEL, b.place());
        put_place(f, format::LOCAL, self.text(true, 16, 1));
    }

    fn put_network(self, f: &mut [u64])
        requires { (has_network self.l.now ≡ true) × (length f.old ≡ 51) }
        ensures { f.new ≡ with_network f.old (info_fields self.entry.start self.entry.l.now) }
    {
        let o = octets::u32_at(self.l, 20) as usize;
        let e = o + octets::u32_at(self.l, o) as usize;
        let n = network_of(&self.l[o..e], self.start + o, self.texts);
        f[14] = n.flags as u64;
        f[15] = n.provider as u64;
        f[16] = format::one_or_0(n.unicode) as u64;
        put_place(f, format::NET, n.net);
        put_place(f, format::DEVICE, n.device);
        put_place(f, format::NET_UNICODE, n.net_unicode);
        put_place(f, format::DEVICE_UNICODE, n.device_unicode);
    }

    // What a long head brings.
    fn put_long(self, head: usize, local: bool, f: &mut [u64])
        requires { (head ≡ info_head self.l.now) × ((0x24 ≤ head) × ((local ≡ has_local self.l.now) × (length f.old ≡ 51))) }
        ensures { f.new ≡ with_long f.old (info_fields self.entry.start self.entry.l.now) }
    {
        f[10] = 1;
        put_place(f, format::LOCAL_UNICODE, self.text(local, 28, 7));
        put_place(f, format::SUFFIX_UNICODE, self.text(true, 32, 8));
        let further = Place {
            at: self.start + 0x24,
            len: head - 0x24,
        };
        put_place(f, format::FURTHER, further);
    }

    // Its part of the record's 51 numbers, into zeros.
    pub fn put_info(self, f: &mut [u64])
        requires { f.old ≡ replicate 51 0 }
        ensures { f.new ≡ info_part (info_fields self.entry.start self.entry.l.now) }
    {
        let head = octets::u32_at(self.l, 4) as usize;
        let flags = octets::u32_at(self.l, 8);
        let local = format::local_there(flags);
        f[9] = flags as u64;
        if local {
            self.put_local(f);
        }
        if format::network_there(flags) {
            self.put_network(f);
        }
        put_place(f, format::SUFFIX, self.text(true, 24, 6));
        let long = 0x24 <= head;
        if long {
            self.put_long(head, local, f);
        }
    }

    // The local path, or the net name where there is none.
    pub fn first_text(self) -> Place
        requires { has_local self.l.now || has_network self.l.now ≡ true }
        ensures { result ≡ cond (has_local self.entry.l.now) (info_fields self.entry.start self.entry.l.now).local (info_fields self.entry.start self.entry.l.now).network.net }
    {
        if format::local_there(octets::u32_at(self.l, 8)) {
            return self.text(true, 16, 1);
        }
        let o = octets::u32_at(self.l, 20) as usize;
        body_at(
            true,
            self.start + o,
            octets::u32_at(self.l, o + 8) as usize,
            self.texts[2],
        )
    }

    pub fn suffix_text(self) -> Place
        ensures { result ≡ (info_fields self.entry.start self.entry.l.now).suffix }
    {
        self.text(true, 24, 6)
    }
}
