// What an accepted shortcut says, by where its sections end and how long LinkInfo's texts are.

ghost use Rattle.std.specs.Prelude.{◌≡◌, true, cond, ◌||◌, ◌+◌, ◌-◌, ◌≤◌, length, replicate};
ghost use Rattle.octets.specs.Numbers.{Bytes};
ghost use Rattle.format.specs.Tests.{place, no_place};
ghost use Rattle.format.specs.Bodies.{place_in, items_slot, local_slot, net_slot, suffix_slot, string_slot};
ghost use Rattle.format.specs.Presence.{info_there, workdir_bit, arguments_bit, local_there, network_there};
ghost use Rattle.format.specs.Shortcut.{reading};
ghost use Rattle.fields.specs.Fields.{fields_of};
ghost use Rattle.reader.specs.Steps.Finish.{Whole, info_own};
ghost use Rattle.reader.specs.Steps.Numbers.{with_header, with_strings};

use crate::SectionEnds;
use fields::put_place;
use format::{Header, Place, Profile, Record};
use info::RightInfo;

// An accepted shortcut: where its sections end, and how long LinkInfo's texts are; that row is lent (see info).
#[derive(Clone, Copy)]
pub struct Outline<'a> {
    pub s: &'a [u8],
    pub profile: Profile,
    pub ends: SectionEnds,
    pub texts: &'a [u32; 9],
    pub ghost bytes: { Bytes s.now },
    pub ghost whole: { Whole profile s.now ends texts.now },
}

// The body of a string: after its count, up to its end; the empty place where it is absent (FORMAT: Zeros).
fn body_if(there: bool, from: usize, to: usize) -> Place
    requires { (there ≡ true → from + 2 ≤ to) × (to ≤ 65536) }
    ensures { result ≡ cond there (place (from + 2) (to - from - 2)) no_place }
{
    if there {
        return Place {
            at: from + 2,
            len: to - from - 2,
        };
    }
    format::NO_PLACE
}

// The header's numbers.
fn put_header(f: &mut [u64], h: Header)
    requires { length f.old ≡ 51 }
    ensures { f.new ≡ with_header f.old h }
{
    f[0] = h.flags as u64;
    f[1] = h.attributes as u64;
    f[2] = h.creation;
    f[3] = h.access;
    f[4] = h.write;
    f[5] = h.file_size as u64;
    f[6] = format::bits_of(h.icon_index) as u64;
    f[7] = h.command as u64;
    f[8] = h.hotkey as u64;
}

impl<'a> Outline<'a> {
    pub fn flags(&self) -> u32
        ensures { result ≡ (reading self.now.profile self.now.s.now).held.header.flags }
    {
        octets::u32_at(self.s, 20)
    }

    // LinkInfo's flags; 0 where it is absent (FORMAT: Zeros).
    pub fn link_flags(&self) -> u32
        ensures { result ≡ (reading self.now.profile self.now.s.now).held.link.flags }
    {
        if format::info_there(self.flags()) {
            return octets::u32_at(self.s, self.ends.items + 8);
        }
        0
    }

    // LinkInfo, which keeps the rules.
    fn info(&self) -> RightInfo<'_>
        requires there { info_there (reading self.now.profile self.now.s.now).held.header.flags ≡ true }
        ensures { (result.l.now ≡ info_own self.now.s.now self.now.ends) × (result.start ≡ self.now.ends.items) }
    {
        RightInfo {
            l: &self.s[self.ends.items..self.ends.info],
            start: self.ends.items,
            texts: self.texts,
        }
    }

    // The local path, or the net name where there is none.
    pub fn first_text(&self) -> Place
        requires there { info_there (reading self.now.profile self.now.s.now).held.header.flags ≡ true }
        requires either { local_there (reading self.now.profile self.now.s.now).held.link.flags || network_there (reading self.now.profile self.now.s.now).held.link.flags ≡ true }
        ensures { let held = (reading self.now.profile self.now.s.now).held in result ≡ cond (local_there held.link.flags) (place_in held local_slot) (place_in held net_slot) }
    {
        self.info().first_text()
    }

    pub fn suffix_text(&self) -> Place
        requires there { info_there (reading self.now.profile self.now.s.now).held.header.flags ≡ true }
        ensures { result ≡ place_in (reading self.now.profile self.now.s.now).held suffix_slot }
    {
        self.info().suffix_text()
    }

    // The items stand after the header and their size, and before two zero bytes.
    fn items(&self) -> Place
        ensures { result ≡ place_in (reading self.now.profile self.now.s.now).held items_slot }
    {
        if format::items_there(self.flags()) {
            return Place {
                at: 78,
                len: self.ends.items - 80,
            };
        }
        format::NO_PLACE
    }

    pub fn workdir(&self) -> Place
        ensures { result ≡ place_in (reading self.now.profile self.now.s.now).held (string_slot workdir_bit) }
    {
        let e = self.ends;
        body_if(format::workdir_there(self.flags()), e.relative, e.workdir)
    }

    pub fn arguments(&self) -> Place
        ensures { result ≡ place_in (reading self.now.profile self.now.s.now).held (string_slot arguments_bit) }
    {
        let e = self.ends;
        body_if(
            format::arguments_there(self.flags()),
            e.workdir,
            e.arguments,
        )
    }

    // The places of the strings, slot by slot.
    fn put_strings(&self, f: &mut [u64])
        requires { length f.old ≡ 51 }
        ensures { f.new ≡ with_strings f.old (reading self.now.profile self.now.s.now).held }
    {
        let e = self.ends;
        let flags = self.flags();
        put_place(f, 10, body_if(format::name_there(flags), e.info, e.name));
        put_place(
            f,
            11,
            body_if(format::relative_there(flags), e.name, e.relative),
        );
        put_place(f, 12, self.workdir());
        put_place(f, 13, self.arguments());
        put_place(
            f,
            14,
            body_if(format::icon_there(flags), e.arguments, e.icon),
        );
    }

    // The second phase: the record as 51 numbers, into zeros.
    pub fn put_numbers(&self, f: &mut [u64])
        requires { f.old ≡ replicate 51 0 }
        ensures { f.new ≡ fields_of (reading self.now.profile self.now.s.now).held }
    {
        let e = self.ends;
        if format::info_there(self.flags()) {
            self.info().put_info(f);
        }
        put_header(f, header::header_fields(self.s));
        put_place(f, format::ITEMS, self.items());
        self.put_strings(f);
        let blocks = Place {
            at: e.icon,
            len: self.s.len() - 4 - e.icon,
        };
        put_place(f, format::BLOCKS, blocks);
    }

    // The record itself.
    pub fn record(&self) -> Record
        ensures { result ≡ (reading self.now.profile self.now.s.now).held }
    {
        let mut f = [0u64; 51];
        self.put_numbers(&mut f);
        fields::record_from(&f)
    }
}
