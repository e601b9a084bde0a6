// A section asked for by name, shown as the caller's own bytes.
#![tactic(auto)]

ghost use Rattle.std.specs.Prelude.{◌≡◌};
ghost use Rattle.format.specs.Listing.{section_place, section_bytes};
ghost use Rattle.shown.specs.Steps.Asked.{between};

use format::{Place, Profile};
use reader::Outline;

fn between(there: bool, p: usize, e: usize) -> Place
    ensures { result ≡ between there p e }
{
    if there {
        return Place {
            at: p,
            len: e.saturating_sub(p),
        };
    }
    format::NO_PLACE
}

// Of an accepted shortcut, by where its sections end.
fn place_in(o: &Outline, name: u32, block: usize) -> Place
    ensures { result ≡ section_place o.now.profile o.now.s.now name block }
{
    let e = o.ends;
    if name == 8 {
        return blocks::nth_block(o.s, e.icon, block).unwrap_or(format::NO_PLACE);
    }
    let f = o.flags();
    match name {
        0 => Place { at: 0, len: 76 },
        1 => between(format::items_there(f), 76, e.items),
        2 => between(format::info_there(f), e.items, e.info),
        3 => between(format::name_there(f), e.info, e.name),
        4 => between(format::relative_there(f), e.name, e.relative),
        5 => between(format::workdir_there(f), e.relative, e.workdir),
        6 => between(format::arguments_there(f), e.workdir, e.arguments),
        7 => between(format::icon_there(f), e.arguments, e.icon),
        9 => Place {
            at: o.s.len().saturating_sub(4),
            len: 4,
        },
        _ => format::NO_PLACE,
    }
}

// Where the section stands, all of it, as listed; the empty place where it is absent, refused or unknown: C gets it so.
pub fn section_place(s: &[u8], name: u32, block: usize, profile: Profile) -> Place
    ensures { result ≡ section_place profile s.now name block }
{
    let mut texts = [0u32; 9];
    let mut firsts = [0u32; 11];
    match reader::outline_of(s, profile, &mut texts, &mut firsts) {
        Ok(ends) => {
            let o = Outline {
                s,
                profile,
                ends,
                texts: &texts,
            };
            place_in(&o, name, block)
        }
        Err(_) => format::NO_PLACE,
    }
}

pub fn section(s: &[u8], name: u32, block: usize, profile: Profile) -> &[u8]
    ensures { result.now ≡ section_bytes profile s.now name block }
{
    let b = section_place(s, name, block, profile);
    octets::part(s, b.at, b.len)
}
