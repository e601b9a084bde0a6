// Whether a record's texts can be moved. `unicode` tells the way.
ghost use Rattle.std.specs.Prelude.{◌≡◌, map};
ghost use Rattle.format.specs.Contents.{bytes_at, bodies_of};
ghost use Rattle.format.specs.Writing.{every};
ghost use Rattle.format.specs.Codepage.{is_translation};
ghost use Rattle.format.specs.Moving.{strings};
ghost use Rattle.canonical.specs.Steps.Puts.{InBuffer};
ghost use Rattle.moves.specs.Steps.Moves.{translatable, asked, texts_map, maps, Inside};

use crate::records::gains;
use format::{Place, Record};

// Each character of the body has one to move to.
fn translatable(d: &[u8], b: Place, unicode: bool) -> bool
    requires { InBuffer d.now b }
    ensures { result ≡ translatable unicode (bytes_at d.now b) }
{
    let x = &d[b.at..][..b.len];
    if unicode {
        codepage::texts::all_assigned(x)
    } else {
        codepage::texts::all_in_table(x)
    }
}

// The second body is the translation of the first.
fn translated(d: &[u8], text: Place, wide: Place) -> bool
    requires { InBuffer d.now text × InBuffer d.now wide }
    ensures { result ≡ is_translation (bytes_at d.now text) (bytes_at d.now wide) }
{
    let x = &d[text.at..][..text.len];
    let y = &d[wide.at..][..wide.len];
    codepage::texts::is_translation(x, y)
}

#[tactic(auto, using(crate::proofs::TestLaws::strings_each))]
fn strings_map(d: &[u8], r: Record, unicode: bool) -> bool
    requires { Inside d.now r.places }
    ensures { result ≡ every (map (translatable unicode) (strings (bodies_of d.now r))) }
{
    let row = r.places;
    for k in format::STRINGS..format::BLOCKS {
        if !translatable(d, row[k], unicode) {
            return false;
        }
    }
    true
}

// LinkInfo's texts: those that will be translated, or those that will be dropped.
fn texts_map(d: &[u8], r: Record, unicode: bool) -> bool
    requires { Inside d.now r.places }
    ensures { result ≡ texts_map unicode (bodies_of d.now r) }
{
    let row = r.places;
    if unicode {
        !gains(r)
            || translatable(d, row[format::LOCAL], true)
                & translatable(d, row[format::SUFFIX], true)
    } else {
        !r.link.long
            || translated(d, row[format::LOCAL], row[format::LOCAL_UNICODE])
                & translated(d, row[format::SUFFIX], row[format::SUFFIX_UNICODE])
    }
}

// Flag bit 7 is not yet as asked.
fn asked(unicode: bool, flags: u32) -> bool
    ensures { result ≡ asked unicode flags }
{
    format::strings_unicode(flags) != unicode
}

pub fn maps(d: &[u8], r: Record, unicode: bool) -> bool
    requires { Inside d.now r.places }
    ensures { result ≡ maps unicode (bodies_of d.now r) }
{
    asked(unicode, r.header.flags) & strings_map(d, r, unicode) & texts_map(d, r, unicode)
}
