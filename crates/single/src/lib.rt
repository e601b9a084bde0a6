// Sections that are one body: a string, and the item list (FORMAT: Strings, Item list).
#![tactic(auto)]

ghost use Rattle.std.specs.Prelude.{◌≡◌, drop};
ghost use Rattle.octets.specs.Characters.{bytes_of};
ghost use Rattle.format.specs.Items.{items};
ghost use Rattle.format.specs.Strings.{string};
ghost use Rattle.format.specs.Steps.Answers.{read_from};

use format::{Fault, Place, Refusal};
use octets::Cursor;

// The count is of characters, of two bytes each in Unicode, a flag of the file. The one of `pieces` asks for 65536 at most.
fn bytes_of(unicode: bool, count: u32) -> usize
    ensures { result ≡ bytes_of unicode count }
{
    if unicode {
        return 2 * (count as usize);
    }
    count as usize
}

// The section is the string's number in the listing.
#[tactic(auto, using(std::proofs::lemmas::Grind::common_steps, crate::proofs::Laws::first_left))]
pub fn string(s: &[u8], c: Cursor, section: u32, unicode: bool) -> Result<(Place, Cursor), Refusal>
    ensures { result ≡ read_from c.at (string section unicode c.at (drop c.at s.now)) }
{
    let (count, body) = c
        .take_u16(s)
        .map_err(|_| Refusal::at(Fault::Cut, section, c.at, 0))?;
    let len = bytes_of(unicode, count);
    let next = body
        .skip(s, len)
        .map_err(|_| Refusal::at(Fault::Cut, section, c.at, 0))?;
    Ok((Place { at: body.at, len }, next))
}

// The two zero bytes at the end are no part of the body.
#[tactic(auto, using(std::proofs::lemmas::Grind::common_steps, crate::proofs::Laws::first_left))]
pub fn items(s: &[u8], c: Cursor) -> Result<(Place, Cursor), Refusal>
    ensures { result ≡ read_from c.at (items c.at (drop c.at s.now)) }
{
    let (size, body) = c
        .take_u16(s)
        .map_err(|_| Refusal::at(Fault::Cut, 1, c.at, 0))?;
    let size = size as usize;
    let next = body
        .skip(s, size)
        .map_err(|_| Refusal::at(Fault::Cut, 1, c.at, 0))?;
    if let Some(wrong) = items::items_wrong(&s[body.at..next.at], 2) {
        return Err(Refusal::at(Fault::Items, 1, c.at, wrong));
    }
    Ok((
        Place {
            at: body.at,
            len: size - 2,
        },
        next,
    ))
}
