// Reading a shortcut in two phases: its sections one after another, up to the first that is refused; and of an accepted one its record, by where its sections end and how long its texts are.
#![tactic(auto)]

mod outline;

ghost use Rattle.std.specs.Prelude.{◌≡◌, ◌≤◌, length};
ghost use Rattle.format.specs.Numbers.{Numbered};
ghost use Rattle.format.specs.Shortcut.{shortcut, faulted, reading};
ghost use Rattle.blocks.specs.Steps.Walk.{no_firsts};
ghost use Rattle.info.specs.Steps.Found.{no_lengths};
ghost use Rattle.reader.specs.Steps.EachSection.{items_on, string_on, info_on, info_lengths, ended_at, outline_from, lengths_from, firsts_from};
ghost use Rattle.reader.specs.Steps.Finish.{outline, OutlineAnswer, lengths_read, firsts_read, Told, next_verdict};

pub use crate::outline::Outline;
use format::{Fault, Header, Profile, Reading, Refusal, Verdict};
use octets::Cursor;

// Where each section after the header ends.
#[derive(Clone, Copy)]
pub struct SectionEnds {
    pub items: usize,
    pub info: usize,
    pub name: usize,
    pub relative: usize,
    pub workdir: usize,
    pub arguments: usize,
    pub icon: usize,
}

// ---- one section: an absent one ends where it would start; a closure for the reader would have to say what it ensures

fn items_on(s: &[u8], present: bool, c: Cursor) -> Result<Cursor, Refusal>
    ensures { result ≡ items_on s.now present c }
{
    if !present {
        return Ok(c);
    }
    let (_, next) = single::items(s, c)?;
    Ok(next)
}

// `unicode` is a flag of the file.
fn string_on(
    s: &[u8],
    present: bool,
    section: u32,
    unicode: bool,
    c: Cursor,
) -> Result<Cursor, Refusal>
    ensures { result ≡ string_on s.now present section unicode c }
{
    if !present {
        return Ok(c);
    }
    let (_, next) = single::string(s, c, section, unicode)?;
    Ok(next)
}

// The row, which is lent (see info), gets the lengths of LinkInfo's texts.
fn info_on(
    s: &[u8],
    present: bool,
    c: Cursor,
    profile: Profile,
    texts: &mut [u32; 9],
) -> Result<Cursor, Refusal>
    requires small { length s.now ≤ 65536 }
    requires row { texts.old ≡ no_lengths }
    ensures answer { result ≡ info_on profile s.now present c }
    ensures lengths { texts.new ≡ info_lengths profile s.now present c }
{
    if !present {
        return Ok(c);
    }
    info::info(s, c, profile, texts)
}

// ---- all of them

// The terminal block ends at the cursor: at the end of the shortcut, or bytes are left.
fn ended(s: &[u8], ends: SectionEnds, c: Cursor) -> Result<SectionEnds, Refusal>
    requires { 4 ≤ c.at }
    ensures { result ≡ ended_at (length s.now) ends c }
{
    if c.at != s.len() {
        return Err(Refusal::at(Fault::Trail, 9, c.at - 4, 4));
    }
    Ok(ends)
}

// The sections after the header, by its LinkFlags.
fn outline_from(
    s: &[u8],
    h: Header,
    c: Cursor,
    profile: Profile,
    texts: &mut [u32; 9],
    firsts: &mut [u32; 11],
) -> Result<SectionEnds, Refusal>
    requires small { length s.now ≤ 65536 }
    requires rows { (texts.old ≡ no_lengths) × (firsts.old ≡ no_firsts) }
    ensures answer { result ≡ outline_from profile s.now h c }
    ensures lengths { texts.new ≡ lengths_from profile s.now h c }
    ensures firsts { firsts.new ≡ firsts_from profile s.now h c }
{
    let f = h.flags;
    let u = format::strings_unicode(f);
    let items = items_on(s, format::items_there(f), c)?;
    let info = info_on(s, format::info_there(f), items, profile, texts)?;
    let name = string_on(s, format::name_there(f), 3, u, info)?;
    let relative = string_on(s, format::relative_there(f), 4, u, name)?;
    let workdir = string_on(s, format::workdir_there(f), 5, u, relative)?;
    let arguments = string_on(s, format::arguments_there(f), 6, u, workdir)?;
    let icon = string_on(s, format::icon_there(f), 7, u, arguments)?;
    let (_, end) = blocks::blocks(s, icon, firsts)?;
    let ends = SectionEnds {
        items: items.at,
        info: info.at,
        name: name.at,
        relative: relative.at,
        workdir: workdir.at,
        arguments: arguments.at,
        icon: icon.at,
    };
    ended(s, ends, end)
}

// The first phase: where the sections end, or why the shortcut is refused and where; the lengths of LinkInfo's texts, and where each known signature first stands.
pub fn outline_of(
    s: &[u8],
    profile: Profile,
    texts: &mut [u32; 9],
    firsts: &mut [u32; 11],
) -> Result<SectionEnds, Refusal>
    requires { (texts.old ≡ no_lengths) × (firsts.old ≡ no_firsts) }
    ensures answer { result ≡ outline profile s.now }
    ensures numbers { OutlineAnswer profile s.now result }
    ensures lengths { texts.new ≡ lengths_read profile s.now }
    ensures firsts { firsts.new ≡ firsts_read profile s.now }
    ensures told { Told profile s.now result texts.new firsts.new }
{
    if 65536 < s.len() {
        return Err(Refusal::at(Fault::Long, 0, 0, 65536));
    }
    let (h, c) = header::header(s, profile)?;
    outline_from(s, h, c, profile, texts, firsts)
}

// ---- the calls

// The verdict on a shortcut, beside its record; zeros beside a refusal.
pub fn read(s: &[u8], profile: Profile) -> Reading
    ensures answer { result ≡ reading profile s.now }
    ensures numbers { Numbered result.verdict (shortcut profile s.now) }
{
    let mut texts = [0u32; 9];
    let mut firsts = [0u32; 11];
    let o = outline_of(s, profile, &mut texts, &mut firsts);
    let verdict = verdict_of(s, o);
    match o {
        Ok(ends) => {
            let whole = Outline {
                s,
                profile,
                ends,
                texts: &texts,
            };
            Reading {
                verdict,
                held: whole.record(),
            }
        }
        Err(_) => Reading {
            verdict,
            held: format::NO_RECORD,
        },
    }
}

// The verdict of an outline: what is accepted is accepted as a whole. A function, since a `Result` takes no methods of ours.
pub fn verdict_of(s: &[u8], o: Result<SectionEnds, Refusal>) -> Verdict
    ensures { result ≡ next_verdict (length s.now) o }
{
    o?;
    Ok(s.len())
}

// The verdict alone.
pub fn check(s: &[u8], profile: Profile) -> Verdict
    ensures answer { result ≡ (reading profile s.now).verdict }
    ensures numbers { Numbered result (shortcut profile s.now) }
{
    let mut texts = [0u32; 9];
    let mut firsts = [0u32; 11];
    let o = outline_of(s, profile, &mut texts, &mut firsts);
    verdict_of(s, o)
}

// The verdict with the section at fault and where that starts.
pub fn fault(s: &[u8], profile: Profile) -> Result<usize, Refusal>
    ensures { result ≡ faulted profile s.now }
{
    let mut texts = [0u32; 9];
    let mut firsts = [0u32; 11];
    outline_of(s, profile, &mut texts, &mut firsts)?;
    Ok(s.len())
}
