// What the scheduler calls (FORMAT: The C answers): a number for each answer, its number and its value in one.
#![tactic(auto)]

ghost use Rattle.std.specs.Prelude.{◌≡◌, ◌≤◌};
ghost use Rattle.format.specs.Numbers.{answer_value};
ghost use Rattle.format.specs.Shortcut.{faulted, reading};
ghost use Rattle.format.specs.Target.{target_answer, target_output};
ghost use Rattle.format.specs.Key.{key_answer, key_output};
ghost use Rattle.format.specs.Blind.{key_blind_answer};
ghost use Rattle.format.specs.Moving.{to_unicode_answer, to_unicode_output, to_bytes_answer, to_bytes_output};
ghost use Rattle.format.specs.Listing.{section_place};
ghost use Rattle.format.specs.StoreList.{store_list_answer, store_list_output};
ghost use Rattle.format.specs.Salvage.{salvage_answer, salvage_output};
ghost use Rattle.shelving.specs.Shelf.{shelf_answer, entry_answer, one_answer};
ghost use Rattle.shelving.specs.Building.{build_answer, build_output};
ghost use Rattle.shelving.specs.OldForm.{from_old_answer, from_old_output, to_old_answer, to_old_output};
ghost use Rattle.shelving.specs.Steps.Fetches.{FetchSmall};
ghost use Rattle.scheduler.specs.Code.{code_of, fault_code, section_code, salvage_code};
ghost use Rattle.scheduler.specs.Profiles.{PROFILE, profile_of, under_profile};
ghost use Rattle.scheduler.specs.Records.{read_code, read_fields, write_code, written_fields, EndsOf};
ghost use Rattle.scheduler.specs.Stores.{store_write_code, store_written_rows, StoreEndsOf};
ghost use Rattle.scheduler.specs.Paths.{path_code, path_written, PathEndsOf};
ghost use Rattle.scheduler.specs.Shelves.{fetch_code};
ghost use Rattle.scheduler.specs.Salvages.{SalvageCodeEnds};

use format::{Place, Profile, Refused, Verdict};
use reader::Outline;

// What was handed over is no profile; is no slice of a record's numbers, or of whole rows; is no record.
const NO_PROFILE: u64 = 203;

const NO_FIELDS: u64 = 201;

const NO_RECORD: u64 = 202;

#[tactic(auto, using(crate::proofs::CodeLaws::coding))]
fn code_of(v: Verdict) -> u64
    requires { answer_value v ≤ 4194820 }
    ensures { result ≡ code_of v }
{
    match v {
        Ok(n) => 256 * (n as u64),
        Err(r) => format::number_of(r.fault) as u64 + 256 * (r.position as u64),
    }
}

// Other numbers than 0 and 1 are no profile. What a number means as one is said here alone, at the boundary.
fn profile_of(n: u32) -> Option<Profile>
    ensures { result ≡ under_profile n Some None }
{
    if 1 < n {
        return None;
    }
    Some(if n == 0 {
        Profile::Strict
    } else {
        Profile::NinetyFive
    })
}

#[tactic(auto, using(crate::proofs::ProfileLaws::asked, crate::proofs::PositionLaws::check_small))]
pub fn herringnet_check(s: &[u8], profile: u32) -> u64
    ensures { result ≡ under_profile profile (λ p. code_of (reading p s.now).verdict) PROFILE }
{
    let Some(profile) = profile_of(profile) else {
        return NO_PROFILE;
    };
    code_of(reader::check(s, profile))
}

#[tactic(auto, using(crate::proofs::ProfileLaws::asked, crate::proofs::SpotLaws::faults))]
pub fn herringnet_fault(s: &[u8], profile: u32) -> u64
    ensures { result ≡ under_profile profile (λ p. fault_code (faulted p s.now)) PROFILE }
{
    let Some(profile) = profile_of(profile) else {
        return NO_PROFILE;
    };
    let Err(r) = reader::fault(s, profile) else {
        return 0;
    };
    let section = r.spot.start as u64 + 65537 * (r.spot.section as u64);
    format::number_of(r.fault) as u64 + 256 * (r.spot.position as u64 + 65537 * section)
}

#[tactic(auto, using(crate::proofs::ProfileLaws::asked, crate::proofs::PositionLaws::target_small))]
pub fn herringnet_target(s: &[u8], out: &mut [u8], profile: u32) -> u64
    ensures answer { result ≡ under_profile profile (λ p. code_of (target_answer p s.now out.old)) PROFILE }
    ensures output { out.new ≡ under_profile profile (λ p. target_output p s.now out.old) out.old }
{
    let Some(profile) = profile_of(profile) else {
        return NO_PROFILE;
    };
    code_of(target::target(s, out, profile))
}

#[tactic(auto, using(crate::proofs::ProfileLaws::asked, crate::proofs::PositionLaws::key_small))]
pub fn herringnet_key(s: &[u8], out: &mut [u8], profile: u32) -> u64
    ensures answer { result ≡ under_profile profile (λ p. code_of (key_answer p s.now out.old)) PROFILE }
    ensures output { out.new ≡ under_profile profile (λ p. key_output p s.now out.old) out.old }
{
    let Some(profile) = profile_of(profile) else {
        return NO_PROFILE;
    };
    code_of(keying::key(s, out, profile))
}

#[tactic(auto, using(crate::proofs::ProfileLaws::asked, crate::proofs::PositionLaws::blind_small))]
pub fn herringnet_key_blind(s: &[u8], profile: u32) -> u64
    ensures { result ≡ under_profile profile (λ p. code_of (key_blind_answer p s.now)) PROFILE }
{
    let Some(profile) = profile_of(profile) else {
        return NO_PROFILE;
    };
    code_of(blinding::key_blind(s, profile))
}

#[tactic(auto, using(crate::proofs::ProfileLaws::asked, crate::proofs::PositionLaws::unicode_small))]
pub fn herringnet_to_unicode(s: &[u8], out: &mut [u8], profile: u32) -> u64
    ensures answer { result ≡ under_profile profile (λ p. code_of (to_unicode_answer p s.now out.old)) PROFILE }
    ensures output { out.new ≡ under_profile profile (λ p. to_unicode_output p s.now out.old) out.old }
{
    let Some(profile) = profile_of(profile) else {
        return NO_PROFILE;
    };
    code_of(moving::to_unicode(s, out, profile))
}

#[tactic(auto, using(crate::proofs::ProfileLaws::asked, crate::proofs::PositionLaws::bytes_small))]
pub fn herringnet_to_bytes(s: &[u8], out: &mut [u8], profile: u32) -> u64
    ensures answer { result ≡ under_profile profile (λ p. code_of (to_bytes_answer p s.now out.old)) PROFILE }
    ensures output { out.new ≡ under_profile profile (λ p. to_bytes_output p s.now out.old) out.old }
{
    let Some(profile) = profile_of(profile) else {
        return NO_PROFILE;
    };
    code_of(moving::to_bytes(s, out, profile))
}

#[tactic(auto, using(crate::proofs::ProfileLaws::asked, shown::proofs::Laws::section_small), unfolding(crate::specs::Code::section_code))]
pub fn herringnet_section(s: &[u8], name: u32, block: usize, profile: u32) -> u64
    ensures { result ≡ under_profile profile (λ p. section_code (section_place p s.now name block)) PROFILE }
{
    let Some(profile) = profile_of(profile) else {
        return NO_PROFILE;
    };
    let b = shown::section_place(s, name, block, profile);
    256 * (b.at as u64 + 65537 * (b.len as u64))
}

#[tactic(auto, using(crate::proofs::ProfileLaws::asked, crate::proofs::FieldLaws::filling))]
pub fn herringnet_read(s: &[u8], f: &mut [u64], profile: u32) -> u64
    ensures answer { result ≡ under_profile profile (λ p. read_code p s.now f.old) PROFILE }
    ensures output { f.new ≡ under_profile profile (λ p. read_fields p s.now f.old) f.old }
{
    let Some(profile) = profile_of(profile) else {
        return NO_PROFILE;
    };
    if f.len() != 51 {
        return NO_FIELDS;
    }
    let mut texts = [0u32; 9];
    let mut firsts = [0u32; 11];
    match reader::outline_of(s, profile, &mut texts, &mut firsts) {
        Ok(ends) => {
            fields::clear(f);
            Outline {
                s,
                profile,
                ends,
                texts: &texts,
            }
            .put_numbers(f);
            256 * (s.len() as u64)
        }
        Err(r) => code_of(Err(r.into())),
    }
}

#[tactic(auto, using(crate::proofs::ProfileLaws::asked, crate::proofs::PositionLaws::write_small))]
pub fn herringnet_write(f: &[u64], d: &[u8], out: &mut [u8], profile: u32) -> u64
    ensures answer { result ≡ under_profile profile (λ p. write_code p f.now d.now out.old) PROFILE }
    ensures output { out.new ≡ under_profile profile (λ p. written_fields p f.now d.now out.old) out.old }
    ensures least { profile ≤ 1 → EndsOf (profile_of profile) f.now d.now out.old result out.new }
{
    let Some(profile) = profile_of(profile) else {
        return NO_PROFILE;
    };
    if f.len() != 51 {
        return NO_FIELDS;
    }
    if !fields::are_record(f) {
        return NO_RECORD;
    }
    code_of(writer::write(fields::record_from(f), d, out, profile))
}

#[tactic(auto, using(crate::proofs::ProfileLaws::asked, crate::proofs::StoreLaws::store_list_small))]
pub fn herringnet_store_list(s: &[u8], rows: &mut [u64], profile: u32) -> u64
    ensures answer { result ≡ under_profile profile (λ p. code_of (store_list_answer p s.now rows.old)) PROFILE }
    ensures output { rows.new ≡ under_profile profile (λ p. store_list_output p s.now rows.old) rows.old }
{
    let Some(profile) = profile_of(profile) else {
        return NO_PROFILE;
    };
    code_of(storing::store_list(s, rows, profile))
}

#[tactic(auto, using(crate::proofs::StoreLaws::store_write_small))]
pub fn herringnet_store_write(rows: &[u64], d: &[u8], out: &mut [u8]) -> u64
    ensures answer { result ≡ store_write_code rows.now d.now out.old }
    ensures output { out.new ≡ store_written_rows rows.now d.now out.old }
    ensures only { StoreEndsOf rows.now d.now out.old result out.new }
{
    if rows.len() % 6 != 0 {
        return NO_FIELDS;
    }
    code_of(storing::store_write(rows, d, out))
}

#[tactic(auto, using(crate::proofs::ProfileLaws::asked, crate::proofs::PathLaws::path_small))]
pub fn herringnet_path_block(
    f: &[u64],
    d: &[u8],
    signature: u32,
    text: &[u8],
    unicode: &[u8],
    out: &mut [u8],
    profile: u32,
) -> u64
    ensures answer { result ≡ under_profile profile (λ p. path_code p f.now d.now signature text.now unicode.now out.old) PROFILE }
    ensures output { out.new ≡ under_profile profile (λ p. path_written p f.now d.now signature text.now unicode.now out.old) out.old }
    ensures least { profile ≤ 1 → PathEndsOf (profile_of profile) f.now d.now signature text.now unicode.now out.old result out.new }
{
    let Some(profile) = profile_of(profile) else {
        return NO_PROFILE;
    };
    if f.len() != 51 {
        return NO_FIELDS;
    }
    if !fields::are_record(f) {
        return NO_RECORD;
    }
    let q = fields::record_from(f);
    code_of(pathing::path_block(q, d, signature, text, unicode, out, profile))
}

#[tactic(auto, using(shelving::proofs::SmallLaws::check_small))]
pub fn herringnet_shelf_check(s: &[u8]) -> u64
    ensures { result ≡ code_of (shelf_answer s.now) }
{
    code_of(shelving::shelf_check(s))
}

#[tactic(auto, using(crate::proofs::ShelfLaws::fetched))]
fn fetch_code(g: Result<Place, Refused>) -> u64
    requires { FetchSmall g }
    ensures { result ≡ fetch_code g }
{
    match g {
        Ok(b) => 256 * (b.len as u64 + 65537 * (b.at as u64)),
        Err(r) => code_of(Err(r)),
    }
}

#[tactic(auto, using(shelving::proofs::SmallLaws::entry_small))]
pub fn herringnet_shelf_entry(s: &[u8], number: usize) -> u64
    ensures { result ≡ fetch_code (entry_answer s.now number) }
{
    fetch_code(shelving::shelf_entry(s, number))
}

#[tactic(auto, using(shelving::proofs::SmallLaws::one_small))]
pub fn herringnet_shelf_one(s: &[u8], number: usize) -> u64
    ensures { result ≡ fetch_code (one_answer s.now number) }
{
    fetch_code(shelving::shelf_one(s, number))
}

#[tactic(auto, using(shelving::proofs::SmallLaws::build_small))]
pub fn herringnet_shelf_build(lengths: &[u64], bodies: &[u8], out: &mut [u8]) -> u64
    ensures answer { result ≡ code_of (build_answer lengths.now bodies.now out.old) }
    ensures output { out.new ≡ build_output lengths.now bodies.now out.old }
{
    code_of(shelving::shelf_build(lengths, bodies, out))
}

#[tactic(auto, using(shelving::proofs::SmallLaws::from_small))]
pub fn herringnet_shelf_from_old(old: &[u8], out: &mut [u8]) -> u64
    ensures answer { result ≡ code_of (from_old_answer old.now out.old) }
    ensures output { out.new ≡ from_old_output old.now out.old }
{
    code_of(shelving::shelf_from_old(old, out))
}

#[tactic(auto, using(shelving::proofs::SmallLaws::to_small))]
pub fn herringnet_shelf_to_old(s: &[u8], out: &mut [u8]) -> u64
    ensures answer { result ≡ code_of (to_old_answer s.now out.old) }
    ensures output { out.new ≡ to_old_output s.now out.old }
{
    code_of(shelving::shelf_to_old(s, out))
}

pub fn herringnet_salvage(s: &[u8], out: &mut [u8]) -> u64
    ensures answer { result ≡ salvage_code (salvage_answer s.now out.old) }
    ensures output { out.new ≡ salvage_output s.now out.old }
    ensures saved { SalvageCodeEnds s.now out.old result out.new }
{
    match salvaging::salvage(s, out) {
        Ok(g) => 256 * (g.number as u64 + 256 * (g.kept as u64 + 131072 * (g.dropped as u64))),
        Err(r) => code_of(Err(r)),
    }
}
