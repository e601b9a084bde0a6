// The functions for C (FORMAT: C functions): each is the call of that name in `scheduler`, under its clauses, since only a static library exports.
#![tactic(auto)]

ghost use Rattle.std.specs.Prelude.{◌≡◌, ◌≤◌};
ghost use Rattle.format.specs.Shortcut.{faulted, reading};
ghost use Rattle.format.specs.Target.{target_answer, target_output};
ghost use Rattle.format.specs.Key.{key_answer, key_output};
ghost use Rattle.format.specs.Blind.{key_blind_answer};
ghost use Rattle.format.specs.Moving.{to_unicode_answer, to_unicode_output, to_bytes_answer, to_bytes_output};
ghost use Rattle.format.specs.Listing.{section_place};
ghost use Rattle.format.specs.StoreList.{store_list_answer, store_list_output};
ghost use Rattle.format.specs.Salvage.{salvage_answer, salvage_output};
ghost use Rattle.shelving.specs.Shelf.{shelf_answer, entry_answer, one_answer};
ghost use Rattle.shelving.specs.Building.{build_answer, build_output};
ghost use Rattle.shelving.specs.OldForm.{from_old_answer, from_old_output, to_old_answer, to_old_output};
ghost use Rattle.scheduler.specs.Code.{code_of, fault_code, section_code, salvage_code};
ghost use Rattle.scheduler.specs.Profiles.{PROFILE, profile_of, under_profile};
ghost use Rattle.scheduler.specs.Records.{read_code, read_fields, write_code, written_fields, EndsOf};
ghost use Rattle.scheduler.specs.Stores.{store_write_code, store_written_rows, StoreEndsOf};
ghost use Rattle.scheduler.specs.Paths.{path_code, path_written, PathEndsOf};
ghost use Rattle.scheduler.specs.Shelves.{fetch_code};
ghost use Rattle.scheduler.specs.Salvages.{SalvageCodeEnds};

#[unsafe(no_mangle)]
pub extern "C" fn herringnet_check(s: &[u8], profile: u32) -> u64
    ensures { result ≡ under_profile profile (λ p. code_of (reading p s.now).verdict) PROFILE }
{
    scheduler::herringnet_check(s, profile)
}

#[unsafe(no_mangle)]
pub extern "C" fn herringnet_fault(s: &[u8], profile: u32) -> u64
    ensures { result ≡ under_profile profile (λ p. fault_code (faulted p s.now)) PROFILE }
{
    scheduler::herringnet_fault(s, profile)
}

#[unsafe(no_mangle)]
pub extern "C" fn herringnet_target(s: &[u8], out: &mut [u8], profile: u32) -> u64
    ensures answer { result ≡ under_profile profile (λ p. code_of (target_answer p s.now out.old)) PROFILE }
    ensures output { out.new ≡ under_profile profile (λ p. target_output p s.now out.old) out.old }
{
    scheduler::herringnet_target(s, out, profile)
}

#[unsafe(no_mangle)]
pub extern "C" fn herringnet_key(s: &[u8], out: &mut [u8], profile: u32) -> u64
    ensures answer { result ≡ under_profile profile (λ p. code_of (key_answer p s.now out.old)) PROFILE }
    ensures output { out.new ≡ under_profile profile (λ p. key_output p s.now out.old) out.old }
{
    scheduler::herringnet_key(s, out, profile)
}

#[unsafe(no_mangle)]
pub extern "C" fn herringnet_key_blind(s: &[u8], profile: u32) -> u64
    ensures { result ≡ under_profile profile (λ p. code_of (key_blind_answer p s.now)) PROFILE }
{
    scheduler::herringnet_key_blind(s, profile)
}

#[unsafe(no_mangle)]
pub extern "C" fn herringnet_to_unicode(s: &[u8], out: &mut [u8], profile: u32) -> u64
    ensures answer { result ≡ under_profile profile (λ p. code_of (to_unicode_answer p s.now out.old)) PROFILE }
    ensures output { out.new ≡ under_profile profile (λ p. to_unicode_output p s.now out.old) out.old }
{
    scheduler::herringnet_to_unicode(s, out, profile)
}

#[unsafe(no_mangle)]
pub extern "C" fn herringnet_to_bytes(s: &[u8], out: &mut [u8], profile: u32) -> u64
    ensures answer { result ≡ under_profile profile (λ p. code_of (to_bytes_answer p s.now out.old)) PROFILE }
    ensures output { out.new ≡ under_profile profile (λ p. to_bytes_output p s.now out.old) out.old }
{
    scheduler::herringnet_to_bytes(s, out, profile)
}

#[unsafe(no_mangle)]
pub extern "C" fn herringnet_section(s: &[u8], name: u32, block: usize, profile: u32) -> u64
    ensures { result ≡ under_profile profile (λ p. section_code (section_place p s.now name block)) PROFILE }
{
    scheduler::herringnet_section(s, name, block, profile)
}

#[unsafe(no_mangle)]
pub extern "C" fn herringnet_read(s: &[u8], f: &mut [u64], profile: u32) -> u64
    ensures answer { result ≡ under_profile profile (λ p. read_code p s.now f.old) PROFILE }
    ensures output { f.new ≡ under_profile profile (λ p. read_fields p s.now f.old) f.old }
{
    scheduler::herringnet_read(s, f, profile)
}

#[unsafe(no_mangle)]
pub extern "C" fn herringnet_write(f: &[u64], d: &[u8], out: &mut [u8], profile: u32) -> u64
    ensures answer { result ≡ under_profile profile (λ p. write_code p f.now d.now out.old) PROFILE }
    ensures output { out.new ≡ under_profile profile (λ p. written_fields p f.now d.now out.old) out.old }
    ensures least { profile ≤ 1 → EndsOf (profile_of profile) f.now d.now out.old result out.new }
{
    scheduler::herringnet_write(f, d, out, profile)
}

#[unsafe(no_mangle)]
pub extern "C" fn herringnet_store_list(s: &[u8], rows: &mut [u64], profile: u32) -> u64
    ensures answer { result ≡ under_profile profile (λ p. code_of (store_list_answer p s.now rows.old)) PROFILE }
    ensures output { rows.new ≡ under_profile profile (λ p. store_list_output p s.now rows.old) rows.old }
{
    scheduler::herringnet_store_list(s, rows, profile)
}

#[unsafe(no_mangle)]
pub extern "C" fn herringnet_store_write(rows: &[u64], d: &[u8], out: &mut [u8]) -> u64
    ensures answer { result ≡ store_write_code rows.now d.now out.old }
    ensures output { out.new ≡ store_written_rows rows.now d.now out.old }
    ensures only { StoreEndsOf rows.now d.now out.old result out.new }
{
    scheduler::herringnet_store_write(rows, d, out)
}

#[unsafe(no_mangle)]
pub extern "C" fn herringnet_path_block(
    f: &[u64],
    d: &[u8],
    signature: u32,
    text: &[u8],
    unicode: &[u8],
    out: &mut [u8],
    profile: u32,
) -> u64
    ensures answer { result ≡ under_profile profile (λ p. path_code p f.now d.now signature text.now unicode.now out.old) PROFILE }
    ensures output { out.new ≡ under_profile profile (λ p. path_written p f.now d.now signature text.now unicode.now out.old) out.old }
    ensures least { profile ≤ 1 → PathEndsOf (profile_of profile) f.now d.now signature text.now unicode.now out.old result out.new }
{
    scheduler::herringnet_path_block(f, d, signature, text, unicode, out, profile)
}

#[unsafe(no_mangle)]
pub extern "C" fn herringnet_shelf_check(s: &[u8]) -> u64
    ensures { result ≡ code_of (shelf_answer s.now) }
{
    scheduler::herringnet_shelf_check(s)
}

#[unsafe(no_mangle)]
pub extern "C" fn herringnet_shelf_entry(s: &[u8], number: usize) -> u64
    ensures { result ≡ fetch_code (entry_answer s.now number) }
{
    scheduler::herringnet_shelf_entry(s, number)
}

#[unsafe(no_mangle)]
pub extern "C" fn herringnet_shelf_one(s: &[u8], number: usize) -> u64
    ensures { result ≡ fetch_code (one_answer s.now number) }
{
    scheduler::herringnet_shelf_one(s, number)
}

#[unsafe(no_mangle)]
pub extern "C" fn herringnet_shelf_build(lengths: &[u64], bodies: &[u8], out: &mut [u8]) -> u64
    ensures answer { result ≡ code_of (build_answer lengths.now bodies.now out.old) }
    ensures output { out.new ≡ build_output lengths.now bodies.now out.old }
{
    scheduler::herringnet_shelf_build(lengths, bodies, out)
}

#[unsafe(no_mangle)]
pub extern "C" fn herringnet_shelf_from_old(old: &[u8], out: &mut [u8]) -> u64
    ensures answer { result ≡ code_of (from_old_answer old.now out.old) }
    ensures output { out.new ≡ from_old_output old.now out.old }
{
    scheduler::herringnet_shelf_from_old(old, out)
}

#[unsafe(no_mangle)]
pub extern "C" fn herringnet_shelf_to_old(s: &[u8], out: &mut [u8]) -> u64
    ensures answer { result ≡ code_of (to_old_answer s.now out.old) }
    ensures output { out.new ≡ to_old_output s.now out.old }
{
    scheduler::herringnet_shelf_to_old(s, out)
}

#[unsafe(no_mangle)]
pub extern "C" fn herringnet_salvage(s: &[u8], out: &mut [u8]) -> u64
    ensures answer { result ≡ salvage_code (salvage_answer s.now out.old) }
    ensures output { out.new ≡ salvage_output s.now out.old }
    ensures saved { SalvageCodeEnds s.now out.old result out.new }
{
    scheduler::herringnet_salvage(s, out)
}
