// The header, and the window shown (FORMAT: Header).
#![tactic(auto)]

ghost use Rattle.std.specs.Prelude.{◌≡◌, ◌≤◌, ◌/◌, ◌^◌, length, eqb, cond};
ghost use Rattle.format.specs.Tests.{section, spot_at};
ghost use Rattle.format.specs.Header.{header_size_ok, identifier_ok, flags_ok, clear_from, attributes_ok, zeros_from_66, header_fields, header, window_shown};
ghost use Rattle.format.specs.Hotkey.{low_byte_ok, high_byte_ok, hotkey_ok};
ghost use Rattle.format.specs.Steps.Answers.{refusal, read_from};

use format::{Fault, Header, Profile, Refusal};
use octets::Cursor;

fn header_size_ok(n: u32) -> bool
    ensures { result ≡ header_size_ok n }
{
    n == 0x4C
}

// The class identifier in four numbers.
fn identifier_ok(l: &[u8]) -> bool
    requires { 76 ≤ length l.now }
    ensures { result ≡ identifier_ok l.now }
{
    (octets::u32_at(l, 4) == 0x0002_1401)
        & (octets::u32_at(l, 8) == 0)
        & (octets::u32_at(l, 12) == 0xC0)
        & (octets::u32_at(l, 16) == 0x4600_0000)
}

pub fn flags_ok(f: u32) -> bool
    ensures { result ≡ flags_ok f }
{
    f / 0x0800_0000 == 0
}

// The attribute bits that no profile or only 95 keeps.
fn high_clear(a: u32, profile: Profile) -> bool
    ensures { result ≡ eqb (a / 2 ^ clear_from profile) 0 }
{
    match profile {
        Profile::Strict => a / 0x8000 == 0,
        Profile::NinetyFive => a / 0x1_0000 == 0,
    }
}

pub fn attributes_ok(a: u32, profile: Profile) -> bool
    ensures { result ≡ attributes_ok profile a }
{
    !format::bit::<3>(a) & !format::bit::<6>(a) & high_clear(a, profile)
}

// The groups of LowByte (FORMAT: Hot key), row for row.
fn low_byte_ok(k: u16) -> bool
    ensures { result ≡ low_byte_ok k }
{
    let digit = (0x30 <= k) & (k <= 0x39);
    let letter = (0x41 <= k) & (k <= 0x5A);
    let function_key = (0x70 <= k) & (k <= 0x87);
    let num_lock = k == 0x90;
    let scroll_lock = k == 0x91;
    digit | letter | function_key | num_lock | scroll_lock
}

// The modifier keys of HighByte (FORMAT: Hot key), row for row: one or a combination. `bit` is of flags, which are u32.
fn high_byte_ok(m: u16) -> bool
    ensures { result ≡ high_byte_ok m }
{
    let shift = m / 0x01 % 2 == 1;
    let ctrl = m / 0x02 % 2 == 1;
    let alt = m / 0x04 % 2 == 1;
    (shift | ctrl | alt) & (m / 0x08 == 0)
}

// The two tables, and beside them the house's rules: 0 as a whole is allowed, and a key without a modifier.
#[inline(always)]
pub fn hotkey_ok(h: u16) -> bool
    ensures { result ≡ hotkey_ok h }
{
    let no_hotkey = h == 0;
    let no_modifier = h / 256 == 0;
    no_hotkey | (low_byte_ok(h % 256) & (no_modifier | high_byte_ok(h / 256)))
}

// The ten bytes from 66, in two numbers.
fn zeros_from_66(l: &[u8]) -> bool
    requires { 76 ≤ length l.now }
    ensures { result ≡ zeros_from_66 l.now }
{
    (octets::u16_at(l, 66) == 0) & (octets::u64_at(l, 68) == 0)
}

pub fn header_fields(l: &[u8]) -> Header
    requires { 76 ≤ length l.now }
    ensures { result ≡ header_fields l.now }
{
    Header {
        flags: octets::u32_at(l, 20),
        attributes: octets::u32_at(l, 24),
        creation: octets::u64_at(l, 28),
        access: octets::u64_at(l, 36),
        write: octets::u64_at(l, 44),
        file_size: octets::u32_at(l, 52),
        icon_index: format::signed(octets::u32_at(l, 56)),
        command: octets::u32_at(l, 60),
        hotkey: octets::u16_at(l, 64),
    }
}

// A test of the header, which stands first.
fn header_demand(holds: bool, fault: Fault, field: usize) -> Result<(), Refusal>
    ensures { result ≡ cond holds (Ok tt) (Err (refusal fault (spot_at (section 0 0) field))) }
{
    if holds {
        return Ok(());
    }
    Err(Refusal::at(fault, 0, 0, field))
}

pub fn header(s: &[u8], profile: Profile) -> Result<(Header, Cursor), Refusal>
    ensures { result ≡ read_from 0 (header profile 0 s.now) }
{
    let Some(l) = s.get(..76) else {
        return Err(Refusal::at(Fault::Cut, 0, 0, 0));
    };
    header_demand(header_size_ok(octets::u32_at(l, 0)), Fault::Magic, 0)?;
    header_demand(identifier_ok(l), Fault::Magic, 4)?;
    header_demand(flags_ok(octets::u32_at(l, 20)), Fault::Head, 20)?;
    header_demand(
        attributes_ok(octets::u32_at(l, 24), profile),
        Fault::Head,
        24,
    )?;
    header_demand(hotkey_ok(octets::u16_at(l, 64)), Fault::Head, 64)?;
    header_demand(zeros_from_66(l), Fault::Head, 66)?;
    Ok((header_fields(l), Cursor { at: 76 }))
}

// The window that a show command asks for.
pub fn window(command: u32) -> u32
    ensures { result ≡ window_shown command }
{
    match command {
        3 => 3,
        7 => 7,
        _ => 1,
    }
}
