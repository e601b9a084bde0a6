// The record as 51 numbers, in the order of specs/Fields.
#![tactic(auto)]

ghost use Rattle.std.specs.Prelude.{◌≡◌, true, ◌<◌, length, replicate};
ghost use Rattle.fields.specs.Steps.Putting.{with_place};
ghost use Rattle.fields.specs.Fields.{field_count, header_numbers, info_numbers, are_record, slot_at, header_from, link_from, places_from, record_from};

use format::{Header, Link, Place, Record};

const WORD: u64 = 0x1_0000_0000;

pub fn are_record(f: &[u64]) -> bool
    requires { length f.now ≡ field_count }
    ensures { result ≡ are_record f.now }
{
    header_numbers(f) & info_numbers(f)
}

fn header_numbers(f: &[u64]) -> bool
    requires { length f.now ≡ field_count }
    ensures { result ≡ header_numbers f.now }
{
    (f[0] < WORD) & (f[1] < WORD) & (f[5] < WORD) & (f[6] < WORD) & (f[7] < WORD) & (f[8] < 65536)
}

// The place in slot k.
fn slot_at(f: &[u64], k: usize) -> Place
    requires size { length f.now ≡ field_count }
    requires slot { k < 17 }
    ensures { result ≡ slot_at f.now k }
{
    let i = 17 + 2 * k;
    Place {
        at: f[i] as usize,
        len: f[i + 1] as usize,
    }
}

fn header_from(f: &[u64]) -> Header
    requires size { length f.now ≡ field_count }
    requires numbers { header_numbers f.now ≡ true }
    ensures { result ≡ header_from f.now }
{
    Header {
        flags: f[0] as u32,
        attributes: f[1] as u32,
        creation: f[2],
        access: f[3],
        write: f[4],
        file_size: f[5] as u32,
        icon_index: format::signed(f[6] as u32),
        command: f[7] as u32,
        hotkey: f[8] as u16,
    }
}

fn info_numbers(f: &[u64]) -> bool
    requires { length f.now ≡ field_count }
    ensures { result ≡ info_numbers f.now }
{
    (f[9] < WORD)
        & (f[10] < 2)
        & (f[11] < WORD)
        & (f[12] < WORD)
        & (f[13] < 2)
        & (f[14] < WORD)
        & (f[15] < WORD)
        & (f[16] < 2)
}

// All zeros.
pub fn clear(f: &mut [u64])
    requires { length f.old ≡ field_count }
    ensures { f.new ≡ replicate field_count 0 }
{
    f.fill(0);
}

// The place in slot k of the record.
pub fn put_place(f: &mut [u64], k: usize, b: Place)
    requires size { length f.old ≡ field_count }
    requires slot { k < 17 }
    ensures { f.new ≡ with_place f.old k b }
{
    f[17 + 2 * k] = b.at as u64;
    f[18 + 2 * k] = b.len as u64;
}

fn link_from(f: &[u64]) -> Link
    requires size { length f.now ≡ field_count }
    requires numbers { info_numbers f.now ≡ true }
    ensures { result ≡ link_from f.now }
{
    Link {
        flags: f[9] as u32,
        long: f[10] == 1,
        drive: f[11] as u32,
        serial: f[12] as u32,
        label_unicode: f[13] == 1,
        network_flags: f[14] as u32,
        provider: f[15] as u32,
        network_unicode: f[16] == 1,
    }
}

fn places_from(f: &[u64]) -> [Place; 17]
    requires { length f.now ≡ field_count }
    ensures { result ≡ places_from f.now }
{
    let mut row = [format::NO_PLACE; 17];
    for (k, place) in row.iter_mut().enumerate() {
        *place = slot_at(f, k);
    }
    row
}

pub fn record_from(f: &[u64]) -> Record
    requires size { length f.now ≡ field_count }
    requires numbers { are_record f.now ≡ true }
    ensures { result ≡ record_from f.now }
{
    let header = header_from(f);
    let link = link_from(f);
    let places = places_from(f);
    Record {
        header,
        link,
        places,
    }
}
