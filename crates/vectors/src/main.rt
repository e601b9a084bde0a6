// Lists and keys shortcuts that stand one after another on standard input, each after its length in four bytes; an accepted one is also rewritten.
#![tactic(auto)]

use format::Profile;

// The listing and the key; then, of an accepted one, the listing of its canonical form and the form's bytes.
fn show(s: &[u8], profile: Profile) {
    lines::listing(s, profile);
    lines::key_line(s, profile);
    let mut out = [0u8; 65536];
    let Ok(m) = rewriting::rewrite(s, &mut out, profile) else {
        return;
    };
    let w = octets::part(&out, 0, m);
    lines::listing(w, profile);
    io::write_all(1, w);
}

// The next shortcut, or what is too long for one; false where there is none.
fn next(room: &mut [u8], profile: Profile) -> bool {
    let mut length = [0u8; 4];
    if io::read_full(0, &mut length) < 4 {
        return false;
    }
    let size = octets::u32_at(&length, 0) as usize;
    if room.len() < size {
        return false;
    }
    let n = io::read_full(0, &mut room[..size]);
    show(octets::part(room, 0, n), profile);
    true
}

// Nothing says that the input ends, so the turns are counted.
fn each(room: &mut [u8], profile: Profile) {
    for _ in 0..10000 {
        if !next(room, profile) {
            return;
        }
    }
}

fn main(rt: HostRuntime) {
    if lines::wrong_words(&rt) {
        return;
    }
    let mut room = [0u8; 70000];
    each(&mut room, lines::profile_asked(&rt));
}
