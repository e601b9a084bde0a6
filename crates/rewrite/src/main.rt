// Writes the canonical form of one shortcut from standard input, or the listing's refusal line.
#![tactic(auto)]

fn main(rt: HostRuntime) {
    if lines::wrong_words(&rt) {
        return;
    }
    // One byte more than a shortcut may have: what lies beyond it is not looked at.
    let mut room = [0u8; 65537];
    let n = io::read_full(0, &mut room);
    let mut out = [0u8; 65536];
    match rewriting::rewrite(&room[..n], &mut out, lines::profile_asked(&rt)) {
        Ok(m) => {
            io::write_all(1, octets::part(&out, 0, m));
        }
        Err(r) => lines::refused_line(r),
    }
}
