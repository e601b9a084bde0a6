// Lists one shortcut, read from standard input.
#![tactic(auto)]

fn main(rt: HostRuntime) {
    if lines::wrong_words(&rt) {
        return;
    }
    // One byte more than a shortcut may have: what lies beyond it is not looked at.
    let mut room = [0u8; 65537];
    let n = io::read_full(0, &mut room);
    lines::listing(&room[..n], lines::profile_asked(&rt));
}
