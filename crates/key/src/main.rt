// The cache key of the shortcut on standard input, as hex; where it is refused, the line that the listing has.
#![tactic(auto)]

fn main(rt: HostRuntime) {
    if lines::wrong_words(&rt) {
        return;
    }
    // One byte more than a shortcut may have: what lies beyond it is not looked at.
    let mut room = [0u8; 65537];
    let n = io::read_full(0, &mut room);
    lines::key_line(&room[..n], lines::profile_asked(&rt));
}
