// Copies into a lent buffer: many bytes in one store each, so that a copy goes by sixteen bytes at a time. Where the last
// span would pass the end it stands back, and puts some bytes a second time.
// They take the buffer and a place: an `Output` is made of these.
#![tactic(auto)]

pub mod output;

ghost use Rattle.std.specs.Prelude.{◌≡◌, ◌+◌, ◌*◌, ◌/◌, ◌≤◌, ◌<◌, length, take, drop};
ghost use Rattle.octets.specs.Parts.{put};
ghost use Rattle.octets.specs.Steps.Puts.{part};

// W bytes, a number that the compiler knows, so that it makes few loads and stores of them. All are read before the first is
// put: only so does it test nothing.
fn put_span<const W: usize>(out: &mut [u8], at: usize, src: &[u8], i: usize)
    requires { (i + W ≤ length src.now) × (at + length src.now ≤ length out.old) }
    ensures { out.new ≡ put out.old (at + i) (part src.now i W) }
{
    let span: [u8; W] = *src[i..i + W].as_array().unwrap();
    out[at + i..at + i + W].copy_from_slice(&span);
}

fn put_each(out: &mut [u8], at: usize, src: &[u8])
    requires { at + length src.now ≤ length out.old }
    ensures { out.new ≡ put out.old at src.now }
{
    for i in 0..src.len() {
        out[at + i] = src[i];
    }
}

// Fewer than sixteen bytes.
fn put_few(out: &mut [u8], at: usize, src: &[u8])
    requires { (length src.now < 16) × (at + length src.now ≤ length out.old) }
    ensures { out.new ≡ put out.old at src.now }
{
    let n = src.len();
    if 8 <= n {
        put_span::<8>(out, at, src, 0);
        put_span::<8>(out, at, src, n - 8);
        return;
    }
    if 4 <= n {
        put_span::<4>(out, at, src, 0);
        put_span::<4>(out, at, src, n - 4);
        return;
    }
    put_each(out, at, src);
}

// As many bytes as whole turns of 128 have.
fn put_turns(out: &mut [u8], at: usize, src: &[u8])
    requires { at + length src.now ≤ length out.old }
    ensures { out.new ≡ put out.old at (take (128 * (length src.now / 128)) src.now) }
{
    for turn in 0..src.len() / 128 {
        put_span::<128>(out, at, src, 128 * turn);
    }
}

// Two spans that may overlap, first and last, cost less than a loop of sixteens; over 128 bytes whole turns come first.
// Merged into its callers, it would have them keep all that they hold in memory.
#[inline(never)]
pub fn put_bytes(out: &mut [u8], at: usize, src: &[u8])
    requires { at + length src.now ≤ length out.old }
    ensures { out.new ≡ put out.old at src.now }
{
    let n = src.len();
    if n < 16 {
        put_few(out, at, src);
        return;
    }
    if n <= 32 {
        put_span::<16>(out, at, src, 0);
        put_span::<16>(out, at, src, n - 16);
        return;
    }
    if n <= 64 {
        put_span::<32>(out, at, src, 0);
        put_span::<32>(out, at, src, n - 32);
        return;
    }
    if n <= 128 {
        put_span::<64>(out, at, src, 0);
        put_span::<64>(out, at, src, n - 64);
        return;
    }
    put_turns(out, at, src);
    put_span::<128>(out, at, src, n - 128);
}
