// The property store of a block (FORMAT: Property store): storages, and the values in each.
#![tactic(auto)]

ghost use Rattle.std.specs.Prelude.{◌≡◌, ℕ, ◌+◌, ◌≤◌, ◌<◌, ◌^◌, List, length, take, drop, IfSome};
ghost use Rattle.format.specs.Tests.{Test};
ghost use Rattle.format.specs.Store.{name_length, is_named, value_tests, storage_tests, part_tests, store_tests};
ghost use Rattle.format.specs.Steps.Wrong.{wrong};

// A kind of part that begins with its size.
trait Part {
    // How many bytes it has at least.
    ghost LEAST: { ℕ };

    const LEAST: usize;

    ghost tests: { Self → ℕ → List ℕ → List Test };

    // The first field found wrong in the part v, which stands at the offset at.
    fn part_wrong(&self, v: &[u8], at: usize) -> Option<usize>
        requires { (LEAST ≤ length v.now) × (at + length v.now < 2 ^ 64) }
        ensures { result ≡ wrong (tests self.now at v.now) };
}

// Part after part up to a zero size, which is the last: the first field found wrong. The parts stand at the offset at.
fn parts_wrong<P: Part>(kind: &P, l: &[u8], at: usize) -> Option<usize>
    requires { at + length l.now < 2 ^ 64 }
    ensures { result ≡ wrong (part_tests P.LEAST (P.tests kind.now) at 0 l.now) }
{
    let mut p = at;
    let mut rest = l;
    // No index is counted: the step is the size that stands there.
    while 4 <= rest.len() {
        let size = octets::u32_at(rest, 0) as usize;
        if size == 0 {
            let ends = rest.len() == 4;
            return (!ends).then_some(p);
        }
        if size < P::LEAST {
            return Some(p);
        }
        let Some((part, next)) = rest.split_at_checked(size) else {
            return Some(p);
        };
        if let Some(found) = kind.part_wrong(part, p) {
            return Some(found);
        }
        p += size;
        rest = next;
    }
    Some(p)
}

// The values of a storage have names under the named format alone.
#[derive(Clone, Copy)]
struct Value {
    named: bool,
}

// By string under the named format alone.
fn name_length(v: &[u8], named: bool) -> usize
    requires { 9 ≤ length v.now }
    ensures { result ≡ name_length named v.now }
{
    if named {
        return octets::u32_at(v, 4) as usize;
    }
    0
}

impl Part for Value {
    ghost LEAST = { 9 };

    const LEAST: usize = 9;

    ghost tests = { λ self. value_tests self.named };

    // The name's length, then the zero byte.
    fn part_wrong(&self, v: &[u8], at: usize) -> Option<usize> {
        if v.len() - 9 < name_length(v, self.named) {
            return Some(at + 4);
        }
        (v[8] != 0).then_some(at + 8)
    }
}

// The format identifier that stands there, in two numbers.
pub fn is_named(s: &[u8], i: usize) -> bool
    requires { i + 16 ≤ length s.now }
    ensures { result ≡ is_named (take 16 (drop i s.now)) }
{
    (octets::u64_at(s, i) == 0x101B_2E9C_D5CD_D505)
        & (octets::u64_at(s, i + 8) == 0xAEF9_2C2B_0008_9793)
}

#[derive(Clone, Copy)]
struct Storage;

impl Part for Storage {
    ghost LEAST = { 28 };

    const LEAST: usize = 28;

    ghost tests = { λ self. storage_tests };

    // The version, then the values.
    fn part_wrong(&self, v: &[u8], at: usize) -> Option<usize> {
        if octets::u32_at(v, 4) != 0x5350_5331 {
            return Some(at + 4);
        }
        let values = Value {
            named: is_named(v, 8),
        };
        parts_wrong(&values, &v[24..], at + 24)
    }
}

// The first field found wrong in a store that stands at the offset at.
pub fn store_wrong(l: &[u8], at: usize) -> Option<usize>
    requires { at + length l.now < 2 ^ 64 }
    ensures is { result ≡ wrong (store_tests at l.now) }
    ensures inside { IfSome result (λ w. w ≤ at + length l.now) }
{
    parts_wrong(&Storage, l, at)
}
