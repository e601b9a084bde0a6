// A scan for a zero character: by sixteen bytes in one test each, and one by one where these have one.
ghost use Rattle.std.specs.Prelude.{◌≡◌, ℕ, ◌+◌, ◌≤◌, ◌<◌, Bool, true, false, length, get_or, eqb};
ghost use Rattle.octets.specs.Characters.{characters, before_zero};
ghost use Rattle.octets.specs.Steps.Scans.{characters_in, first_zero, others, sixteen_at};

// A kind of character, of whose bytes a scan knows the characters by number.
pub(crate) trait Character {
    ghost unicode: { Bool };

    fn count(bytes: usize) -> usize
        ensures { result ≡ characters_in unicode bytes };

    fn is_zero(t: &[u8], k: usize) -> bool
        requires { k < characters_in unicode (length t.now) }
        ensures { result ≡ eqb (get_or (characters unicode t.now) k 0) 0 };
}

pub(crate) struct Byte;

impl Character for Byte {
    ghost unicode = { false };

    fn count(bytes: usize) -> usize {
        bytes
    }

    fn is_zero(t: &[u8], k: usize) -> bool {
        t[k] == 0
    }
}

// A 16-bit unit, at any alignment.
pub(crate) struct Unit;

impl Character for Unit {
    ghost unicode = { true };

    fn count(bytes: usize) -> usize {
        bytes / 2
    }

    fn is_zero(t: &[u8], k: usize) -> bool {
        crate::u16_at(t, 2 * k) == 0
    }
}

#[tactic(auto, using(crate::proofs::ZeroLaws::four_others))]
fn four<C: Character>(t: &[u8], k: usize) -> bool
    requires { k + 4 ≤ characters_in C.unicode (length t.now) }
    ensures { result ≡ others (characters C.unicode t.now) k 4 }
{
    !C::is_zero(t, k) & !C::is_zero(t, k + 1) & !C::is_zero(t, k + 2) & !C::is_zero(t, k + 3)
}

// Sixteen bytes of them in one test, of which the compiler makes one vector comparison.
fn sixteen_bytes<C: Character>(t: &[u8], k: usize) -> bool
    requires { k + characters_in C.unicode 16 ≤ characters_in C.unicode (length t.now) }
    ensures { result ≡ others (characters C.unicode t.now) k (characters_in C.unicode 16) }
{
    let eight = four::<C>(t, k) & four::<C>(t, k + 4);
    if C::count(16) == 8 {
        return eight;
    }
    eight & four::<C>(t, k + 8) & four::<C>(t, k + 12)
}

// The first character of the first sixteen bytes that have a zero one. The bytes behind the last whole sixteen are not looked at.
pub(crate) fn sixteen_at<C: Character>(t: &[u8]) -> Option<usize>
    ensures { result ≡ sixteen_at C.unicode t.now }
{
    for j in 0..t.len() / 16 {
        let k = C::count(16 * j);
        let passed = sixteen_bytes::<C>(t, k);
        if !passed {
            return Some(k);
        }
    }
    None
}

// One by one, the n characters from the number `start` on: in front of them is no zero one, and behind them none is the first.
#[tactic(auto, using(crate::proofs::ZeroLaws::characters_len, crate::proofs::ZeroLaws::search_zero, crate::proofs::ZeroLaws::search_other, crate::proofs::ZeroLaws::search_end))]
fn zero_among<C: Character>(t: &[u8], start: usize, n: usize) -> Option<usize>
    requires front { start ≤ before_zero (characters C.unicode t.now) }
    requires fits { start + n ≤ characters_in C.unicode (length t.now) }
    requires behind { let l = characters C.unicode t.now in before_zero l < length l → before_zero l < start + n }
    ensures { result ≡ first_zero (characters C.unicode t.now) }
{
    for turn in 0..n / 4 {
        for j in 0..4 {
            let k = start + 4 * turn + j;
            if C::is_zero(t, k) {
                return Some(k);
            }
        }
    }
    let last = start + n / 4 * 4;
    for i in 0..n % 4 {
        if C::is_zero(t, last + i) {
            return Some(last + i);
        }
    }
    None
}

// How many characters stand before the first zero one. In sixteen bytes that have it no end is tested: two instructions a character.
#[tactic(auto, using(crate::proofs::ZeroLaws::characters_len, crate::proofs::ZeroLaws::sixteen_found, crate::proofs::ZeroLaws::sixteen_lost))]
#[inline(never)]
pub(crate) fn first_zero<C: Character>(t: &[u8]) -> Option<usize>
    ensures { result ≡ first_zero (characters C.unicode t.now) }
{
    match sixteen_at::<C>(t) {
        Some(k) => zero_among::<C>(t, k, C::count(16)),
        None => {
            let k = C::count(t.len() / 16 * 16);
            zero_among::<C>(t, k, C::count(t.len()) - k)
        }
    }
}
