// The old form: a length and a shortcut, again and again.
ghost use Rattle.std.specs.Prelude.{◌≡◌, true, cond, Some, None, MatchOption, ◌+◌, ◌≤◌, ◌<◌, length, drop};
ghost use Rattle.octets.specs.Numbers.{u32_at};
ghost use Rattle.octets.specs.Parts.{put};
ghost use Rattle.shelves.specs.Table.{most_entries};
ghost use Rattle.shelves.specs.OldFile.{old_fits, old_entries};
ghost use Rattle.shelves.specs.Steps.Apart.{old_lengths};

// The length of the first entry, and what follows it; none where that length is cut or passes the end.
fn first_entry(s: &[u8]) -> Option<(usize, &[u8])>
    ensures { MatchOption result
        (length s.now < 4 + u32_at s.now 0)
        (λ (n, after). (4 + u32_at s.now 0 ≤ length s.now) × (n ≡ u32_at s.now 0) × (after.now ≡ drop (4 + u32_at s.now 0) s.now)) }
{
    if s.len() < 4 {
        return None;
    }
    let n = octets::u32_at(s, 0) as usize;
    if s.len() < 4 + n {
        return None;
    }
    Some((n, &s[4 + n..]))
}

// The number of entries; none where a length is cut or passes the end, or where there are too many.
pub fn old_count(s: &[u8]) -> Option<usize>
    ensures { result ≡ cond (old_fits most_entries s.now) (Some (length (old_entries most_entries s.now))) None }
{
    let mut rest = s;
    for k in 0..64 {
        if rest.is_empty() {
            return Some(k);
        }
        let (_, after) = first_entry(rest)?;
        rest = after;
    }
    rest.is_empty().then_some(64)
}

// Their lengths, to the front.
pub fn old_lengths(s: &[u8], lengths: &mut [u64])
    requires { (old_fits most_entries s.now ≡ true) × (most_entries ≤ length lengths.old) }
    ensures { lengths.new ≡ put lengths.old 0 (old_lengths s.now) }
{
    let mut rest = s;
    for slot in lengths.iter_mut() {
        let Some((n, after)) = first_entry(rest) else {
            return;
        };
        *slot = n as u64;
        rest = after;
    }
}
