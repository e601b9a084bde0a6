// Item lists (FORMAT: Item list walk).
#![tactic(auto)]

ghost use Rattle.std.specs.Prelude.{◌≡◌, ◌+◌, ◌≤◌, length, IfSome, IfNone};
ghost use Rattle.format.specs.declared.Fault.TheVariants.{Items};
ghost use Rattle.format.specs.Items.{item_tests};
ghost use Rattle.format.specs.Steps.Wrong.{wrong};

// Items, each with a size of two bytes that counts itself, and two zero bytes exactly at the end.
// The first wrong place, counted from where the list stands at the offset at.
pub fn items_wrong(l: &[u8], at: usize) -> Option<usize>
    requires { at ≤ 8 }
    ensures is { result ≡ wrong (item_tests Items at 0 l.now) }
    ensures inside { IfSome result (λ w. w ≤ at + length l.now) }
    ensures ended { IfNone result (2 ≤ length l.now) }
{
    // The last place where a size can stand. An item that passes it ends the loop too, without the two zero bytes.
    let Some(last) = l.len().checked_sub(2) else {
        return Some(at);
    };
    let mut size: usize = 0;
    // A place and no slice of the rest, by which an item costs nine instructions in place of six.
    let mut p: usize = 0;
    while p <= last {
        size = octets::u16_at(l, p) as usize;
        if size < 2 {
            let ends = (size == 0) & (p == last);
            return (!ends).then_some(at + p);
        }
        p += size;
    }
    // An item that passes the end is wrong itself; else a size is lacking after it.
    Some(if l.len() < p { at + p - size } else { at + p })
}
