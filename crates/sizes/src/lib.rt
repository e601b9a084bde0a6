// How many bytes each body has in the shortest form, with those beside it, and the heads before them (FORMAT: Canonical length): computed once for a write.
// A length greater than the most that a shortcut has counts as one more than that, so that no sum can wrap.
#![tactic(auto)]

ghost use Rattle.std.specs.Prelude.{◌≡◌, cond, ◌+◌, ◌^◌, ◌≤◌, ◌<◌, sum};
ghost use Rattle.format.specs.Bodies.{written_head};
ghost use Rattle.format.specs.Steps.Lengths.{volume_part, network_part, written_heads};
ghost use Rattle.format.specs.Steps.Shape.{shape_of};
ghost use Rattle.sizes.specs.Steps.Sizes.{capped, besides_of, sizes_of, clipped_length};

use format::{Link, Place, Record, Shape};

// ---- the bodies

// `capped` in stores is the same call with another limit and definition.
#[tactic(auto, unfolding(crate::specs::Steps::Sizes::capped))]
fn clipped(n: usize) -> u32
    ensures { result ≡ capped n }
{
    n.min(65537) as u32
}

// The bytes beside each body.
fn besides(unicode: bool) -> [u32; 17]
    ensures { result ≡ besides_of unicode }
{
    let label: u32 = if unicode { 2 } else { 1 };
    [4, label, 1, 1, 1, 2, 2, 1, 2, 2, 2, 2, 2, 2, 2, 4, 0]
}

// Presence is a fact of the record, which has the place either way.
#[tactic(auto, using(crate::proofs::SizeLaws::few))]
fn size(there: bool, b: Place, beside: u32) -> u32
    requires { beside ≤ 4 }
    ensures { result ≡ cond there (capped b.len + beside) 0 }
{
    if there { clipped(b.len) + beside } else { 0 }
}

// The size of each slot as written; 0 where nothing is there, since whoever asks adds them.
pub fn sizes_of(q: Record, s: Shape) -> [u32; 17]
    requires { s ≡ shape_of q.header.flags q.link }
    ensures { result ≡ sizes_of q }
{
    let row = q.places;
    let beside = besides(q.link.label_unicode);
    let mut sizes = [0u32; 17];
    for (k, x) in sizes.iter_mut().enumerate() {
        *x = size(s[k].there, row[k], beside[k]);
    }
    sizes
}

// ---- the heads

// LinkInfo's own, without its further bytes.
pub fn info_head(long: bool) -> u32
    ensures { result ≡ written_head long }
{
    if long { 0x24 } else { 0x1C }
}

// VolumeID's head, if it is there.
pub fn volume_part(l: Link) -> u32
    ensures { result ≡ volume_part l }
{
    format::number_if(
        format::local_there(l.flags),
        format::label_least(l.label_unicode),
    )
}

// The network link's, if that is there.
pub fn network_part(l: Link) -> u32
    ensures { result ≡ network_part l }
{
    format::number_if(
        format::network_there(l.flags),
        format::network_head(l.network_unicode),
    )
}

// ---- the whole

fn heads(q: Record) -> u32
    ensures { result ≡ written_heads q }
{
    let l = q.link;
    let parts = info_head(l.long) + volume_part(l) + network_part(l);
    format::number_if(format::info_there(q.header.flags), parts)
}

// What all sizes add up to.
fn total(sizes: &[u32; 17]) -> u32
    requires { sum sizes.now < 2 ^ 32 }
    ensures { result ≡ sum sizes.now }
{
    sizes.iter().sum()
}

// The header, the heads and all sizes. These are a row beside the record: a struct would be made for this one call.
#[tactic(auto, using(crate::proofs::SizeLaws::same_sum, crate::proofs::SizeLaws::few_heads, crate::proofs::SizeLaws::few_sizes), unfolding(crate::specs::Steps::Sizes::clipped_length))]
pub fn end_of(q: Record, sizes: [u32; 17]) -> u32
    requires { sizes ≡ sizes_of q }
    ensures { result ≡ clipped_length q }
{
    76 + heads(q) + total(&sizes)
}
