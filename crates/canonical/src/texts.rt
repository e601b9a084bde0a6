// A body, and a string with its terminator. `unicode` is what the file says of the text.
ghost use Rattle.std.specs.Prelude.{◌≡◌, ◌+◌, length, replicate};
ghost use Rattle.octets.specs.Characters.{bytes_of};
ghost use Rattle.copies.specs.Steps.Writes.{HasRoom, Writes};
ghost use Rattle.format.specs.Contents.{bytes_at};
ghost use Rattle.format.specs.Writing.{text_bytes};
ghost use Rattle.canonical.specs.Steps.Puts.{InBuffer};

use copies::output::Output;
use format::Place;

// The bytes of the body at its place in the body buffer d.
pub fn body(d: &[u8], b: Place) -> &[u8]
    requires { InBuffer d.now b }
    ensures is { result.now ≡ bytes_at d.now b }
    ensures long { length result.now ≡ b.len }
{
    let from = b.at;
    let end = from + b.len;
    &d[from..end]
}

// One zero character.
fn put_end(w: &mut Output, unicode: bool)
    requires { HasRoom w.old (bytes_of unicode 1) }
    ensures { Writes w.old w.new (replicate (bytes_of unicode 1) 0) (bytes_of unicode 1) }
{
    if unicode {
        w.put_u16(0);
    } else {
        w.put_u8(0);
    }
}

pub fn put_text(w: &mut Output, unicode: bool, x: &[u8])
    requires { HasRoom w.old (length x.now + bytes_of unicode 1) }
    ensures { Writes w.old w.new (text_bytes unicode x.now) (length x.now + bytes_of unicode 1) }
{
    w.put_bytes(x);
    put_end(w, unicode);
}
