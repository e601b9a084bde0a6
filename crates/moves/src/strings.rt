// A string translated as it is put. `unicode` is a flag of the file that is made.
ghost use Rattle.std.specs.Prelude.{◌≡◌, true, false, ◌+◌, ◌*◌, ◌/◌, ◌≤◌, length};
ghost use Rattle.copies.specs.Steps.Writes.{HasRoom, Writes};
ghost use Rattle.format.specs.Shortcut.{most};
ghost use Rattle.format.specs.Writing.{bytes_of_string};
ghost use Rattle.format.specs.Codepage.{to_units, to_bytes, all_in_table};
ghost use Rattle.moves.specs.Steps.Moves.{translate, translated_size};

use copies::output::Output;

// A byte text as Unicode.
pub fn put_units(w: &mut Output, x: &[u8])
    requires { HasRoom w.old (2 * length x.now) }
    ensures { Writes w.old w.new (to_units x.now) (2 * length x.now) }
{
    w.at = codepage::texts::put_units(w.out, w.at, x);
}

// A Unicode text as bytes.
fn put_bytes(w: &mut Output, x: &[u8])
    requires known { all_in_table x.now ≡ true }
    requires room { HasRoom w.old (length x.now / 2) }
    ensures { Writes w.old w.new (to_bytes x.now) (length x.now / 2) }
{
    w.at = codepage::texts::put_bytes(w.out, w.at, x);
}

fn put_translated(w: &mut Output, unicode: bool, x: &[u8])
    requires known { unicode ≡ false → all_in_table x.now ≡ true }
    requires room { HasRoom w.old (translated_size unicode (length x.now)) }
    ensures { Writes w.old w.new (translate unicode x.now) (translated_size unicode (length x.now)) }
{
    if unicode {
        put_units(w, x);
    } else {
        put_bytes(w, x);
    }
}

// Its count, which stays, and the characters.
pub fn put_string(w: &mut Output, unicode: bool, x: &[u8])
    requires known { unicode ≡ false → all_in_table x.now ≡ true }
    requires room { HasRoom w.old (translated_size unicode (length x.now) + 2) }
    requires few { translated_size unicode (length x.now) + 2 ≤ most }
    ensures { Writes w.old w.new
        (bytes_of_string unicode (translate unicode x.now))
        (translated_size unicode (length x.now) + 2) }
{
    let n = x.len();
    let count = canonical::characters_in(!unicode, n);
    w.put_u16(count as u16);
    put_translated(w, unicode, x);
}
