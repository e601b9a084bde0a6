// A text shown part after part through a window, so that a buffer of any length gets any piece of it.
ghost use Rattle.std.specs.Prelude.{◌≡◌, ◌≤◌, ◌<◌, ◌∷◌, [], length};
ghost use Rattle.lines.specs.Text.{decimal, hex_digit, hex_of, verdict_line};

use format::Verdict;

// The buffer, how far it is filled, and how many bytes of the text are still to be passed over. Where it stands is kept from one call to the next.
#[derive(Drop)]
pub(crate) struct Window<'a> {
    out: &'a mut [u8],
    at: usize,
    skip: usize,
    ghost within: { at ≤ length out.now },
}

// Not the library's `hex`, which fills a row of 16 bytes for the two digits.
fn hex_digit(x: u8) -> u8
    requires { x < 16 }
    ensures { result ≡ hex_digit x }
{
    if x < 10 {
        return b'0' + x;
    }
    b'a' + (x - 10)
}

impl<'a> Window<'a> {
    ghost use Rattle.lines.specs.Steps.Windows.{Showed};

    // The text's piece from this place on is to go to the start of the buffer.
    pub(crate) fn new(out: &'a mut [u8], from: usize) -> Window<'a>
        ensures out { result.out ≡ out.entry }
        ensures at { result.at ≡ 0 }
        ensures skip { result.skip ≡ from }
    {
        Window {
            out,
            at: 0,
            skip: from,
        }
    }

    // How many bytes of the buffer are filled.
    pub(crate) fn filled(&self) -> usize
        ensures { result ≡ self.now.at }
    {
        self.at
    }

    // The next part of the text: what is to be passed over is left out, and so is what has no room.
    pub(crate) fn show(&mut self, text: &[u8])
        ensures { Showed self.old text.now self.new }
    {
        if text.len() <= self.skip {
            self.skip -= text.len();
            return;
        }
        let rest = &text[self.skip..];
        self.skip = 0;
        let n = rest.len().min(self.out.len() - self.at);
        copies::put_bytes(self.out, self.at, &rest[..n]);
        self.at += n;
    }

    pub(crate) fn decimal(&mut self, n: u64)
        ensures { Showed self.old (decimal n) self.new }
    {
        let mut text = [0u8; 20];
        let k = io::decimal(n, &mut text);
        self.show(&text[..k]);
    }

    fn byte(&mut self, x: u8)
        ensures { Showed self.old (hex_of (x ∷ [])) self.new }
    {
        self.show(&[hex_digit(x / 16), hex_digit(x % 16)]);
    }

    pub(crate) fn hex(&mut self, bytes: &[u8])
        ensures { Showed self.old (hex_of bytes.now) self.new }
    {
        for x in bytes {
            self.byte(*x);
        }
    }

    pub(crate) fn verdict(&mut self, v: Verdict)
        ensures { Showed self.old (verdict_line v) self.new }
    {
        match v {
            Ok(n) => {
                self.show(b"ok ");
                self.decimal(n as u64);
                self.show(b"\n");
            }
            Err(r) => {
                self.show(b"refused ");
                self.decimal(format::number_of(r.fault) as u64);
                self.show(b" ");
                self.decimal(r.position as u64);
                self.show(b"\n");
            }
        }
    }
}
