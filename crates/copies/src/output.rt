// A lent buffer that is filled from its start on. What is put goes to the place `at`, which then stands after it.
// Both are open to a caller that puts by a loop of its own.
ghost use Rattle.std.specs.Prelude.{◌≡◌, length};
ghost use Rattle.octets.specs.Numbers.{little};
ghost use Rattle.copies.specs.Steps.Writes.{HasRoom, Writes};

#[derive(Drop)]
pub struct Output<'a> {
    pub out: &'a mut [u8],
    pub at: usize,
}

impl<'a> Output<'a> {
    pub fn new(out: &'a mut [u8]) -> Output<'a>
        ensures { result ≡ record { out = out.entry; at = 0 } }
    {
        Output { out, at: 0 }
    }

    // How many bytes were put, which is where the next one goes.
    pub fn at(&self) -> usize
        ensures { result ≡ self.now.at }
    {
        self.at
    }

    // By name for each width: in one `put` the width would have to be said at each literal.
    pub fn put_u8(&mut self, n: u8)
        requires { HasRoom self.old 1 }
        ensures { Writes self.old self.new (little 1 n) 1 }
    {
        self.out[self.at] = n;
        self.at += 1;
    }

    pub fn put_u16(&mut self, n: u16)
        requires { HasRoom self.old 2 }
        ensures { Writes self.old self.new (little 2 n) 2 }
    {
        octets::put_u16(self.out, self.at, n);
        self.at += 2;
    }

    pub fn put_u32(&mut self, n: u32)
        requires { HasRoom self.old 4 }
        ensures { Writes self.old self.new (little 4 n) 4 }
    {
        octets::put_u32(self.out, self.at, n);
        self.at += 4;
    }

    pub fn put_u64(&mut self, n: u64)
        requires { HasRoom self.old 8 }
        ensures { Writes self.old self.new (little 8 n) 8 }
    {
        octets::put_u64(self.out, self.at, n);
        self.at += 8;
    }

    pub fn put_bytes(&mut self, src: &[u8])
        requires { HasRoom self.old (length src.now) }
        ensures { Writes self.old self.new src.now (length src.now) }
    {
        crate::put_bytes(self.out, self.at, src);
        self.at += src.len();
    }
}
