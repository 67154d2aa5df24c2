// A writer: a lent buffer and the place in it to write at.
ghost use Rattle.std.specs.Prelude.{◌≡◌, ◌<◌, [], ◌∷◌, false};
ghost use Rattle.text.specs.Decimal.{digit, decimal, signed_decimal};
ghost use Rattle.text.specs.Writer.{after, written};

// Writes elements one after another. What no longer fits is left away, and the writer is full from then on.
#[derive(Drop)]
pub struct Writer<'a, T> {
    out: &'a mut [T],
    at: usize,
    full: bool,
}

impl<'a, T: Copy> Writer<'a, T> {
    // A writer from the buffer's start.
    pub fn new(out: &'a mut [T]) -> Writer<'a, T>
        ensures same { result.out.ghost_name ≡ out.entry.ghost_name }
        ensures now { result.out.now ≡ out.old }
        ensures at { result.at ≡ 0 }
        ensures full { result.full ≡ false }
    {
        Writer::starting_at(out, 0)
    }

    // A writer from a place of the buffer, which may be past its end.
    pub fn starting_at(out: &'a mut [T], at: usize) -> Writer<'a, T>
        ensures same { result.out.ghost_name ≡ out.entry.ghost_name }
        ensures now { result.out.now ≡ out.old }
        ensures at { result.at ≡ at }
        ensures full { result.full ≡ false }
    {
        let full = false;
        Writer { out, at, full }
    }

    // How much is written, where all of it fitted.
    pub fn written(&self) -> Option<usize>
        ensures { result ≡ written self.now }
    {
        if self.full { None } else { Some(self.at) }
    }

    // An element.
    pub fn put(&mut self, x: T)
        ensures { self.new ≡ after self.old (x ∷ []) }
    {
        if self.at < self.out.len() {
            self.out[self.at] = x;
            self.at += 1;
        } else {
            self.full = true;
        }
    }

    // Elements, one after another.
    pub fn put_all(&mut self, xs: &[T])
        ensures { self.new ≡ after self.old xs.now }
    {
        for x in xs {
            self.put(*x);
        }
    }
}

impl<'a> Writer<'a, u8> {
    // A number below 10, by its digit.
    fn digit(&mut self, n: usize)
        requires { n < 10 }
        ensures { self.new ≡ after self.old (digit n ∷ []) }
    {
        self.put(b'0' + n as u8);
    }

    // A number in plain decimal.
    pub fn decimal(&mut self, n: usize)
        ensures { self.new ≡ after self.old (decimal n) }
    {
        if n >= 10 {
            self.decimal(n / 10);
        }
        self.digit(n % 10);
    }

    // A signed number in plain decimal, with a minus below nought.
    pub fn signed_decimal(&mut self, x: i32)
        ensures { self.new ≡ after self.old (signed_decimal x) }
    {
        if x < 0 {
            self.put(b'-');
        }
        self.decimal(x.unsigned_abs() as usize);
    }
}
