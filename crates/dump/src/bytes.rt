// What records are dumped as: bytes, one after another. Numbers are little-endian.

// What takes bytes.
pub trait Sink {
    fn put(&mut self, b: u8);
}

// A lent buffer, and the place of the next byte in it; what does not fit is left off.
#[derive(Drop)]
pub struct Room<'a> {
    pub out: &'a mut [u8],
    pub at: usize,
}

impl Sink for Room<'_> {
    fn put(&mut self, b: u8) {
        if self.at < self.out.len() {
            self.out[self.at] = b;
            self.at += 1;
        }
    }
}

// What can be dumped.
pub trait Dump {
    fn dump<S: Sink>(&self, sink: &mut S);
}

// All elements, one after another.
// Kept, here and in `replay`: what writes and what reads go over an array alike, and share no trait.
impl<T: Dump, const N: usize> Dump for [T; N] {
    fn dump<S: Sink>(&self, sink: &mut S) {
        for x in self {
            x.dump(sink);
        }
    }
}

impl Dump for u8 {
    fn dump<S: Sink>(&self, sink: &mut S) {
        sink.put(*self);
    }
}

impl Dump for bool {
    fn dump<S: Sink>(&self, sink: &mut S) {
        u8::from(*self).dump(sink);
    }
}

impl Dump for u16 {
    fn dump<S: Sink>(&self, sink: &mut S) {
        self.to_le_bytes().dump(sink);
    }
}

// A count in one byte: its remainder by 256.
pub fn low_byte(n: usize) -> u8 {
    (n % 256) as u8
}

// A kind in one byte, then a value of four.
pub fn dump_kind<S: Sink>(kind: u8, value: [u8; 4], sink: &mut S) {
    kind.dump(sink);
    value.dump(sink);
}

// A kind, then a value of one byte in four.
pub fn dump_small<S: Sink>(kind: u8, value: u8, sink: &mut S) {
    dump_kind(kind, [value, 0, 0, 0], sink);
}
