// Bytes written into a lent buffer.
ghost use Rattle.std.specs.Prelude.{[], ◌∷◌};
ghost use Rattle.text.specs.Writing.{Wrote};

// One byte.
pub fn put(out: &mut [u8], at: usize, b: u8) -> usize
    ensures { Wrote out.old at (b ∷ []) out.new result }
{
    if at < out.len() {
        out[at] = b;
        at + 1
    } else {
        out.len() + 1
    }
}

// Bytes, one after another.
pub fn put_bytes(out: &mut [u8], at: usize, bytes: &[u8]) -> usize
    ensures { Wrote out.old at bytes.now out.new result }
{
    let mut next = at;
    let mut i = 0;
    while i < bytes.len() {
        let b = bytes[i];
        next = put(out, next, b);
        i += 1;
    }
    next
}
