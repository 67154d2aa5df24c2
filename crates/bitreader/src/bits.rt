// Bits and numbers of an image (document 01, "The image").
ghost use Rattle.std.specs.Prelude.{◌+◌, ◌*◌, ◌<◌, ◌≤◌};
ghost use Rattle.bitreader.specs.Window.{window};
ghost use Rattle.bitreader.specs.Progress.{Bit, Number};

// The bit at place p: 0 past the end.
fn bit(s: &[u8], p: usize) -> usize
    requires { p < 8 * window }
    ensures { Bit s.now p result }
{
    let i = p / 8;
    if i < s.len() {
        let b = s[i] as usize;
        let k = 7 - p % 8;
        let high = b >> k;
        high % 2
    } else {
        0
    }
}

// The number that the w bits from place p write.
pub(crate) fn number(s: &[u8], p: usize, w: usize) -> usize
    requires { (w ≤ 32) × (p + w ≤ 8 * window) }
    ensures { Number s.now p w result }
{
    let mut v = 0;
    for i in 0..w {
        v = v * 2 + bit(s, p + i);
    }
    v
}
