// Numbers written into a lent buffer in plain decimal.
ghost use Rattle.std.specs.Prelude.{◌<◌, [], ◌∷◌};
ghost use Rattle.text.specs.Decimal.{digit, decimal, signed_decimal};
ghost use Rattle.text.specs.Writing.{Wrote};

use crate::signed::magnitude;
use crate::writing::put;

// A digit.
fn put_digit(out: &mut [u8], at: usize, n: usize) -> usize
    requires { n < 10 }
    ensures { Wrote out.old at (digit n ∷ []) out.new result }
{
    let b = n as u8;
    put(out, at, 48 + b)
}

// A number.
pub fn put_decimal(out: &mut [u8], at: usize, n: usize) -> usize
    ensures { Wrote out.old at (decimal n) out.new result }
{
    if n < 10 {
        put_digit(out, at, n)
    } else {
        let next = put_decimal(out, at, n / 10);
        put_digit(out, next, n % 10)
    }
}

// A number after a mark, as a minus or a space.
pub fn put_marked(out: &mut [u8], at: usize, mark: u8, n: usize) -> usize
    ensures { Wrote out.old at (mark ∷ decimal n) out.new result }
{
    let next = put(out, at, mark);
    put_decimal(out, next, n)
}

// A signed number.
pub fn put_signed(out: &mut [u8], at: usize, x: i32) -> usize
    ensures { Wrote out.old at (signed_decimal x) out.new result }
{
    let n = magnitude(x);
    if x >= 0 {
        put_decimal(out, at, n as usize)
    } else {
        put_marked(out, at, 45, n as usize)
    }
}
