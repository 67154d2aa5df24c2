// Signed numbers of 32 bits as numbers of 32 bits.
ghost use Rattle.std.specs.Prelude.{◌≡◌, nat_abs};
ghost use Rattle.text.specs.Signed.{complement_of, signed};

// The two's complement.
pub fn complement(x: i32) -> u32
    ensures { result ≡ complement_of x }
{
    if x >= 0 {
        x as u32
    } else {
        let above = -1 - x;
        let rest = above as u32;
        4294967295 - rest
    }
}

// The number whose two's complement this is.
pub fn signed_of(v: u32) -> i32
    ensures { result ≡ signed v }
{
    if v < 2147483648 {
        v as i32
    } else {
        let rest = 4294967295 - v;
        let low = rest as i32;
        -1 - low
    }
}

// How far a number is from nought.
pub fn magnitude(x: i32) -> u32
    ensures { result ≡ nat_abs x }
{
    if x >= 0 {
        x as u32
    } else {
        let above = -1 - x;
        let rest = above as u32;
        rest + 1
    }
}
