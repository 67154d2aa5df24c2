// Fractions, and the best of several.
ghost use Rattle.std.specs.Prelude.{◌*◌, ◌/◌, ◌≡◌, Some};
ghost use Rattle.season.specs.Fractions.{greatest_divisor, lowest, larger, against, considered};

// A fraction, reduced or not.
#[derive(Clone, Copy)]
pub struct Fraction {
    pub numerator: u32,
    pub denominator: u32,
}

// Euclid: the second number falls in each turn.
fn greatest_divisor(a: u32, b: u32) -> u32
    ensures { result ≡ greatest_divisor a b }
{
    let mut x = a;
    let mut y = b;
    while y > 0 {
        let rest = x % y;
        x = y;
        y = rest;
    }
    x
}

// The whole part of a quotient: nought over nought.
fn quotient(n: u32, d: u32) -> u32
    ensures { result ≡ n / d }
{
    if d > 0 { n / d } else { 0 }
}

fn product(a: u32, b: u32) -> u64
    ensures { result ≡ a * b }
{
    a as u64 * b as u64
}

impl Fraction {
    // In lowest terms.
    pub fn lowest(n: u32, d: u32) -> Fraction
        ensures { result ≡ lowest n d }
    {
        let divisor = greatest_divisor(n, d);
        let numerator = quotient(n, divisor);
        let denominator = quotient(d, divisor);
        Fraction {
            numerator,
            denominator,
        }
    }

    // Whether it is larger than another, by the cross products.
    fn larger(self, y: Fraction) -> bool
        ensures { result ≡ larger self y }
    {
        let ours = product(self.numerator, y.denominator);
        let theirs = product(y.numerator, self.denominator);
        theirs < ours
    }
}

// The better of two, by their numbers: the second, which is the earlier, on a tie.
fn better(i: u16, x: Fraction, j: u16, y: Fraction) -> Option<(u16, Fraction)>
    ensures { result ≡ against i x (Some (j, y)) }
{
    if x.larger(y) {
        Some((i, x))
    } else {
        Some((j, y))
    }
}

// The best so far, by its number from 1 and its fraction, with one more, of number i.
fn against(best: Option<(u16, Fraction)>, i: u16, x: Fraction) -> Option<(u16, Fraction)>
    ensures { result ≡ against i x best }
{
    match best {
        None => Some((i, x)),
        Some((j, y)) => better(i, x, j, y),
    }
}

// The best with one more, of number i, which is passed over where its denominator is nought.
pub fn consider(best: Option<(u16, Fraction)>, i: u16, x: Fraction) -> Option<(u16, Fraction)>
    ensures { result ≡ considered i x best }
{
    if x.denominator == 0 {
        best
    } else {
        against(best, i, x)
    }
}
