// Numbers of the planners' notation: plain decimal, with no leading zeros.
#![tactic(auto, using(crate::proofs::Reading::reads, crate::proofs::Reading::turned), unfolding(crate::specs::Lexemes::is_digit, net::specs::Choice::both, crate::specs::Lexemes::digit, crate::specs::Lexemes::digit_of, crate::specs::Lexemes::longer, crate::specs::Lexemes::another, crate::specs::Lexemes::rest, crate::specs::Lexemes::number))]

ghost use Rattle.std.specs.Prelude.{◌≤◌, ◌≡◌, IfOk};
ghost use Rattle.lexemes.specs.Lexemes.{is_digit, digit, longer, another, rest, number};
ghost use Rattle.lexemes.specs.Progress.{Reads};

use crate::reader::TextReader;
use readers::fault::Fault;

// Whether a byte is a digit.
pub fn is_digit(b: u8) -> bool
    ensures { result ≡ is_digit b }
{
    48 <= b && b <= 57
}

impl<'a> TextReader<'a> {
    // A digit.
    fn digit(&mut self) -> Result<usize, Fault>
        ensures read { Reads self.old digit result self.new }
        ensures range { IfOk result (λ v. v ≤ 9) }
    {
        let b = self.peek();
        if is_digit(b) {
            self.byte(b)?;
            Ok((b - 48) as usize)
        } else {
            Err(Fault::at(31, self.at, 0))
        }
    }

    // One digit more after the number v.
    fn longer(&mut self, limit: usize, v: usize) -> Result<usize, Fault>
        requires { (v ≤ limit) × (limit ≤ 4294967295) }
        ensures read { Reads self.old (longer limit v) result self.new }
        ensures range { IfOk result (λ v. v ≤ limit) }
    {
        let d = self.digit()?;
        let more = v * 10 + d;
        self.require((1 <= v) & (more <= limit), 31)?;
        Ok(more)
    }

    // The next digit, where there is one.
    fn another(&mut self, limit: usize, v: usize) -> Result<usize, Fault>
        requires { (v ≤ limit) × (limit ≤ 4294967295) }
        ensures read { Reads self.old (another limit 0 v) result self.new }
        ensures range { IfOk result (λ v. v ≤ limit) }
    {
        if is_digit(self.peek()) {
            self.longer(limit, v)
        } else {
            Ok(v)
        }
    }

    // The digits after the first.
    fn rest(&mut self, limit: usize, first: usize) -> Result<usize, Fault>
        requires { (first ≤ limit) × (limit ≤ 4294967295) }
        ensures read { Reads self.old (rest limit first) result self.new }
        ensures range { IfOk result (λ v. v ≤ limit) }
    {
        let mut v = first;
        for i in 0..10usize {
            v = self.another(limit, v)?;
        }
        Ok(v)
    }

    // A number up to a limit.
    pub fn number(&mut self, limit: u32) -> Result<usize, Fault>
        ensures read { Reads self.old (number limit) result self.new }
        ensures range { IfOk result (λ v. v ≤ limit) }
    {
        let limit = limit as usize;
        let first = self.digit()?;
        self.require(first <= limit, 31)?;
        self.rest(limit, first)
    }
}
