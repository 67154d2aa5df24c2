// The text reader (document 01, "The planners' notation"): bytes and words, from a place on.
ghost use Rattle.std.specs.Prelude.{◌≡◌, true, IfOk};
ghost use Rattle.readers.specs.Reader.{require};
ghost use Rattle.lexemes.specs.Lexemes.{byte_at, byte, word, optional};
ghost use Rattle.lexemes.specs.Progress.{Reads};

use readers::fault::{Fault, require_in};

// The bytes of a text, and the place of the next one.
#[derive(Clone, Copy)]
pub struct TextReader<'a> {
    pub text: &'a [u8],
    pub at: usize,
}

impl<'a> TextReader<'a> {
    // The reader of a text, at its first byte.
    pub fn new(text: &'a [u8]) -> TextReader<'a>
        ensures first { result.at ≡ 0 }
        ensures bytes { result.text.now ≡ text.now }
    {
        TextReader { text, at: 0 }
    }

    // The byte that is next; 0 past the end.
    #[tactic(auto, unfolding(crate::specs::Lexemes::byte_at))]
    pub fn peek(&self) -> u8
        ensures { result ≡ byte_at self.now.text.now self.now.at }
    {
        if self.at < self.text.len() {
            self.text[self.at]
        } else {
            0
        }
    }

    // The fault n, unless the test holds.
    #[tactic(auto, unfolding(readers::specs::Reader::require, readers::specs::Reader::require_in, net::specs::Choice::choose, readers::specs::Progress::came))]
    pub fn require(&self, ok: bool, n: u8) -> Result<(), Fault>
        ensures read { Reads self.now (require ok n) result self.now }
        ensures passed { IfOk result (λ _. ok ≡ true) }
    {
        require_in(self.at, 0, ok, n)
    }

    // The byte c.
    #[tactic(auto, unfolding(crate::specs::Lexemes::byte, crate::specs::Lexemes::byte_at, net::specs::Choice::both, net::specs::Choice::choose, readers::specs::Progress::came))]
    pub fn byte(&mut self, c: u8) -> Result<(), Fault>
        ensures { Reads self.old (byte c) result self.new }
    {
        if self.at < self.text.len() && self.text[self.at] == c {
            self.at += 1;
            Ok(())
        } else {
            Err(Fault::at(31, self.at, 0))
        }
    }

    // The bytes of a word.
    #[tactic(auto, using(crate::proofs::Reading::spelled))]
    pub fn word(&mut self, bytes: &[u8]) -> Result<(), Fault>
        ensures { Reads self.old (word bytes.now) result self.new }
    {
        for c in bytes {
            self.byte(*c)?;
        }
        Ok(())
    }

    // Whether the byte c is next; it is read where it is.
    #[tactic(auto, using(crate::proofs::Reading::reads), unfolding(crate::specs::Lexemes::optional, crate::specs::Lexemes::present))]
    pub fn optional(&mut self, c: u8) -> Result<bool, Fault>
        ensures { Reads self.old (optional c) result self.new }
    {
        if self.peek() == c {
            self.byte(c)?;
            Ok(true)
        } else {
            Ok(false)
        }
    }
}
