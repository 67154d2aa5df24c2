// The end of an image (document 01, "The image", part 6).
ghost use Rattle.std.specs.Prelude.{◌≡◌};
ghost use Rattle.bitreader.specs.Ending.{ends_at, ending};
ghost use Rattle.bitreader.specs.Progress.{Reads};

use crate::bits::number;
use crate::reader::BitReader;
use readers::fault::{Fault, require_in};

impl<'a> BitReader<'a> {
    // Whether the image ends with the byte of the bit before the next one, in zero bits.
    fn ends(&self) -> bool
        ensures { result ≡ ends_at self.now.image.now self.now.at }
    {
        let p = self.at;
        if 8 * self.image.len() < p {
            return false;
        }
        self.image.len() == (p + 7) / 8 && number(self.image, p, (8 - p % 8) % 8) == 0
    }

    // Zero bits to the end of the byte, and no further byte.
    #[tactic(auto, unfolding(crate::specs::Ending::ending))]
    pub fn ending(&mut self) -> Result<(), Fault>
        ensures { Reads self.old ending result self.new }
    {
        require_in(self.at, 0, self.ends(), 29)
    }
}
