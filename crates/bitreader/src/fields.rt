// Fields that stand in several places of an image (document 01, "The image").
ghost use Rattle.std.specs.Prelude.{◌^◌, ◌<◌, ◌≤◌, IfOk};
ghost use Rattle.bitreader.specs.BitReader.{field};
ghost use Rattle.bitreader.specs.Fields.{address, place, variable, reading};
ghost use Rattle.bitreader.specs.Progress.{Reads};

use crate::bits::number;
use crate::reader::BitReader;
use net::locality::{Locality, Place};
use readers::fault::Fault;
use text::signed::signed_of;

impl<'a> BitReader<'a> {
    // A field: the number of the next w bits, from low up to below end, or the fault n, or 28.
    pub fn take(&mut self, w: usize, low: usize, end: usize, n: u8) -> Result<usize, Fault>
        requires { w ≤ 32 }
        ensures field { Reads self.old (field w low end n) result self.new }
        ensures range { IfOk result (λ v. (v < 2 ^ w) × (v < end)) }
    {
        let p = self.at;
        let bits = self.image.len() * 8;
        if bits < p || bits - p < w {
            return Err(Fault::at(28, p, w));
        }
        let v = number(self.image, p, w);
        if v < low || end <= v {
            return Err(Fault::at(n, p, w));
        }
        self.at = p + w;
        Ok(v)
    }

    // An address of 4 bits, below the address count n.
    #[tactic(auto, using(crate::proofs::ReadsLaws::reading), unfolding(crate::specs::Fields::address))]
    pub fn address(&mut self, n: usize) -> Result<Locality, Fault>
        ensures { Reads self.old (address n) result self.new }
    {
        let l = self.take(4, 0, n, 23)?;
        Ok(Locality(l as u8))
    }

    // A code place of 9 bits, below the code length k.
    #[tactic(auto, using(crate::proofs::ReadsLaws::reading), unfolding(crate::specs::Fields::place))]
    pub fn code_place(&mut self, k: usize) -> Result<Place, Fault>
        ensures { Reads self.old (place k) result self.new }
    {
        let p = self.take(9, 0, k, 24)?;
        Ok(Place(p as u16))
    }

    // A variable of 3 bits.
    #[tactic(auto, using(crate::proofs::ReadsLaws::reading), unfolding(crate::specs::Fields::variable, crate::specs::BitReader::bits))]
    pub fn variable(&mut self) -> Result<u8, Fault>
        ensures { Reads self.old variable result self.new }
    {
        let v = self.take(3, 0, 8, 28)?;
        Ok(v as u8)
    }

    // A reading of 32 bits.
    #[tactic(auto, using(crate::proofs::ReadsLaws::reading), unfolding(crate::specs::Fields::reading, crate::specs::BitReader::bits))]
    pub fn reading(&mut self) -> Result<i32, Fault>
        ensures { Reads self.old reading result self.new }
    {
        let bits = self.take(32, 0, 4294967296, 28)?;
        Ok(signed_of(bits as u32))
    }
}
