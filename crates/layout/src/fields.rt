// Fields that stand in several places of an image.
#![tactic(auto, using(text::proofs::WriterLaws::writing), unfolding(written::specs::ImageOf::address_bits, written::specs::ImageOf::place_bits, written::specs::ImageOf::variable_bits, written::specs::ImageOf::reading_bits))]

ghost use Rattle.std.specs.Prelude.{◌≡◌};
ghost use Rattle.text.specs.Writer.{after};
ghost use Rattle.written.specs.ImageOf.{address_bits, place_bits, variable_bits, reading_bits};

use crate::bits::put_number;
use net::locality::{Locality, Place};
use text::signed::complement;
use text::writer::Writer;

// Kept: an address, a place and a variable in a function each: one call with its width; a width as a parameter is no
// plainer.

// An address.
pub fn put_address(out: &mut Writer<'_, bool>, l: Locality)
    ensures { out.new ≡ after out.old (address_bits l) }
{
    put_number(out, 4, usize::from(l.0));
}

// A code place.
pub fn put_place(out: &mut Writer<'_, bool>, p: Place)
    ensures { out.new ≡ after out.old (place_bits p) }
{
    put_number(out, 9, usize::from(p.0));
}

// A variable.
pub fn put_variable(out: &mut Writer<'_, bool>, v: u8)
    ensures { out.new ≡ after out.old (variable_bits v) }
{
    put_number(out, 3, usize::from(v));
}

// A reading.
pub fn put_reading(out: &mut Writer<'_, bool>, x: i32)
    ensures { out.new ≡ after out.old (reading_bits x) }
{
    put_number(out, 32, complement(x) as usize);
}
