// Tuples of the planners' notation: n is the number of addresses.
#![tactic(auto, using(lexemes::proofs::Reading::reads, crate::proofs::FieldLaws::listing), unfolding(crate::specs::Fields::item, crate::specs::Fields::address_item, crate::specs::Fields::reading_item, crate::specs::Fields::tupleField, crate::specs::Fields::tuple))]

ghost use Rattle.net.specs.Records.{zero_tuple};
ghost use Rattle.lexemes.specs.Progress.{Reads};
ghost use Rattle.fields.specs.Fields.{item, tupleField, fields, tuple};

use crate::values::{read_at_address, read_reading};
use lexemes::reader::TextReader;
use net::tuple::{Field, Item, Tuple};
use readers::fault::Fault;

// A field of a tuple, by its first byte.
fn read_item(r: &mut TextReader, n: usize) -> Result<Item, Fault>
    ensures { Reads r.old (item n) result r.new }
{
    if r.peek() == b'@' {
        Ok(Item::Address(read_at_address(r, n)?))
    } else {
        Ok(Item::Reading(read_reading(r)?))
    }
}

// The tuple with the field read here.
fn read_field(r: &mut TextReader, n: usize, t: Tuple) -> Result<Tuple, Fault>
    ensures { Reads r.old (tupleField n t) result r.new }
{
    let item = read_item(r, n)?;
    Ok(t.with_field(Field { item }))
}

// At most four fields, a comma between two.
fn read_items(r: &mut TextReader, n: usize) -> Result<Tuple, Fault>
    ensures { Reads r.old (fields 4 (tupleField n) zero_tuple) result r.new }
{
    let mut t = Tuple::zero();
    for i in 0..4usize {
        t = read_field(r, n, t)?;
        if !r.optional(b',')? {
            return Ok(t);
        }
    }
    Err(Fault::at(22, r.at, 0))
}

// The tuple of a line.
pub fn read_tuple(r: &mut TextReader, n: usize) -> Result<Tuple, Fault>
    ensures { Reads r.old (tuple n) result r.new }
{
    r.byte(b'<')?;
    let t = read_items(r, n)?;
    r.byte(b'>')?;
    Ok(t)
}
