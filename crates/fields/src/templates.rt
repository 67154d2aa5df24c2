// Templates and targets of the planners' notation: n is the number of addresses.
#![tactic(auto, using(lexemes::proofs::Reading::reads, crate::proofs::FieldLaws::listing), unfolding(crate::specs::Fields::fresh, crate::specs::Fields::bound, crate::specs::Fields::formal_reading, crate::specs::Fields::formal_address, crate::specs::Fields::formal, crate::specs::Fields::pattern, crate::specs::Fields::address_pattern, crate::specs::Fields::own_pattern, crate::specs::Fields::held_pattern, crate::specs::Fields::reading_pattern, crate::specs::Fields::templateField, crate::specs::Fields::template, crate::specs::Fields::target, crate::specs::Fields::own_target, crate::specs::Fields::held_target, crate::specs::Fields::written_target))]

ghost use Rattle.lexemes.specs.Progress.{Reads};
ghost use Rattle.fields.specs.Fields.{fresh, bound, formal, pattern, templateField, template, target};

use crate::values::{
    read_address, read_at_address, read_held, read_own, read_reading, read_variable,
};
use lexemes::reader::TextReader;
use net::instruction::{Instruction, Pattern, Target, TemplateField};
use readers::fault::Fault;
use sound::soundness::unbound_before;

// A formal's variable, which no earlier field of the template binds.
fn read_fresh(r: &mut TextReader, c: Instruction) -> Result<u8, Fault>
    ensures { Reads r.old (fresh c) result r.new }
{
    let v = read_variable(r)?;
    r.require(unbound_before(c, c.count, v), 27)?;
    Ok(v)
}

// What a formal binds, by its first byte.
fn read_bound(r: &mut TextReader, c: Instruction) -> Result<Pattern, Fault>
    ensures { Reads r.old (bound c) result r.new }
{
    if r.peek() == b'x' {
        r.byte(b'x')?;
        Ok(Pattern::FormalReading(read_fresh(r, c)?))
    } else {
        r.byte(b'u')?;
        Ok(Pattern::FormalAddress(read_fresh(r, c)?))
    }
}

// A formal, where they are allowed.
fn read_formal(r: &mut TextReader, formals: bool, c: Instruction) -> Result<Pattern, Fault>
    ensures { Reads r.old (formal formals c) result r.new }
{
    r.require(formals, 26)?;
    r.byte(b'!')?;
    read_bound(r, c)
}

// A field of a template, by its first byte.
fn read_pattern(
    r: &mut TextReader,
    formals: bool,
    n: usize,
    c: Instruction,
) -> Result<Pattern, Fault>
    ensures { Reads r.old (pattern formals n c) result r.new }
{
    match r.peek() {
        b'!' => read_formal(r, formals, c),
        b'@' => Ok(Pattern::Address(read_at_address(r, n)?)),
        b's' => {
            read_own(r)?;
            Ok(Pattern::Own)
        }
        b'v' => Ok(Pattern::Held(read_held(r)?)),
        _ => Ok(Pattern::Reading(read_reading(r)?)),
    }
}

// The template with the field read here.
fn read_field(
    r: &mut TextReader,
    formals: bool,
    n: usize,
    c: Instruction,
) -> Result<Instruction, Fault>
    ensures { Reads r.old (templateField formals n c) result r.new }
{
    let pattern = read_pattern(r, formals, n, c)?;
    Ok(c.with_pattern(TemplateField { pattern }))
}

// The fields of an out, an in or a read, at most four, a comma between two.
// Kept: this loop, that of tuples.rt and that of sets.rt each follow a definition; one that takes a closure is no
// plainer.
pub fn read_template(r: &mut TextReader, formals: bool, n: usize) -> Result<Instruction, Fault>
    ensures { Reads r.old (template formals n) result r.new }
{
    let mut c = Instruction::zero();
    for i in 0..4usize {
        c = read_field(r, formals, n, c)?;
        if !r.optional(b',')? {
            return Ok(c);
        }
    }
    Err(Fault::at(22, r.at, 0))
}

// A target, by its first byte.
pub fn read_target(r: &mut TextReader, n: usize) -> Result<Target, Fault>
    ensures { Reads r.old (target n) result r.new }
{
    match r.peek() {
        b's' => {
            read_own(r)?;
            Ok(Target::Own)
        }
        b'v' => Ok(Target::Held(read_held(r)?)),
        _ => Ok(Target::Written(read_address(r, n)?)),
    }
}
