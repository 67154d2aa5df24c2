// Templates of an image (document 01, "The image", part 5): the fields of an out, an in or a read.
ghost use Rattle.std.specs.Prelude.{not, ◌≡◌, ltb};
ghost use Rattle.net.specs.Choice.{implies};
ghost use Rattle.instructions.specs.Instruction.{fresh, kind, pattern, templateField, template};
ghost use Rattle.bitreader.specs.Progress.{Reads};

use bitreader::reader::BitReader;
use net::instruction::{Instruction, Pattern, TemplateField};
use readers::fault::{Fault, require_in};
use sound::soundness::unbound_before;

// Whether a field of that kind may stand in the template: formals are kinds 4 and 5.
#[tactic(auto, unfolding(net::specs::Choice::implies))]
fn allowed(formals: bool, kind: usize) -> bool
    ensures { result ≡ implies (not formals) (ltb kind 4) }
{
    formals || kind < 4
}

// The kind of a field: that of a formal, 4 or 5, only where formals are allowed.
#[tactic(auto, using(bitreader::proofs::ReadsLaws::reading), unfolding(crate::specs::Instruction::kind))]
fn read_kind(r: &mut BitReader, formals: bool) -> Result<usize, Fault>
    ensures { Reads r.old (kind formals) result r.new }
{
    let at = r.place();
    let kind = r.take(3, 0, 6, 25)?;
    require_in(at, 3, allowed(formals, kind), 26)?;
    Ok(kind)
}

// A formal's variable, which no earlier field of the template binds.
#[tactic(auto, using(bitreader::proofs::ReadsLaws::reading), unfolding(crate::specs::Instruction::fresh))]
fn read_fresh(r: &mut BitReader, c: Instruction) -> Result<u8, Fault>
    ensures { Reads r.old (fresh c) result r.new }
{
    let at = r.place();
    let v = r.variable()?;
    require_in(at, 3, unbound_before(c, c.count, v), 27)?;
    Ok(v)
}

// A field of a template: its kind, then what the kind asks for.
fn read_pattern(
    r: &mut BitReader,
    formals: bool,
    n: usize,
    c: Instruction,
) -> Result<Pattern, Fault>
    ensures { Reads r.old (pattern formals n c) result r.new }
{
    match read_kind(r, formals)? {
        0 => Ok(Pattern::Reading(r.reading()?)),
        1 => Ok(Pattern::Address(r.address(n)?)),
        2 => Ok(Pattern::Own),
        3 => Ok(Pattern::Held(r.variable()?)),
        4 => Ok(Pattern::FormalReading(read_fresh(r, c)?)),
        _ => Ok(Pattern::FormalAddress(read_fresh(r, c)?)),
    }
}

// A template: its field count, then its fields.
pub(crate) fn read_template(
    r: &mut BitReader,
    formals: bool,
    n: usize,
) -> Result<Instruction, Fault>
    ensures { Reads r.old (template formals n) result r.new }
{
    let less = r.take(2, 0, 4, 28)?;
    let mut template = Instruction::zero();
    for i in 0..less + 1 {
        let pattern = read_pattern(r, formals, n, template)?;
        template = template.with_pattern(TemplateField { pattern });
    }
    Ok(template)
}
