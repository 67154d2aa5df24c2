// Instructions of an image (document 01, "The image", part 5; document 02, slip 11).
ghost use Rattle.std.specs.Prelude.{◌≡◌};
ghost use Rattle.instructions.specs.Instruction.{target, evaluation, creation};
ghost use Rattle.instructions.specs.Instruction.{forking, group, spreading, actions_in, instruction};
ghost use Rattle.instructions.specs.Progress.{parts};
ghost use Rattle.bitreader.specs.Progress.{Reads};

use crate::template::read_template;
use bitreader::reader::BitReader;
use net::instruction::{Action, Instruction, Target};
use net::locality::{Group, Place};
use readers::fault::{Fault, require_in};
use sound::groups::group_sound;

// A target: its kind, then an address, nothing or a variable.
fn read_target(r: &mut BitReader, n: usize) -> Result<Target, Fault>
    ensures { Reads r.old (target n) result r.new }
{
    match r.take(2, 0, 3, 25)? {
        0 => Ok(Target::Written(r.address(n)?)),
        1 => Ok(Target::Own),
        _ => Ok(Target::Held(r.variable()?)),
    }
}

// Target, template and next place of an out, an in or a read.
#[tactic(auto, using(bitreader::proofs::ReadsLaws::reading), unfolding(crate::specs::Progress::parts))]
fn read_parts(
    r: &mut BitReader,
    formals: bool,
    n: usize,
    k: usize,
) -> Result<(Target, Instruction, Place), Fault>
    ensures { Reads r.old (parts formals n k) result r.new }
{
    let target = read_target(r, n)?;
    let template = read_template(r, formals, n)?;
    let place = r.code_place(k)?;
    Ok((target, template, place))
}

// Target, sent place and next place.
#[tactic(auto, using(bitreader::proofs::ReadsLaws::reading), unfolding(crate::specs::Instruction::evaluation))]
fn read_eval(r: &mut BitReader, n: usize, k: usize) -> Result<Instruction, Fault>
    ensures { Reads r.old (evaluation n k) result r.new }
{
    let target = read_target(r, n)?;
    let sent = r.code_place(k)?;
    let place = r.code_place(k)?;
    Ok(Instruction::zero().with_action(Action::Eval(target, sent, place)))
}

// Variable and next place.
#[tactic(auto, using(bitreader::proofs::ReadsLaws::reading), unfolding(crate::specs::Instruction::creation))]
fn read_new(r: &mut BitReader, k: usize) -> Result<Instruction, Fault>
    ensures { Reads r.old (creation k) result r.new }
{
    let variable = r.variable()?;
    let place = r.code_place(k)?;
    Ok(Instruction::zero().with_action(Action::New(variable, place)))
}

// Two places.
#[tactic(auto, using(bitreader::proofs::ReadsLaws::reading), unfolding(crate::specs::Instruction::forking))]
fn read_fork(r: &mut BitReader, k: usize) -> Result<Instruction, Fault>
    ensures { Reads r.old (forking k) result r.new }
{
    let one = r.code_place(k)?;
    let other = r.code_place(k)?;
    Ok(Instruction::zero().with_action(Action::Fork(one, other)))
}

// A set of addresses, each of them below the address count.
#[tactic(auto, using(bitreader::proofs::ReadsLaws::reading), unfolding(crate::specs::Instruction::group, bitreader::specs::BitReader::bits))]
fn read_group(r: &mut BitReader, n: usize) -> Result<Group, Fault>
    ensures { Reads r.old (group n) result r.new }
{
    let at = r.place();
    let v = r.take(16, 0, 65536, 28)?;
    let group = Group(v as u16);
    require_in(at, 16, group_sound(n, group), 23)?;
    Ok(group)
}

// A set, template and next place.
#[tactic(auto, using(bitreader::proofs::ReadsLaws::reading), unfolding(crate::specs::Instruction::spreading))]
fn read_spread(r: &mut BitReader, n: usize, k: usize) -> Result<Instruction, Fault>
    ensures { Reads r.old (spreading n k) result r.new }
{
    let group = read_group(r, n)?;
    let template = read_template(r, false, n)?;
    let place = r.code_place(k)?;
    Ok(template.with_action(Action::OutAll(group, place)))
}

// How many actions a format has.
#[tactic(auto, unfolding(crate::specs::Instruction::actions_in, net::specs::Choice::choose))]
fn actions_in(f: usize) -> usize
    ensures { result ≡ actions_in f }
{
    if f == 1 { 7 } else { 8 }
}

// An instruction: its action, then the action's own fields.
pub fn read_instruction(
    r: &mut BitReader,
    f: usize,
    n: usize,
    k: usize,
) -> Result<Instruction, Fault>
    ensures { Reads r.old (instruction f n k) result r.new }
{
    match r.take(3, 0, actions_in(f), 25)? {
        0 => Ok(Instruction::zero()),
        1 => {
            let (target, template, place) = read_parts(r, false, n, k)?;
            Ok(template.with_action(Action::Out(target, place)))
        }
        2 => {
            let (target, template, place) = read_parts(r, true, n, k)?;
            Ok(template.with_action(Action::In(target, place)))
        }
        3 => {
            let (target, template, place) = read_parts(r, true, n, k)?;
            Ok(template.with_action(Action::Read(target, place)))
        }
        4 => read_eval(r, n, k),
        5 => read_new(r, k),
        6 => read_fork(r, k),
        _ => read_spread(r, n, k),
    }
}
