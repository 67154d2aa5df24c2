// Actions of the planners' notation that hold no process, up to their dots.
ghost use Rattle.std.specs.Prelude.{◌≡◌};
ghost use Rattle.text.specs.Bytes.{bytes};
ghost use Rattle.lexemes.specs.Progress.{Reads};
ghost use Rattle.terms.specs.Terms.{input, read};
ghost use Rattle.processes.specs.Reading.{at_target, communication, receiving, putting, creation, simple};
ghost use Rattle.processes.specs.Progress.{entry_for, Alone, Keeps};

use fields::scope::Scope;
use fields::sets::read_group;
use fields::templates::{read_target, read_template};
use fields::values::read_variable;
use lexemes::reader::TextReader;
use net::instruction::{Instruction, Target};
use readers::fault::Fault;
use terms::table::{Entry, Kind, target_word};

// A target, after the bracket that closes its action and @.
#[tactic(auto, using(lexemes::proofs::Reading::reads), unfolding(crate::specs::Reading::at_target, text::specs::Bytes::bytes))]
pub(crate) fn read_aim(r: &mut TextReader, addresses: usize) -> Result<Target, Fault>
    ensures { Reads r.old (at_target addresses) result r.new }
{
    r.word(b")@")?;
    read_target(r, addresses)
}

// The entry of an instruction that has no start yet.
pub(crate) fn entry_for(kind: Kind, target: usize, template: Instruction) -> Entry
    ensures { result ≡ entry_for kind target template }
{
    Entry {
        target,
        template,
        ..Entry::of(kind)
    }
}

// What an out of a template is to, by its first byte and the format.
#[tactic(auto, using(crate::proofs::ActionLaws::singles), unfolding(crate::specs::Reading::receiving, crate::specs::Reading::to_one, crate::specs::Reading::to_all, net::specs::Choice::both))]
fn read_receiver(r: &mut TextReader, scope: Scope, template: Instruction) -> Result<Entry, Fault>
    ensures { Keeps r.old (receiving scope template) Alone result r.new }
{
    if (r.peek() == b'{') & (scope.format == 2) {
        let group = read_group(r, scope.addresses)?;
        Ok(entry_for(Kind::OutAll, group.0 as usize, template))
    } else {
        let target = read_target(r, scope.addresses)?;
        Ok(entry_for(Kind::Out, target_word(target), template))
    }
}

// An out.
#[tactic(auto, using(crate::proofs::Keeping::keeping), unfolding(crate::specs::Reading::putting, text::specs::Bytes::bytes))]
fn read_out(r: &mut TextReader, scope: Scope) -> Result<Entry, Fault>
    ensures { Keeps r.old (putting scope) Alone result r.new }
{
    r.word(b"out(")?;
    let template = read_template(r, false, scope.addresses)?;
    r.word(b")@")?;
    read_receiver(r, scope, template)
}

// An in.
#[tactic(auto, using(crate::proofs::ActionLaws::singles), unfolding(crate::specs::Reading::communication, text::specs::Bytes::bytes))]
fn read_in(r: &mut TextReader, scope: Scope) -> Result<Entry, Fault>
    ensures { Keeps r.old (communication (bytes "in(") input scope) Alone result r.new }
{
    r.word(b"in(")?;
    let template = read_template(r, true, scope.addresses)?;
    let target = read_aim(r, scope.addresses)?;
    Ok(entry_for(Kind::In, target_word(target), template))
}

// A read.
// Kept: a twin of `read_in`: they differ in the word, the kind and the definition that the clause names.
#[tactic(auto, using(crate::proofs::ActionLaws::singles), unfolding(crate::specs::Reading::communication, text::specs::Bytes::bytes))]
fn read_read(r: &mut TextReader, scope: Scope) -> Result<Entry, Fault>
    ensures { Keeps r.old (communication (bytes "read(") read scope) Alone result r.new }
{
    r.word(b"read(")?;
    let template = read_template(r, true, scope.addresses)?;
    let target = read_aim(r, scope.addresses)?;
    Ok(entry_for(Kind::Read, target_word(target), template))
}

// A newloc.
#[tactic(auto, using(crate::proofs::ActionLaws::singles), unfolding(crate::specs::Reading::creation, text::specs::Bytes::bytes))]
fn read_newloc(r: &mut TextReader) -> Result<Entry, Fault>
    ensures { Keeps r.old creation Alone result r.new }
{
    r.word(b"newloc(u")?;
    let v = read_variable(r)?;
    r.byte(b')')?;
    Ok(entry_for(Kind::New, v as usize, Instruction::zero()))
}

// An action that is no eval, by its first letter.
#[tactic(auto, using(crate::proofs::Keeping::keeping), unfolding(crate::specs::Reading::simple))]
pub(crate) fn read_simple(r: &mut TextReader, scope: Scope) -> Result<Entry, Fault>
    ensures { Keeps r.old (simple scope) Alone result r.new }
{
    match r.peek() {
        b'o' => read_out(r, scope),
        b'i' => read_in(r, scope),
        b'r' => read_read(r, scope),
        _ => read_newloc(r),
    }
}
