// Processes of the planners' notation. Reading one stores its instructions in a lent table and marks the names that it
// uses. Brackets and evals are d levels at most.
#![tactic(auto, using(crate::proofs::ProcessLaws::processing, crate::proofs::LentLaws::lending), unfolding(crate::specs::Reading::called, crate::specs::Reading::stopped, crate::specs::Reading::forked, crate::specs::Reading::ended, crate::specs::Reading::evaluation, crate::specs::Reading::action, crate::specs::Progress::dotted, text::specs::Bytes::bytes))]

ghost use Rattle.std.specs.Prelude.{◌≤◌, ◌+◌, ◌≡◌, min, length};
ghost use Rattle.lexemes.specs.Progress.{Reads};
ghost use Rattle.processes.specs.Reading.{called, stopped, forked, ended, evaluation, action, chain, process_at, process};
ghost use Rattle.processes.specs.Room.{room};
ghost use Rattle.processes.specs.Progress.{dotted, Keeps, Lent, Stored, Started, Held, Acted};

use crate::actions::{entry_for, read_aim, read_simple};
use crate::code::Code;
use crate::names::{chain_ends, read_name, start_here};
use fields::scope::Scope;
use lexemes::reader::TextReader;
use net::instruction::Instruction;
use readers::fault::Fault;
use terms::table::{Entry, Kind, target_word};

// A name, which makes no instruction.
fn read_call(r: &mut TextReader, code: &mut Code) -> Result<(), Fault>
    ensures read { Keeps r.old called (Stored code.old code.new) result r.new }
    ensures lent { Lent code.old code.new }
{
    let k = read_name(r)?;
    code.mark(k);
    Ok(())
}

// A nil.
fn read_nil(r: &mut TextReader, code: &mut Code) -> Result<(), Fault>
    ensures read { Keeps r.old stopped (Stored code.old code.new) result r.new }
    ensures lent { Lent code.old code.new }
{
    r.word(b"nil")?;
    let n = code.number();
    code.store(n, Entry::of(Kind::Stop));
    Ok(())
}

// A process, and the word of what it starts with.
#[cycle(process_text)]
fn read_started(r: &mut TextReader, d: usize, scope: Scope, code: &mut Code) -> Result<usize, Fault>
    ensures read { Keeps r.old (process_at d scope) (Started code.old code.new) result r.new }
    ensures lent { Lent code.old code.new }
{
    let start = start_here(r, code.count);
    if d == 0 {
        return Err(Fault::at(32, r.at, 0));
    }
    read_chain(r, d - 1, scope, code)?;
    Ok(start)
}

// A fork.
#[cycle(process_text)]
fn read_fork(r: &mut TextReader, d: usize, scope: Scope, code: &mut Code) -> Result<(), Fault>
    ensures read { Keeps r.old (forked (process_at d scope)) (Stored code.old code.new) result r.new }
    ensures lent { Lent code.old code.new }
{
    let n = code.number();
    r.byte(b'(')?;
    let first = read_started(r, d, scope, code)?;
    r.word(b" | ")?;
    let second = read_started(r, d, scope, code)?;
    r.byte(b')')?;
    let entry = Entry {
        next: first,
        second,
        ..Entry::of(Kind::Fork)
    };
    code.store(n, entry);
    Ok(())
}

// What ends a chain of actions.
#[cycle(process_text)]
fn read_end(r: &mut TextReader, d: usize, scope: Scope, code: &mut Code) -> Result<(), Fault>
    ensures read { Keeps r.old (ended (process_at d scope)) (Stored code.old code.new) result r.new }
    ensures lent { Lent code.old code.new }
{
    match r.peek() {
        b'A' => read_call(r, code),
        b'(' => read_fork(r, d, scope, code),
        _ => read_nil(r, code),
    }
}

// An eval up to its dot: its entry. Its own number n is counted already.
#[cycle(process_text)]
fn read_eval(
    r: &mut TextReader,
    d: usize,
    scope: Scope,
    code: &mut Code,
    n: usize,
) -> Result<Entry, Fault>
    ensures read { Keeps r.old (evaluation (process_at d scope) scope) (Held n code.old code.new) result r.new }
    ensures lent { Lent code.old code.new }
{
    r.word(b"eval(")?;
    let sent = read_started(r, d, scope, code)?;
    let target = read_aim(r, scope.addresses)?;
    let entry = entry_for(Kind::Eval, target_word(target), Instruction::zero());
    Ok(Entry {
        second: sent,
        ..entry
    })
}

// An action up to its dot: its entry. Its own number n is counted already.
#[cycle(process_text)]
fn read_act(
    r: &mut TextReader,
    d: usize,
    scope: Scope,
    code: &mut Code,
    n: usize,
) -> Result<Entry, Fault>
    ensures read { Keeps r.old (action (process_at d scope) scope) (Held n code.old code.new) result r.new }
    ensures lent { Lent code.old code.new }
{
    if r.peek() == b'e' {
        read_eval(r, d, scope, code, n)
    } else {
        read_simple(r, scope)
    }
}

// An action and its dot.
#[cycle(process_text)]
fn read_action(r: &mut TextReader, d: usize, scope: Scope, code: &mut Code) -> Result<(), Fault>
    ensures read { Keeps r.old (dotted (action (process_at d scope) scope)) (Acted code.old code.new r.new) result r.new }
    ensures lent { Lent code.old code.new }
{
    let n = code.number();
    let entry = read_act(r, d, scope, code, n)?;
    r.byte(b'.')?;
    let next = start_here(r, code.count);
    code.store(n, Entry { next, ..entry });
    Ok(())
}

// A chain of actions and its end; no chain has more actions than the text has bytes.
#[cycle(process_text)]
fn read_chain(r: &mut TextReader, d: usize, scope: Scope, code: &mut Code) -> Result<(), Fault>
    ensures read { Keeps r.old (chain (length r.old.text.now) (process_at d scope) scope) (Stored code.old code.new) result r.new }
    ensures lent { Lent code.old code.new }
{
    for i in 0..r.text.len() {
        if chain_ends(r) {
            return read_end(r, d, scope, code);
        }
        read_action(r, d, scope, code)?;
    }
    Err(Fault::at(31, r.at, 0))
}

// P, and the word of what it starts with.
#[tactic(auto, using(crate::proofs::ProcessLaws::processing, crate::proofs::LentLaws::lending), unfolding(crate::specs::Reading::process))]
pub fn read_process(r: &mut TextReader, scope: Scope, code: &mut Code) -> Result<usize, Fault>
    ensures read { Keeps r.old (process scope) (Started code.old code.new) result r.new }
    ensures lent { Lent code.old code.new }
{
    read_started(r, 33, scope, code)
}
