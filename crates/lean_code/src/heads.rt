// An action as 6 words: 0 its number, 1 and 2 its target (written, or from which word of the process), 3 the next place, 4 what else
// it has (the sent place, a fork's second place, a new's word of the process), 5 the field count. The members of a set as flags.
ghost use Rattle.std.specs.Prelude.{◌≡◌};
ghost use Rattle.lean_code.specs.Heads.{target_written, target_from, aimed_words, alone_words, head_words, member_flags, set_flags};

use crate::fields::{OWN, WRITTEN, place_in};
use net::instruction::{Action, Instruction, Target};
use net::locality::{Group, Locality, Place};

// The number of a place.
fn at(p: Place) -> usize
    ensures { result ≡ p.0 }
{
    p.0 as usize
}

// The written address of a target; 0 where it is none.
#[tactic(auto, unfolding(crate::specs::Heads::target_written))]
fn written(t: Target) -> usize
    ensures { result ≡ target_written t }
{
    match t {
        Target::Written(l) => usize::from(l.0),
        _ => 0,
    }
}

// From where a target comes.
#[tactic(auto, unfolding(crate::specs::Heads::target_from))]
fn from(t: Target) -> usize
    ensures { result ≡ target_from t }
{
    match t {
        Target::Written(_) => WRITTEN,
        Target::Own => OWN,
        Target::Held(v) => place_in(v),
    }
}

// An action at a target.
fn aimed(number: usize, t: Target, next: Place, other: usize, count: usize) -> [usize; 6]
    ensures { result ≡ aimed_words number t next other count }
{
    [number, written(t), from(t), at(next), other, count]
}

// An action without a target.
fn alone(number: usize, next: Place, other: usize, count: usize) -> [usize; 6]
    ensures { result ≡ alone_words number next other count }
{
    [number, 0, WRITTEN, at(next), other, count]
}

pub fn head_words(c: Instruction) -> [usize; 6]
    ensures { result ≡ head_words c }
{
    let action = c.action;
    match action {
        Action::Stop => alone(0, Place(0), 0, c.count),
        Action::Out(t, next) => aimed(1, t, next, 0, c.count),
        Action::In(t, next) => aimed(2, t, next, 0, c.count),
        Action::Read(t, next) => aimed(3, t, next, 0, c.count),
        Action::Eval(t, sent, next) => aimed(4, t, next, at(sent), c.count),
        Action::New(v, next) => alone(5, next, place_in(v), c.count),
        Action::Fork(next, second) => alone(6, next, at(second), c.count),
        Action::OutAll(_, next) => alone(7, next, 0, c.count),
    }
}

// The members of a set.
fn members(g: Group) -> [bool; 16]
    ensures { result ≡ member_flags g }
{
    let mut flags = [false; 16];
    for l in 0..16 {
        flags[l] = g.has(Locality(l as u8));
    }
    flags
}

// The members of the set that an action puts to.
#[tactic(auto, unfolding(crate::specs::Heads::set_flags, crate::specs::Heads::flags_of))]
pub fn set_flags(c: Instruction) -> [bool; 16]
    ensures { result ≡ set_flags c }
{
    match c.action {
        Action::OutAll(g, _) => members(g),
        _ => [false; 16],
    }
}
