// Instructions read back from a table of words, once their starts have places.
ghost use Rattle.std.specs.Prelude.{◌≡◌, get_or};
ghost use Rattle.terms.specs.Loading.{target_of, pattern_of, field_of, action_of, loaded_in};

use net::instruction::{Action, Instruction, Pattern, Target, TemplateField};
use net::locality::{Group, Locality, Place};
use text::signed::signed_of;

// A word of a table; 0 past its end.
pub fn word_at(table: &[usize], at: usize) -> usize
    ensures { result ≡ get_or table.now at 0 }
{
    table.get(at).copied().unwrap_or(0)
}

// A target.
#[tactic(auto, unfolding(crate::specs::Loading::target_of, net::specs::Choice::choose, net::specs::Records::address_of))]
fn target_of(w: usize) -> Target
    ensures { result ≡ target_of w }
{
    let low = (w % 256) as u8;
    match w {
        0..=255 => Target::Written(Locality(low)),
        256..=511 => Target::Own,
        _ => Target::Held(low),
    }
}

// A template field.
#[tactic(auto, unfolding(crate::specs::Loading::pattern_of, net::specs::Choice::choose, net::specs::Records::address_of))]
fn pattern_of(w: usize) -> Pattern
    ensures { result ≡ pattern_of w }
{
    let low = (w % 256) as u8;
    match w {
        0..=4294967295 => Pattern::Reading(signed_of(w as u32)),
        4294967296..=4294967551 => Pattern::Address(Locality(low)),
        4294967552..=4294967807 => Pattern::Own,
        4294967808..=4294968063 => Pattern::Held(low),
        4294968064..=4294968319 => Pattern::FormalReading(low),
        _ => Pattern::FormalAddress(low),
    }
}

#[tactic(auto, unfolding(crate::specs::Loading::field_of))]
fn field_at(table: &[usize], at: usize) -> TemplateField
    ensures { result ≡ field_of (get_or table.now at 0) }
{
    TemplateField {
        pattern: pattern_of(word_at(table, at)),
    }
}

// An action, by its number.
// Kept: a kind by its number: the table is lent memory, whose words are numbers.
#[tactic(auto, unfolding(crate::specs::Loading::action_of, crate::specs::Loading::group_in, net::specs::Choice::choose))]
fn action_of(kind: usize, w: usize, next: Place, second: Place) -> Action
    ensures { result ≡ action_of kind w next second }
{
    match kind {
        1 => Action::Out(target_of(w), next),
        2 => Action::In(target_of(w), next),
        3 => Action::Read(target_of(w), next),
        4 => Action::Eval(target_of(w), second, next),
        5 => Action::New((w % 256) as u8, next),
        6 => Action::Fork(next, second),
        7 => Action::OutAll(Group((w % 65536) as u16), next),
        _ => Action::Stop,
    }
}

// The instruction with the number i; past the code a stop.
#[tactic(auto, unfolding(crate::specs::Loading::loaded_in, crate::specs::Loading::loaded_at, crate::specs::Loading::loaded, net::specs::Choice::choose))]
pub fn load(table: &[usize], i: usize, next: Place, second: Place) -> Instruction
    ensures { result ≡ loaded_in table.now i next second }
{
    if i >= 512 {
        return Instruction::zero();
    }
    let at = 9 * i;
    Instruction {
        action: action_of(word_at(table, at), word_at(table, at + 1), next, second),
        count: word_at(table, at + 2),
        template: [
            field_at(table, at + 3),
            field_at(table, at + 4),
            field_at(table, at + 5),
            field_at(table, at + 6),
        ],
    }
}
