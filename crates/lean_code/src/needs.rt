// The rights that code from a place needs, as 69 flags: i over each written address, then r, o and e, then n; then i, r, o and e over self.
ghost use Rattle.std.specs.Prelude.{◌≡◌};
ghost use Rattle.lean_code.specs.Needs.{add_right, add_members, add_action, add_where, needs_of, sent_by};

use keeping::reaching::reached;
use net::instruction::{Action, Instruction, Target};
use net::locality::{Group, Locality, Place};

// One right more, over a target that is written or self.
fn add_right(need: &mut [bool; 69], t: Target, right: usize)
    ensures { need.new ≡ add_right need.old right t }
{
    match t {
        Target::Written(l) => {
            let at = l.0 as usize;
            need[16 * (right % 4) + at % 16] = true;
        }
        Target::Own => {
            need[65 + right % 4] = true;
        }
        Target::Held(_) => {}
    }
}

// The right o over each member of a set more.
fn add_members(need: &mut [bool; 69], g: Group)
    ensures { need.new ≡ add_members need.old g }
{
    for l in 0..16 {
        let had = need[l + 32];
        need[l + 32] = had | g.has(Locality(l as u8));
    }
}

// What an action needs more.
fn add_action(need: &mut [bool; 69], action: Action)
    ensures { need.new ≡ add_action need.old action }
{
    match action {
        Action::Stop => {}
        Action::Out(t, _) => add_right(need, t, 2),
        Action::In(t, _) => add_right(need, t, 0),
        Action::Read(t, _) => add_right(need, t, 1),
        Action::Eval(t, _, _) => add_right(need, t, 3),
        Action::New(_, _) => {
            need[64] = true;
        }
        Action::Fork(_, _) => {}
        Action::OutAll(g, _) => add_members(need, g),
    }
}

// What an instruction needs more, where it is reached.
fn add_reached(need: &mut [bool; 69], marked: bool, c: Instruction)
    ensures { need.new ≡ add_where marked c.action need.old }
{
    let action = c.action;
    if marked {
        add_action(need, action);
    }
}

// The rights that code from a place needs.
pub fn needs_from(code: [Instruction; 512], p: Place) -> [bool; 69]
    ensures { result ≡ needs_of code p }
{
    let marks = reached(&code, p);
    let mut need = [false; 69];
    for q in 0..512 {
        add_reached(&mut need, marks[q], code[q]);
    }
    need
}

// The place that an instruction sends; 512 where it sends none.
#[tactic(auto, unfolding(crate::specs::Needs::sent_by, crate::specs::Needs::sent_of))]
pub fn sent_by(c: Instruction) -> Place
    ensures { result ≡ sent_by c }
{
    match c.action {
        Action::Eval(_, sent, _) => sent,
        _ => Place(512),
    }
}
