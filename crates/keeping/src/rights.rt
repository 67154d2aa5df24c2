// Rights, and code that keeps within a row (document 01, "Reaching and rights").
ghost use Rattle.std.specs.Prelude.{◌≡◌};
ghost use Rattle.keeping.specs.Keeping.{may_take, may_read, may_put, may_put_all, may_send, may_create, at_target};
ghost use Rattle.keeping.specs.Keeping.{permits, keeps_of};
ghost use Rattle.keeping.specs.Worklist.{grants};
ghost use Rattle.net.specs.Records.{rights_at};

use crate::reaching::search;
use net::instruction::{Action, Instruction, Target};
use net::locality::{Group, Locality, Place};
use net::policy::{Rights, Row};

// A right over an address.
#[derive(Clone, Copy, PartialEq, Eq, Debug)]
enum Right {
    Take,
    Read,
    Put,
    Send,
}

// The rights that a row grants over an address; none past the last address.
fn rights_over(row: Row, l: Locality) -> Rights
    ensures { result ≡ rights_at row l }
{
    let at = l.0 as usize;
    if at < 16 {
        row.rights[at]
    } else {
        Rights::none()
    }
}

// The right i of a row at an address.
#[tactic(auto, unfolding(crate::specs::Keeping::may_take))]
pub fn may_take(row: Row, l: Locality) -> bool
    ensures { result ≡ may_take row l }
{
    rights_over(row, l).take
}

// The right r, which i includes.
#[tactic(auto, unfolding(crate::specs::Keeping::may_read, net::specs::Choice::choose))]
pub fn may_read(row: Row, l: Locality) -> bool
    ensures { result ≡ may_read row l }
{
    let held = rights_over(row, l);
    if held.take { true } else { held.read }
}

// The right o.
#[tactic(auto, unfolding(crate::specs::Keeping::may_put))]
pub fn may_put(row: Row, l: Locality) -> bool
    ensures { result ≡ may_put row l }
{
    rights_over(row, l).put
}

// The right o at each member of a set.
pub fn may_put_all(row: Row, g: Group) -> bool
    ensures { result ≡ may_put_all row g }
{
    for l in 0..16 {
        if g.has(Locality(l)) && !may_put(row, Locality(l)) {
            return false;
        }
    }
    true
}

// The right e.
#[tactic(auto, unfolding(crate::specs::Keeping::may_send))]
pub fn may_send(row: Row, l: Locality) -> bool
    ensures { result ≡ may_send row l }
{
    rights_over(row, l).send
}

// The right n.
#[tactic(auto, unfolding(crate::specs::Keeping::may_create))]
pub fn may_create(row: Row) -> bool
    ensures { result ≡ may_create row }
{
    row.create
}

// Whether a row grants a right over an address.
#[tactic(auto, unfolding(crate::specs::Worklist::grants))]
fn grants(row: Row, right: Right, l: Locality) -> bool
    ensures { result ≡ grants row right l }
{
    match right {
        Right::Take => may_take(row, l),
        Right::Read => may_read(row, l),
        Right::Put => may_put(row, l),
        Right::Send => may_send(row, l),
    }
}

// The same at a target of address a, as far as it is judged before the action runs: a variable is not.
#[tactic(auto, unfolding(crate::specs::Keeping::at_target))]
fn grants_at(row: Row, right: Right, t: Target, a: Locality) -> bool
    ensures { result ≡ at_target t a (grants row right) }
{
    match t {
        Target::Written(l) => grants(row, right, l),
        Target::Own => grants(row, right, a),
        Target::Held(_) => true,
    }
}

// Whether a row of address a grants what an action needs.
#[tactic(auto, unfolding(crate::specs::Keeping::permits, crate::specs::Worklist::grants))]
pub fn permitted(row: Row, a: Locality, action: Action) -> bool
    ensures { result ≡ permits row a action }
{
    match action {
        Action::Stop => true,
        Action::Out(t, _) => grants_at(row, Right::Put, t, a),
        Action::In(t, _) => grants_at(row, Right::Take, t, a),
        Action::Read(t, _) => grants_at(row, Right::Read, t, a),
        Action::Eval(t, _, _) => grants_at(row, Right::Send, t, a),
        Action::New(_, _) => may_create(row),
        Action::Fork(_, _) => true,
        Action::OutAll(g, _) => may_put_all(row, g),
    }
}

// Whether the code from place p keeps within the row of address a: each place that it reaches is judged.
#[tactic(auto, using(crate::proofs::KeepingLaws::keeps_as))]
pub fn keeps(code: &[Instruction; 512], p: Place, a: Locality, row: Row) -> bool
    ensures { result ≡ keeps_of code.now p a row }
{
    search(code, p, |action| permitted(row, a, action)).good
}
