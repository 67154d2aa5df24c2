// What an instruction asks for, once its variables are read (document 01, "One pick").
ghost use Rattle.std.specs.Prelude.{◌≡◌, None};
ghost use Rattle.net.specs.Choice.{choose};
ghost use Rattle.matching.specs.Matching.{evaluated_of};
ghost use Rattle.plans.specs.Request.{aim_of, target_of, asked, request_of, granted};

use keeping::rights::{may_create, may_put, may_put_all, may_read, may_send, may_take};
use matching::template::{Evaluated, evaluate, variable};
use net::instruction::{Action, Instruction, Target};
use net::locality::{Group, Locality, Place};
use net::policy::Row;
use net::process::Process;
use net::tuple::Value;

// An action with its target known. `Lack` is a needed variable that is unset, or a target variable that
// holds a reading. `Eval` has the sent place before the next one; `OutAll` is an out to each member of a set.
#[derive(Clone, Copy, PartialEq, Eq, Debug)]
pub enum Request {
    Lack,
    Stop,
    Out(Locality, Place),
    In(Locality, Place),
    Read(Locality, Place),
    Eval(Locality, Place, Place),
    New(u8, Place),
    Fork(Place, Place),
    OutAll(Group, Place),
}

// A request with its evaluated template.
#[derive(Clone, Copy, PartialEq, Eq, Debug)]
pub struct Asked {
    pub request: Request,
    pub template: Evaluated,
}

// The address that a value holds.
#[tactic(auto, unfolding(crate::specs::Request::aim_of))]
fn aim_at(x: Value) -> Option<Locality>
    ensures { result ≡ aim_of x }
{
    match x {
        Value::Address(l) => Some(l),
        _ => None,
    }
}

// Where a target of a process hosted at a points, if it points anywhere.
#[tactic(auto, unfolding(crate::specs::Request::target_of))]
fn aim_of(a: Locality, p: Process, t: Target) -> Option<Locality>
    ensures { result ≡ target_of a p t }
{
    match t {
        Target::Written(l) => Some(l),
        Target::Own => Some(a),
        Target::Held(v) => aim_at(variable(p, v)),
    }
}

// The same, where the template is defined.
#[tactic(auto, unfolding(net::specs::Choice::choose))]
fn aim_spoken(a: Locality, p: Process, e: Evaluated, t: Target) -> Option<Locality>
    ensures { result ≡ choose e.defined (target_of a p t) None }
{
    if e.defined { aim_of(a, p, t) } else { None }
}

// The request of an action.
#[tactic(auto, unfolding(crate::specs::Request::asked, crate::specs::Request::spoken, crate::specs::Request::at, net::specs::Choice::choose))]
fn request_of(a: Locality, p: Process, e: Evaluated, action: Action) -> Request
    ensures { result ≡ asked a p e action }
{
    match action {
        Action::Stop => Request::Stop,
        Action::Out(t, q) => {
            aim_spoken(a, p, e, t).map_or(Request::Lack, |l| Request::Out(l, q))
        }
        Action::In(t, q) => { aim_spoken(a, p, e, t).map_or(Request::Lack, |l| Request::In(l, q)) }
        Action::Read(t, q) => {
            aim_spoken(a, p, e, t).map_or(Request::Lack, |l| Request::Read(l, q))
        }
        Action::Eval(t, sent, q) => {
            aim_of(a, p, t).map_or(Request::Lack, |l| Request::Eval(l, sent, q))
        }
        Action::New(v, q) => Request::New(v, q),
        Action::Fork(q, r) => Request::Fork(q, r),
        Action::OutAll(g, q) => {
            if e.defined {
                Request::OutAll(g, q)
            } else {
                Request::Lack
            }
        }
    }
}

// What the instruction c asks for in the process p hosted at a.
#[tactic(auto, unfolding(crate::specs::Request::request_of))]
pub fn ask(a: Locality, p: Process, c: Instruction) -> Asked
    ensures { (result.request ≡ request_of a p c) × (result.template ≡ evaluated_of a p c) }
{
    let template = evaluate(a, p, c);
    let request = request_of(a, p, template, c.action);
    Asked { request, template }
}

// Whether a row has the right of the request.
#[tactic(auto, unfolding(crate::specs::Request::granted))]
pub(crate) fn has_right(row: Row, r: Request) -> bool
    ensures { result ≡ granted row r }
{
    match r {
        Request::Out(l, _) => may_put(row, l),
        Request::In(l, _) => may_take(row, l),
        Request::Read(l, _) => may_read(row, l),
        Request::Eval(l, _, _) => may_send(row, l),
        Request::New(_, _) => may_create(row),
        Request::OutAll(g, _) => may_put_all(row, g),
        Request::Lack | Request::Stop | Request::Fork(_, _) => true,
    }
}
