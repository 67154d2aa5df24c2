// Plans: what a step does to the few records that it concerns. In what follows p is the host's process and y
// the node at the target.
ghost use Rattle.std.specs.Prelude.{◌≡◌};
ghost use Rattle.net.specs.Records.{marked};
ghost use Rattle.plans.specs.Additions.{item_of, tuple_of};
ghost use Rattle.plans.specs.Plan.{going, refusing, changing, stop_plan, out_plan, in_plan, read_plan, start_plan, eval_plan};
ghost use Rattle.plans.specs.Plan.{opening, new_plan, all_plan, granted_plan, plan_of};

use crate::answer::Answer;
use crate::request::{Request, has_right};
use crate::rows::opened_rows;
use matching::template::{Evaluated, Want, match_template};
use net::locality::{Locality, Place};
use net::node::Node;
use net::policy::Row;
use net::process::Process;
use net::tuple::{Field, Item, Tuple, Value};

// The answer, the host's process and the target's node after the step, and whether the target is an address
// that the step opens.
#[derive(Clone, Copy, PartialEq, Eq, Debug)]
pub struct Plan {
    pub answer: Answer,
    pub process: Process,
    pub target: Node,
    pub opens: bool,
}

// The value of an out's field.
#[tactic(auto, unfolding(crate::specs::Additions::item_of))]
fn item_of(w: Want) -> Item
    ensures { result ≡ item_of w }
{
    match w {
        Want::Exactly(x) => x,
        _ => Item::Reading(0),
    }
}

// The field values of an out.
fn tuple_of(e: Evaluated) -> Tuple
    ensures { result ≡ tuple_of e }
{
    let mut t = Tuple::zero();
    for i in 0..4 {
        if i < e.count {
            let item = item_of(e.wants[i].want);
            t = t.with_field(Field { item });
        }
    }
    t
}

// The tuple of an out by a process hosted at a, marked with that address.
pub fn tuple_from(a: Locality, e: Evaluated) -> Tuple
    ensures { result ≡ marked a (tuple_of e) }
{
    tuple_of(e).marked(a)
}

// Nothing changes.
#[tactic(auto, unfolding(crate::specs::Plan::refusing))]
pub fn refused(answer: Answer, y: Node) -> Plan
    ensures { result ≡ refusing answer y }
{
    Plan {
        answer,
        process: Process::free(),
        target: y,
        opens: false,
    }
}

// The process goes on, and y is the target's node.
#[tactic(auto, unfolding(crate::specs::Plan::going))]
fn goes_on(process: Process, y: Node) -> Plan
    ensures { result ≡ going process y }
{
    Plan {
        answer: Answer::Performed,
        process,
        target: y,
        opens: false,
    }
}

// What comes of a change at the target y: the process goes on, or the change could not be made.
#[tactic(auto, unfolding(crate::specs::Plan::changing))]
fn changed(process: Process, refusal: Answer, y: Node, c: Option<Node>) -> Plan
    ensures { result ≡ changing process refusal y c }
{
    match c {
        Some(node) => goes_on(process, node),
        None => refused(refusal, y),
    }
}

#[tactic(auto, unfolding(crate::specs::Plan::stop_plan))]
fn stop_plan(y: Node) -> Plan
    ensures { result ≡ stop_plan y }
{
    Plan {
        answer: Answer::Ended,
        process: Process::free(),
        target: y,
        opens: false,
    }
}

#[tactic(auto, unfolding(crate::specs::Plan::out_plan))]
fn out_plan(a: Locality, p: Process, y: Node, q: Place, e: Evaluated) -> Plan
    ensures { result ≡ out_plan p y q (marked a (tuple_of e)) }
{
    let tuple = tuple_from(a, e);
    changed(p.moved_to(q), Answer::NoRoom, y, y.put(tuple))
}

#[tactic(auto, unfolding(crate::specs::Plan::in_plan))]
fn in_plan(p: Process, y: Node, q: Place, found: Option<usize>) -> Plan
    ensures { result ≡ in_plan p y q found }
{
    match found {
        Some(i) => changed(p.moved_to(q), Answer::NoTuple, y, y.take(i)),
        None => refused(Answer::NoTuple, y),
    }
}

// Kept: a twin of `in_plan`: only the arm of a tuple that is found differs, and it is one line.
#[tactic(auto, unfolding(crate::specs::Plan::read_plan))]
fn read_plan(p: Process, y: Node, q: Place, found: Option<usize>) -> Plan
    ensures { result ≡ read_plan p y q found }
{
    match found {
        Some(_) => goes_on(p.moved_to(q), y),
        None => refused(Answer::NoTuple, y),
    }
}

// The process `copy` starts at the target, and the process p goes on at q.
#[tactic(auto, unfolding(crate::specs::Plan::start_plan))]
fn start_plan(p: Process, y: Node, copy: Process, q: Place) -> Plan
    ensures { result ≡ start_plan p y copy q }
{
    changed(p.moved_to(q), Answer::NoRoom, y, y.start(copy))
}

// Code that the host sends starts at the target, where it keeps within the target's row for it.
#[tactic(auto, unfolding(crate::specs::Plan::eval_plan, net::specs::Choice::choose))]
fn eval_plan(a: Locality, p: Process, y: Node, sent: Place, q: Place, within: bool) -> Plan
    ensures { result ≡ eval_plan a p y sent q within }
{
    if within {
        start_plan(p, y, p.sent_from(a, sent), q)
    } else {
        refused(Answer::NotWithin, y)
    }
}

// A new address l, opened in a net of format f by a process p hosted at the node x of address a: p holds it in its
// variable v.
#[tactic(auto, unfolding(crate::specs::Plan::opening))]
fn open_plan(f: usize, a: Locality, p: Process, x: Node, v: u8, q: Place, l: Locality) -> Plan
    ensures { result ≡ opening f a p x v q l }
{
    let holder = p.with_variable(v as usize, Value::Address(l));
    Plan {
        answer: Answer::Performed,
        process: holder.moved_to(q),
        target: Node::zero().with_rows(opened_rows(f, x, a, p, l)),
        opens: true,
    }
}

#[tactic(auto, unfolding(crate::specs::Plan::new_plan, net::specs::Choice::choose))]
fn new_plan(f: usize, a: Locality, p: Process, x: Node, v: u8, q: Place, n: usize) -> Plan
    ensures { result ≡ new_plan f a p x v q n }
{
    if n < 16 {
        open_plan(f, a, p, x, v, q, Locality(n as u8))
    } else {
        refused(Answer::NoRoom, x)
    }
}

// An out to a set, where y is the host's node: the process goes on if each member has room. What the members receive is no
// part of the plan.
#[tactic(auto, unfolding(crate::specs::Plan::all_plan, net::specs::Choice::choose))]
fn all_plan(p: Process, y: Node, q: Place, room: bool) -> Plan
    ensures { result ≡ all_plan p y q room }
{
    if room {
        goes_on(p.moved_to(q), y)
    } else {
        refused(Answer::NoRoom, y)
    }
}

// The plan of a request whose right is held.
#[tactic(auto, unfolding(crate::specs::Plan::granted_plan))]
fn granted_plan(
    f: usize,
    a: Locality,
    p: Process,
    y: Node,
    e: Evaluated,
    n: usize,
    within: bool,
    r: Request,
) -> Plan
    ensures { result ≡ granted_plan f a p y e n within r }
{
    match r {
        Request::Lack => refused(Answer::NotSet, y),
        Request::Stop => stop_plan(y),
        Request::Out(_, q) => out_plan(a, p, y, q, e),
        Request::In(_, q) => {
            let met = match_template(p, &y, e);
            in_plan(met.process, y, q, met.found)
        }
        Request::Read(_, q) => {
            let met = match_template(p, &y, e);
            read_plan(met.process, y, q, met.found)
        }
        Request::Eval(_, sent, q) => eval_plan(a, p, y, sent, q, within),
        Request::New(v, q) => new_plan(f, a, p, y, v, q, n),
        Request::Fork(q, other) => start_plan(p, y, p.copied_to(other), q),
        Request::OutAll(_, q) => all_plan(p, y, q, within),
    }
}

// The plan of a request: f is the format, a the host's address, n the address count, `within` whether sent code keeps within
// y's row for it, or whether each member of a set has room. For a new, whose target has no node yet, and for an out to a set,
// which has many, y is the host's node.
#[tactic(auto, unfolding(crate::specs::Plan::plan_of, net::specs::Choice::choose))]
pub fn plan_for(
    f: usize,
    a: Locality,
    row: Row,
    p: Process,
    y: Node,
    e: Evaluated,
    n: usize,
    within: bool,
    r: Request,
) -> Plan
    ensures { result ≡ plan_of f a row p y e n within r }
{
    if has_right(row, r) {
        granted_plan(f, a, p, y, e, n, within, r)
    } else {
        refused(Answer::NoRight, y)
    }
}
