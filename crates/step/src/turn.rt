// One pick on the few records that it concerns: one pick and the loop over many both go by these functions.
ghost use Rattle.std.specs.Prelude.{◌<◌, ◌≡◌};
ghost use Rattle.net.specs.Records.{address_of};
ghost use Rattle.step.specs.Pick.{host_of, slot_of};
ghost use Rattle.step.specs.PutBack.{changes, host_after, count_after};
ghost use Rattle.step.specs.Turn.{ready, refusal, met, index_in, seat_of, near, target_in, source_in, turn_of};
ghost use Rattle.step.specs.Turn.{sent_within, seat_plan, turn_plan, plan_with, sends_code, group_of};

use keeping::rights::keeps;
use matching::template::Evaluated;
use net::instruction::Instruction;
use net::locality::{Group, Locality, Place};
use net::node::Node;
use net::policy::Row;
use net::process::Process;
use plans::answer::Answer;
use plans::plan::{Plan, plan_for, refused};
use plans::request::{Request, ask};
use plans::rows::creator_rows;

// What a pick finds at its host: the process that it names, with the row that it is judged by and the index
// of its instruction. `pick` is the pick itself, `format` the net's format, `addresses` the address count.
#[derive(Clone, Copy, PartialEq, Eq, Debug)]
pub struct Seat {
    pub pick: u8,
    pub format: usize,
    pub addresses: usize,
    pub process: Process,
    pub row: Row,
    pub index: usize,
}

// What a pick asks for from its seat, with its evaluated template, the address that it changes beside its
// host, the address whose node its plan is drawn from, whether it sends code, and the set that it puts to, which is
// empty where it is no out to a set.
#[derive(Clone, Copy, PartialEq, Eq, Debug)]
pub struct Turn {
    pub seat: Seat,
    pub request: Request,
    pub template: Evaluated,
    pub target: Locality,
    pub source: Locality,
    pub sends: bool,
    pub group: Group,
}

// The address that a pick names.
pub fn host_of(b: u8) -> Locality
    ensures { (result ≡ host_of b) × (result.0 < 16) }
{
    Locality(b / 16)
}

// The slot that a pick names.
pub fn slot_of(b: u8) -> usize
    ensures { (result ≡ slot_of b) × (result < 4) }
{
    (b / 4 % 4) as usize
}

// The index of a place in the code; 0 past its end.
fn index_of(at: Place) -> usize
    ensures { (result ≡ index_in at) × (result < 512) }
{
    let i = at.0 as usize;
    if i < 512 { i } else { 0 }
}

// Whether a pick is well formed, its address in use and its slot busy.
fn is_ready(b: u8, n: usize, p: Process) -> bool
    ensures { result ≡ ready b n p }
{
    let a = (b / 16) as usize;
    let formed = b % 4 == 0;
    let used = a < n;
    formed & (used & p.busy)
}

// What a pick that is not ready is answered with.
#[tactic(auto, unfolding(crate::specs::Turn::refusal, crate::specs::Pick::spare_of, crate::specs::Pick::host_of, net::specs::Choice::choose))]
fn refused_with(b: u8, n: usize) -> Answer
    ensures { result ≡ refusal b n }
{
    if b % 4 != 0 {
        Answer::Malformed
    } else if ((b / 16) as usize) < n {
        Answer::FreeSlot
    } else {
        Answer::NotInUse
    }
}

// The instruction that a pick meets, c being the one at its process's place.
#[tactic(auto, unfolding(crate::specs::Turn::met, net::specs::Choice::choose))]
fn met_by(b: u8, n: usize, p: Process, c: Instruction) -> Instruction
    ensures { result ≡ met b n p c }
{
    if is_ready(b, n, p) && (p.at.0 as usize) < 512 {
        c
    } else {
        Instruction::zero()
    }
}

// The address l, or a where no node has that address.
fn nearest(l: Locality, a: Locality) -> Locality
    ensures value { result ≡ near l a }
    ensures result_bound { a.0 < 16 → result.0 < 16 }
{
    let at = l.0 as usize;
    if at < 16 { l } else { a }
}

// The lowest unused address, or a where every one is used.
fn unused_or(n: usize, a: Locality) -> Locality
    ensures value { result ≡ near (address_of n) a }
    ensures result_bound { a.0 < 16 → result.0 < 16 }
{
    if n < 16 { Locality(n as u8) } else { a }
}

// The address that a request changes beside its host a.
#[tactic(auto, unfolding(crate::specs::Turn::target_in, plans::specs::Request::is_new, net::specs::Choice::choose))]
fn target_of(a: Locality, n: usize, r: Request) -> Locality
    ensures value { result ≡ target_in a n r }
    ensures result_bound { a.0 < 16 → result.0 < 16 }
{
    match r {
        Request::New(_, _) => unused_or(n, a),
        _ => source_of(a, r),
    }
}

// The address whose node the plan of a request is drawn from: its one target's, or the host a where it has none, or one that
// has no node yet, or a set of them.
#[tactic(auto, unfolding(crate::specs::Turn::source_in))]
fn source_of(a: Locality, r: Request) -> Locality
    ensures value { result ≡ source_in a r }
    ensures result_bound { a.0 < 16 → result.0 < 16 }
{
    match r {
        Request::Out(l, _) => nearest(l, a),
        Request::In(l, _) => nearest(l, a),
        Request::Read(l, _) => nearest(l, a),
        Request::Eval(l, _, _) => nearest(l, a),
        _ => a,
    }
}

// Whether a request sends code.
#[tactic(auto, unfolding(crate::specs::Turn::sends_code))]
fn sends_code(r: Request) -> bool
    ensures { result ≡ sends_code r }
{
    matches!(r, Request::Eval(_, _, _))
}

// The set that a request puts to: the empty one where it is no out to a set.
#[tactic(auto, unfolding(crate::specs::Turn::group_of, crate::specs::Turn::no_group))]
fn group_of(r: Request) -> Group
    ensures { result ≡ group_of r }
{
    match r {
        Request::OutAll(g, _) => g,
        _ => Group(0),
    }
}

// What a pick finds at its host: f is the format, n the address count.
#[tactic(auto, unfolding(crate::specs::Turn::seat_of, crate::specs::Turn::seated, net::specs::Records::process_at))]
pub fn seat_of(b: u8, f: usize, n: usize, host: Node) -> Seat
    ensures { (result ≡ seat_of b f n host) × (result.index < 512) }
{
    let process = host.processes[slot_of(b)];
    Seat {
        pick: b,
        format: f,
        addresses: n,
        process,
        row: host.row_for(process),
        index: index_of(process.at),
    }
}

// What a pick asks for from its seat, c being the instruction at the seat's index.
#[tactic(auto, unfolding(crate::specs::Turn::turn_of, crate::specs::Turn::asking))]
pub fn turn_of(seat: Seat, c: Instruction) -> Turn
    ensures { (result ≡ turn_of seat c) × (result.target.0 < 16) × (result.source.0 < 16) }
{
    let host = host_of(seat.pick);
    let instruction = met_by(seat.pick, seat.addresses, seat.process, c);
    let asked = ask(host, seat.process, instruction);
    let request = asked.request;
    Turn {
        seat,
        request,
        template: asked.template,
        target: target_of(host, seat.addresses, request),
        source: source_of(host, request),
        sends: sends_code(request),
        group: group_of(request),
    }
}

// Whether the code that a request of the process p at address a sends keeps within the row that the node y has for it.
#[tactic(auto, unfolding(crate::specs::Turn::sent_within))]
fn sent_within(code: &[Instruction; 512], a: Locality, p: Process, y: Node, r: Request) -> bool
    ensures { result ≡ sent_within code.now a p y r }
{
    match r {
        Request::Eval(l, sent, _) => {
            let row = y.row_for(p.sent_from(a, sent));
            keeps(code, sent, l, row)
        }
        _ => true,
    }
}

// The plan from a seat: y is the node at the source, `within` whether sent code keeps within y's row for it, or whether
// each member of the set has room.
fn seat_plan(seat: Seat, template: Evaluated, request: Request, y: Node, within: bool) -> Plan
    ensures { result ≡ seat_plan seat template request y within }
{
    let process = seat.process;
    let host = host_of(seat.pick);
    if is_ready(seat.pick, seat.addresses, process) {
        plan_for(
            seat.format,
            host,
            seat.row,
            process,
            y,
            template,
            seat.addresses,
            within,
            request,
        )
    } else {
        let answer = refused_with(seat.pick, seat.addresses);
        refused(answer, y)
    }
}

// The plan of a turn.
#[tactic(auto, unfolding(crate::specs::Turn::turn_plan))]
pub fn plan_of(turn: Turn, y: Node, within: bool) -> Plan
    ensures { result ≡ turn_plan turn y within }
{
    seat_plan(turn.seat, turn.template, turn.request, y, within)
}

// The plan of a turn, with the code that it may send.
#[tactic(auto, unfolding(crate::specs::Turn::plan_with))]
pub fn plan_with(code: &[Instruction; 512], turn: Turn, y: Node) -> Plan
    ensures { result ≡ plan_with code.now turn y }
{
    let seat = turn.seat;
    let request = turn.request;
    let within = sent_within(code, host_of(seat.pick), seat.process, y, request);
    plan_of(turn, y, within)
}

// Whether an answer changes the net.
#[tactic(auto, unfolding(crate::specs::PutBack::changes))]
pub fn changes_net(answer: Answer) -> bool
    ensures { result ≡ changes answer }
{
    matches!(answer, Answer::Performed | Answer::Ended)
}

// The host x after a plan for the target l: its process in the slot of the pick, and where the step opens l the rights on
// it that the format f gives.
#[tactic(auto, unfolding(crate::specs::PutBack::host_after, net::specs::Choice::choose))]
pub fn host_after(b: u8, f: usize, l: Locality, plan: Plan, x: Node) -> Node
    ensures { result ≡ host_after f plan (slot_of b) l x }
{
    let process = plan.process;
    let moved = x.with_process(slot_of(b), process);
    if plan.opens {
        let rows = creator_rows(f, x, process, l);
        moved.with_rows(rows)
    } else {
        moved
    }
}

// The address count after a step.
#[tactic(auto, unfolding(crate::specs::PutBack::count_after, net::specs::Choice::choose))]
pub fn count_after(opens: bool, n: usize) -> usize
    ensures { result ≡ count_after opens n }
{
    if opens && n < 16 { n + 1 } else { n }
}
