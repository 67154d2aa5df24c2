// An out to a set (document 02, slip 11): it concerns many nodes, so it is made on all nodes of the net.
ghost use Rattle.std.specs.Prelude.{◌≡◌, ltb};
ghost use Rattle.net.specs.Choice.{choose, implies};
ghost use Rattle.net.specs.Groups.{member};
ghost use Rattle.net.specs.Records.{with_tuple};
ghost use Rattle.step.specs.Sharing.{room_in, given_below, shared_by, shared_of};

use crate::turn::{Turn, changes_net, host_of, plan_of, slot_of};
use net::locality::{Group, Locality};
use net::node::Node;
use net::process::Process;
use net::tuple::Tuple;
use plans::answer::Answer;
use plans::plan::tuple_from;

// The answer to a pick, and all nodes of the net after it.
#[derive(Clone, Copy)]
pub struct Shared {
    pub answer: Answer,
    pub nodes: [Node; 16],
}

// Whether the node x at address l has room, where that is a member of the set.
#[tactic(auto, unfolding(net::specs::Choice::implies))]
fn room_if(g: Group, l: Locality, x: &Node) -> bool
    ensures { result ≡ implies (member g l) (ltb x.now.stored 16) }
{
    if g.has(l) { x.stored < 16 } else { true }
}

// Whether each member has room.
fn room_at_all(nodes: &[Node; 16], g: Group) -> bool
    ensures { result ≡ room_in nodes.now g }
{
    for l in 0..16 {
        if !room_if(g, Locality(l as u8), &nodes[l]) {
            return false;
        }
    }
    true
}

// The node x at address l with the tuple added as the newest, where that is a member of the set.
#[tactic(auto, using(net::proofs::NodeLaws::put_or), unfolding(net::specs::Choice::choose))]
fn given(g: Group, l: Locality, x: Node, t: Tuple) -> Node
    ensures { result ≡ choose (member g l) (with_tuple x t) x }
{
    if g.has(l) { x.put(t).unwrap_or(x) } else { x }
}

// The nodes with the tuple added at each member.
fn give_all(mut nodes: [Node; 16], g: Group, t: Tuple) -> [Node; 16]
    ensures { result ≡ given_below 16 nodes g t }
{
    for l in 0..16 {
        nodes[l] = given(g, Locality(l as u8), nodes[l], t);
    }
    nodes
}

// The nodes after an out to a set, p being the host's process then.
fn shared_by(mut nodes: [Node; 16], turn: Turn, p: Process) -> [Node; 16]
    ensures { result ≡ shared_by nodes turn p }
{
    let seat = turn.seat;
    let host = host_of(seat.pick);
    let k = slot_of(seat.pick);
    let host_at = host.0 as usize;
    let x = nodes[host_at];
    let moved = x.with_process(k, p);
    nodes[host_at] = moved;
    let tuple = tuple_from(host, turn.template);
    give_all(nodes, turn.group, tuple)
}

// An out to a set: its plan is drawn from the host's node, with room at each member.
pub fn share_out(nodes: [Node; 16], turn: Turn) -> Shared
    ensures { result ≡ shared_of nodes turn }
{
    let seat = turn.seat;
    let host = host_of(seat.pick);
    let host_at = host.0 as usize;
    let room = room_at_all(&nodes, turn.group);
    let plan = plan_of(turn, nodes[host_at], room);
    let answer = plan.answer;
    if changes_net(answer) {
        let after = shared_by(nodes, turn, plan.process);
        Shared {
            answer,
            nodes: after,
        }
    } else {
        Shared { answer, nodes }
    }
}
