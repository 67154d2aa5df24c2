// Starts resolved to their places: instructions read back from the table of words, and processes moved to where they start.
ghost use Rattle.std.specs.Prelude.{◌<◌, ◌≤◌, ◌≡◌};
ghost use Rattle.linking.specs.NameTable.{start_for};
ghost use Rattle.linking.specs.Placing.{place_for, place_at, linked_at, moved_node, moved_net, with_linked, linked_net};

use crate::names::{Start, settle, start_from};
use net::instruction::Instruction;
use net::locality::Place;
use net::network::Net;
use net::node::Node;
use terms::loading::{load, word_at};

// The place of an instruction; place 0 of a name that leads to none.
#[tactic(auto, unfolding(crate::specs::Placing::place_for, crate::specs::Compiled::number_of, net::specs::Records::place_of))]
fn place_for(x: Start) -> Place
    ensures { result ≡ place_for (start_for x) }
{
    match x {
        Start::Here(n) => Place((n % 65536) as u16),
        Start::Called(_) => Place(0),
    }
}

// The place of a start's word.
#[tactic(auto, unfolding(crate::specs::Placing::place_at))]
fn place_at(bodies: &[usize], w: usize) -> Place
    ensures { result ≡ place_at bodies.now w }
{
    place_for(settle(bodies, start_from(w)))
}

// The instruction with the number i, which a table of 512 has.
#[tactic(auto, unfolding(crate::specs::Placing::linked_at))]
fn linked_at(table: &[usize], bodies: &[usize], i: usize) -> Instruction
    requires { i < 512 }
    ensures { result ≡ linked_at (place_at bodies.now) table.now i }
{
    let next = place_at(bodies, word_at(table, 9 * i + 7));
    let second = place_at(bodies, word_at(table, 9 * i + 8));
    load(table, i, next, second)
}

// The first n instructions put into the net's code.
fn place_code(net: &mut Net, n: usize, table: &[usize], bodies: &[usize])
    requires { n ≤ 512 }
    ensures { net.new ≡ with_linked (place_at bodies.now) table.now n net.old }
{
    for i in 0..n {
        net.code[i] = linked_at(table, bodies, i);
    }
}

// The processes of the node of address a moved to the places of their starts; free slots stay.
// Kept: an index: it says which process and which word of the table of starts.
fn move_node(node: &mut Node, a: usize, bodies: &[usize], starts: &[usize])
    requires { a < 16 }
    ensures { node.new ≡ moved_node (place_at bodies.now) starts.now a node.old }
{
    for j in 0..4 {
        let p = node.processes[j];
        if p.busy {
            let w = word_at(starts, 4 * a + j);
            node.processes[j] = p.moved_to(place_at(bodies, w));
        }
    }
}

// The net, its processes moved to the places of their starts.
fn moved_net(start: Net, bodies: &[usize], starts: &[usize]) -> Net
    ensures { result ≡ moved_net (place_at bodies.now) starts.now start }
{
    let mut net = start;
    for a in 0..16 {
        move_node(&mut net.nodes[a], a, bodies, starts);
    }
    net
}

// The whole: processes in their places, and n instructions of code, of which those past the 512th have no place.
pub fn link(start: Net, n: usize, table: &[usize], bodies: &[usize], starts: &[usize]) -> Net
    ensures { result ≡ linked_net (place_at bodies.now) table.now starts.now n start }
{
    let mut net = moved_net(start, bodies, starts);
    net.length = n;
    place_code(&mut net, n.min(512), table, bodies);
    net
}
