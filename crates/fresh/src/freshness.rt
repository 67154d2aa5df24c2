// Whether some accepted image gives a net: it is sound, its processes stand as an image starts them, and
// each keeps within its row (document 01, "The image", "Numbers for an image").
ghost use Rattle.std.specs.Prelude.{not, ◌≡◌};
ghost use Rattle.net.specs.Choice.{choose, both, all};
ghost use Rattle.net.specs.Records.{address_of};
ghost use Rattle.sound.specs.Soundness.{all_unset};
ghost use Rattle.fresh.specs.Fresh.{node_starts, own_origins, own_marks, starts_at, fresh_of};

use keeping::admission::admitted;
use net::network::Net;
use net::node::Node;
use net::process::Process;
use sound::soundness::{all_unset, sound};

// Whether a slot stands as an image starts it: busy where it is used, with every variable unset.
#[tactic(auto, using(crate::proofs::StartLaws::same_choice), unfolding(net::specs::Choice::both))]
fn slot_starts(used: bool, p: Process) -> bool
    ensures { result ≡ both (choose used p.busy (not p.busy)) (all_unset p) }
{
    used == p.busy && all_unset(p)
}

// Whether each slot of a node does.
fn node_starts(x: &Node) -> bool
    ensures { result ≡ node_starts x.now }
{
    let n = x.process_count();
    x.processes
        .iter()
        .enumerate()
        .all(|(i, p)| slot_starts(i < n, *p))
}

// Whether each process of the node at address a has it as its origin.
fn own_origins(a: usize, x: &Node) -> bool
    ensures { result ≡ own_origins (address_of a) x.now }
{
    x.processes
        .iter()
        .all(|p| !p.busy || usize::from(p.origin.0) == a)
}

// Whether each tuple of the node at address a has its mark.
fn own_marks(a: usize, x: &Node) -> bool
    ensures { result ≡ own_marks (address_of a) x.now }
{
    x.tuples
        .iter()
        .enumerate()
        .all(|(i, t)| x.stored <= i || usize::from(t.mark.0) == a)
}

// Whether the node x at address a stands as an image starts it.
#[tactic(auto, unfolding(net::specs::Choice::both))]
fn starts_at(a: usize, x: &Node) -> bool
    ensures { result ≡ both (node_starts x.now) (both (own_origins (address_of a) x.now) (own_marks (address_of a) x.now)) }
{
    node_starts(x) && own_origins(a, x) && own_marks(a, x)
}

// Whether each node does.
fn nodes_start(net: &Net) -> bool
    ensures { result ≡ all 16 (λ a. starts_at net.now (address_of a)) }
{
    net.nodes.iter().enumerate().all(|(a, x)| starts_at(a, x))
}

// Kept: what may not change (`fresh_of` asks the lengths of the arrays, which a net that is passed by value tells, `held_fits`).
// Whether some accepted image gives the net.
pub fn is_fresh(net: Net) -> bool
    ensures { result ≡ fresh_of net }
{
    sound(net) && nodes_start(&net) && admitted(&net)
}
