// A net from its arrays of words.
ghost use Rattle.std.specs.Prelude.{◌≡◌};
ghost use Rattle.lean.specs.Words.{words_with, node_with, net_in};

use crate::filling::fill;
use lean_words::processes::process_of;
use lean_words::rights::row_of;
use lean_words::stores::tuple_of;
use net::network::Net;
use net::node::Node;
use net::policy::Row;
use net::process::Process;
use net::tuple::Tuple;

fn node_of(
    slots: &[[usize; 16]; 4],
    stored: usize,
    store: &[[usize; 6]; 16],
    policy: &[[bool; 65]; 16],
) -> Node
    ensures { result ≡ node_with slots.now stored store.now policy.now }
{
    let mut rows = [Row::zero(); 16];
    let mut processes = [Process::free(); 4];
    let mut tuples = [Tuple::zero(); 16];
    fill(policy, 16, &mut rows, row_of);
    fill(slots, 4, &mut processes, process_of);
    fill(store, 16, &mut tuples, tuple_of);
    Node {
        rows,
        processes,
        stored,
        tuples,
    }
}

// The net with the nodes that the words give, n of them in use.
#[inline(never)]
pub(crate) fn decode(
    start: Net,
    n: usize,
    procs: &[[[usize; 16]; 4]; 16],
    stored: &[usize; 16],
    tuples: &[[[usize; 6]; 16]; 16],
    rows: &[[[bool; 65]; 16]; 16],
) -> Net
    ensures { result ≡ net_in start (words_with n procs.now stored.now tuples.now rows.now) }
{
    let mut net = start;
    net.addresses = n;
    for a in 0..16 {
        net.nodes[a] = node_of(&procs[a], stored[a], &tuples[a], &rows[a]);
    }
    net
}
