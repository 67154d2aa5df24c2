// The records of a net as arrays of words.
ghost use Rattle.std.specs.Prelude.{◌≤◌, ◌≡◌};
ghost use Rattle.lean.specs.Loading.{slots_of, store_of, policy_of};
ghost use Rattle.lean.specs.Loading.{loaded_slots, loaded_tuples, loaded_counts, loaded_rows, loaded_needs};

use crate::filling::fill;
use lean_code::needs::{needs_from, sent_by};
use lean_words::processes::{free_words, process_words};
use lean_words::rights::row_flags;
use lean_words::stores::{no_tuple, tuple_words};
use net::instruction::Instruction;
use net::network::Net;
use net::node::Node;

fn slots_of(x: Node) -> [[usize; 16]; 4]
    ensures { result ≡ slots_of x }
{
    let mut slots = [free_words(); 4];
    fill(&x.processes, 4, &mut slots, process_words);
    slots
}

fn store_of(x: Node) -> [[usize; 6]; 16]
    ensures { result ≡ store_of x }
{
    let mut store = [no_tuple(); 16];
    fill(&x.tuples, 16, &mut store, tuple_words);
    store
}

fn policy_of(x: Node) -> [[bool; 65]; 16]
    ensures { result ≡ policy_of x }
{
    let mut policy = [[false; 65]; 16];
    fill(&x.rows, 16, &mut policy, row_flags);
    policy
}

// The words of a net's nodes.
#[inline(never)]
pub(crate) fn load(
    net: Net,
    procs: &mut [[[usize; 16]; 4]; 16],
    stored: &mut [usize; 16],
    tuples: &mut [[[usize; 6]; 16]; 16],
    rows: &mut [[[bool; 65]; 16]; 16],
)
    ensures procs_after { procs.new ≡ loaded_slots net.nodes procs.old }
    ensures stored_after { stored.new ≡ loaded_counts net.nodes stored.old }
    ensures tuples_after { tuples.new ≡ loaded_tuples net.nodes tuples.old }
    ensures rows_after { rows.new ≡ loaded_rows net.nodes rows.old }
{
    fill(&net.nodes, 16, procs, slots_of);
    fill(&net.nodes, 16, stored, |x| x.stored);
    fill(&net.nodes, 16, tuples, store_of);
    fill(&net.nodes, 16, rows, policy_of);
}

#[inline(never)]
pub(crate) fn load_needs(code: [Instruction; 512], length: usize, needs: &mut [[bool; 69]; 512])
    requires { length ≤ 512 }
    ensures { needs.new ≡ loaded_needs code length needs.old }
{
    for q in 0..length {
        let sent = sent_by(code[q]);
        if sent.0 < 512 {
            needs[q] = needs_from(code, sent);
        }
    }
}
