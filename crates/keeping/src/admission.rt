// Admission (document 01, "Reaching and rights"): whether the processes of a net keep within the rows of their nodes,
// each within the row for its origin (document 02, slip 10).
ghost use Rattle.std.specs.Prelude.{◌≡◌};
ghost use Rattle.keeping.specs.Admission.{admits_process, admits_node, admits};

use crate::rights::keeps;
use net::instruction::Instruction;
use net::locality::Locality;
use net::network::Net;
use net::node::Node;
use net::process::Process;

// Whether a process of the node x at address a keeps within the row for its origin.
#[tactic(auto, unfolding(crate::specs::Admission::admits_process, net::specs::Choice::implies))]
pub fn admits_process(code: &[Instruction; 512], x: &Node, a: Locality, p: Process) -> bool
    ensures { result ≡ admits_process code.now x.now a p }
{
    if p.busy {
        keeps(code, p.at, a, x.row_for(p))
    } else {
        true
    }
}

// Whether each process of the node x at address a does.
fn admits_node(code: &[Instruction; 512], a: Locality, x: &Node) -> bool
    ensures { result ≡ admits_node code.now a x.now }
{
    for i in 0..4 {
        if !admits_process(code, x, a, x.processes[i]) {
            return false;
        }
    }
    true
}

// Whether each starting process of a net does.
pub fn admitted(net: &Net) -> bool
    ensures { result ≡ admits net.now }
{
    for i in 0..16 {
        if i < net.addresses && !admits_node(&net.code, Locality(i as u8), &net.nodes[i]) {
            return false;
        }
    }
    true
}
