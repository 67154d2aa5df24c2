// The net (document 01, "The net").
ghost use Rattle.std.specs.Prelude.{◌≡◌};
ghost use Rattle.net.specs.Records.{empty_net};

use crate::instruction::Instruction;
use crate::node::Node;

// `addresses` nodes are in use and `length` instructions are code; the records past them are zero. In format 1 a node's
// rows are all alike; in format 2 it has one for each origin.
// Kept: the counts beside the arrays: no heap, and `pick` answers for nets whose records past them are not zero.
#[derive(Clone, Copy, PartialEq, Eq, Debug)]
pub struct Net {
    pub format: usize,
    pub addresses: usize,
    pub length: usize,
    pub nodes: [Node; 16],
    pub code: [Instruction; 512],
}

impl Net {
    // The net that a refused image gives.
    #[tactic(auto, unfolding(crate::specs::Records::empty_net))]
    pub fn empty() -> Net
        ensures { result ≡ empty_net }
    {
        Net {
            format: 0,
            addresses: 0,
            length: 0,
            nodes: [Node::zero(); 16],
            code: [Instruction::zero(); 512],
        }
    }
}
