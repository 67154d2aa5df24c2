// Process slots (document 01, "The net").
ghost use Rattle.std.specs.Prelude.{◌≡◌};
ghost use Rattle.net.specs.Records.{free_process, starting_at, with_variable, moved_to, copied_to, sent_from};

use crate::locality::{Locality, Place};
use crate::tuple::{Value, Variable};

// A slot: free, or held by a process that stands at a place with its variables. `origin` is the address of the node that its code
// came from: a starting process has its own node's, sent code that of the node that sent it (document 02, slip 10).
#[derive(Clone, Copy, PartialEq, Eq, Debug)]
pub struct Process {
    pub busy: bool,
    pub at: Place,
    pub origin: Locality,
    pub variables: [Variable; 8],
}

impl Process {
    // A free slot.
    #[tactic(auto, unfolding(crate::specs::Records::free_process))]
    pub fn free() -> Process
        ensures { result ≡ free_process }
    {
        Process {
            busy: false,
            at: Place(0),
            origin: Locality(0),
            variables: [Variable::unset(); 8],
        }
    }

    // The process at another place.
    #[tactic(auto, unfolding(crate::specs::Records::moved_to))]
    pub fn moved_to(self, at: Place) -> Process
        ensures { result ≡ moved_to self at }
    {
        Process { at, ..self }
    }

    // A new process at a place, of the same origin and with a copy of the variables.
    #[tactic(auto, unfolding(crate::specs::Records::copied_to))]
    pub fn copied_to(self, at: Place) -> Process
        ensures { result ≡ copied_to self at }
    {
        Process {
            busy: true,
            at,
            ..self
        }
    }

    // Code that address a sends: a new process at a place, of origin a and with a copy of the variables.
    #[tactic(auto, unfolding(crate::specs::Records::sent_from))]
    pub fn sent_from(self, a: Locality, at: Place) -> Process
        ensures { result ≡ sent_from a self at }
    {
        Process {
            busy: true,
            at,
            origin: a,
            ..self
        }
    }

    // A process of an origin that starts at a place, with every variable unset.
    #[tactic(auto, unfolding(crate::specs::Records::starting_at))]
    pub fn starting(origin: Locality, at: Place) -> Process
        ensures { result ≡ starting_at origin at }
    {
        Process {
            busy: true,
            at,
            origin,
            variables: [Variable::unset(); 8],
        }
    }

    // The process with a value in a variable, or as it was past the last variable.
    #[tactic(auto, unfolding(crate::specs::Records::with_variable))]
    pub fn with_variable(mut self, v: usize, x: Value) -> Process
        ensures { result ≡ with_variable self v x }
    {
        if v < 8 {
            self.variables[v] = Variable { value: x };
        }
        self
    }
}
