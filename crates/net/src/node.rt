// Nodes (document 01, "The net").
ghost use Rattle.std.specs.Prelude.{◌≤◌, ◌≡◌};
ghost use Rattle.net.specs.Records.{zero_node, row_for, with_row, with_rows, with_process, without_tuple};
ghost use Rattle.net.specs.Records.{free_slot, process_count, put_in, taken_from, started_on};

use crate::locality::Locality;
use crate::policy::Row;
use crate::process::Process;
use crate::tuple::Tuple;

// A node: its policy, which is a row for each origin, its process slots and its tuple space, oldest tuple first.
// Kept: `stored` beside the tuples: no heap, and `pick` answers for nets whose tuples past it are not zero.
#[derive(Clone, Copy, PartialEq, Eq, Debug)]
pub struct Node {
    pub rows: [Row; 16],
    pub processes: [Process; 4],
    pub stored: usize,
    pub tuples: [Tuple; 16],
}

impl Node {
    // A node that is not in use.
    #[tactic(auto, unfolding(crate::specs::Records::zero_node, crate::specs::Records::alike))]
    pub fn zero() -> Node
        ensures { result ≡ zero_node }
    {
        Node {
            rows: [Row::zero(); 16],
            processes: [Process::free(); 4],
            stored: 0,
            tuples: [Tuple::zero(); 16],
        }
    }

    // The node with a tuple put as the newest, where there is room for it.
    #[tactic(auto, unfolding(crate::specs::Records::put_in, crate::specs::Records::with_tuple, crate::specs::Choice::choose))]
    pub fn put(mut self, t: Tuple) -> Option<Node>
        ensures { result ≡ put_in self t }
    {
        let at = self.stored;
        if at < 16 {
            self.tuples[at] = t;
            self.stored = at + 1;
            Some(self)
        } else {
            None
        }
    }

    // The node with the tuple at place i taken, where there is one.
    #[tactic(auto, unfolding(crate::specs::Records::taken_from, crate::specs::Choice::choose))]
    pub fn take(self, i: usize) -> Option<Node>
        ensures { result ≡ taken_from self i }
    {
        if i < self.stored {
            Some(self.without_tuple(i))
        } else {
            None
        }
    }

    // The node with a process started in the lowest free slot, where there is one.
    #[tactic(auto, unfolding(crate::specs::Records::started_on, crate::specs::Records::started_at_slot))]
    pub fn start(self, p: Process) -> Option<Node>
        ensures { result ≡ started_on self p }
    {
        let j = self.free_slot()?;
        Some(self.with_process(j, p))
    }

    // How many processes the node has: its busy slots.
    pub fn process_count(self) -> usize
        ensures { (result ≡ process_count self) × (result ≤ 4) }
    {
        self.processes.iter().filter(|p| p.busy).count()
    }

    // The row that a process of the node is judged by: the one for its origin.
    #[tactic(auto, unfolding(crate::specs::Records::row_for, crate::specs::Records::row_at, crate::specs::Choice::choose))]
    pub fn row_for(self, p: Process) -> Row
        ensures { result ≡ row_for self p }
    {
        let at = p.origin.0 as usize;
        if at < 16 { self.rows[at] } else { Row::zero() }
    }

    // The node with other rows.
    #[tactic(auto, unfolding(crate::specs::Records::with_rows))]
    pub fn with_rows(self, rows: [Row; 16]) -> Node
        ensures { result ≡ with_rows self rows }
    {
        Node { rows, ..self }
    }

    // Kept: a twin of `with_rights` of rows: each is one guarded store into its own record.
    // The node with another row for an origin, or as it was past the last one.
    #[tactic(auto, unfolding(crate::specs::Records::with_row, crate::specs::Records::with_rows))]
    pub fn with_row(mut self, o: Locality, row: Row) -> Node
        ensures { result ≡ with_row self o row }
    {
        let at = o.0 as usize;
        if at < 16 {
            self.rows[at] = row;
        }
        self
    }

    // The node with another process in a slot, or as it was past the last slot.
    #[tactic(auto, unfolding(crate::specs::Records::with_process))]
    pub fn with_process(mut self, k: usize, p: Process) -> Node
        ensures { result ≡ with_process self k p }
    {
        if k < 4 {
            self.processes[k] = p;
        }
        self
    }

    // The node without the tuple at place i: the younger ones move up.
    fn without_tuple(self, i: usize) -> Node
        ensures { result ≡ without_tuple self i }
    {
        let mut node = self;
        node.stored = self.stored.saturating_sub(1);
        for j in 0..16 {
            node.tuples[j] = if j < i {
                self.tuples[j]
            } else if j < 15 {
                self.tuples[j + 1]
            } else {
                Tuple::zero()
            };
        }
        node
    }

    // Kept: a loop for `position`: tried, and the chain's result did not come out at the goal `returns`.
    // The lowest free slot.
    fn free_slot(self) -> Option<usize>
        ensures { result ≡ free_slot self }
    {
        for (j, p) in self.processes.iter().enumerate() {
            if !p.busy {
                return Some(j);
            }
        }
        None
    }
}
