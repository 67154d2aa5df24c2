// What a text's processes are read into: a lent table of instructions, numbered one by one, and lent marks of names.
ghost use Rattle.std.specs.Prelude.{◌≡◌, ◌≤◌, ◌+◌, ◌*◌, min, set, true};
ghost use Rattle.text.specs.Buffer.{over};
ghost use Rattle.terms.specs.Table.{entry_words};
ghost use Rattle.processes.specs.Room.{room};

use crate::names::mark;
use terms::table::{Entry, store};

// Numbers of instructions are counted up to here: where the count comes this far, there are too many by far.
const ROOM: usize = 9223372036854775808;

// A table of instructions, the marks of names, and how many instructions have a number.
#[derive(Drop)]
pub struct Code<'a> {
    pub table: &'a mut [usize],
    pub used: &'a mut [bool],
    pub count: usize,
    ghost small: { count ≤ room },
}

impl<'a> Code<'a> {
    // The number of the next instruction, which is counted.
    #[tactic(auto, unfolding(crate::specs::Room::room))]
    pub(crate) fn number(&mut self) -> usize
        ensures number { result ≡ self.old.count }
        ensures counted { self.new.count ≡ min (self.old.count + 1) room }
        ensures table { self.new.table ≡ self.old.table }
        ensures used { self.new.used ≡ self.old.used }
    {
        let n = self.count;
        self.count = (n + 1).min(ROOM);
        n
    }

    // The instruction with the number n, stored.
    pub(crate) fn store(&mut self, n: usize, entry: Entry)
        ensures table { self.new.table.now ≡ over self.old.table.now (9 * n) (entry_words entry) }
        ensures lent { self.new.table.ghost_name ≡ self.old.table.ghost_name }
        ensures count { self.new.count ≡ self.old.count }
        ensures used { self.new.used ≡ self.old.used }
    {
        store(self.table, n, entry);
    }

    // Name k, marked.
    pub(crate) fn mark(&mut self, k: usize)
        ensures used { self.new.used.now ≡ set self.old.used.now k true }
        ensures lent { self.new.used.ghost_name ≡ self.old.used.ghost_name }
        ensures count { self.new.count ≡ self.old.count }
        ensures table { self.new.table ≡ self.old.table }
    {
        mark(self.used, k);
    }
}
