// The nodes of a net as bytes (the layout stands in lib.rt).
use crate::bytes::{Dump, Sink, dump_kind, dump_small, low_byte};
use net::locality::{Locality, Place};
use net::node::Node;
use net::policy::{Rights, Row};
use net::process::Process;
use net::tuple::{Field, Item, Tuple, Value, Variable};

impl Dump for Locality {
    fn dump<S: Sink>(&self, sink: &mut S) {
        self.0.dump(sink);
    }
}

impl Dump for Place {
    fn dump<S: Sink>(&self, sink: &mut S) {
        self.0.dump(sink);
    }
}

// A right's bit, where it is held.
fn weight(right: bool, unit: u8) -> u8 {
    if right { unit } else { 0 }
}

impl Dump for Rights {
    fn dump<S: Sink>(&self, sink: &mut S) {
        let taking = weight(self.take, 8) | weight(self.read, 4);
        let giving = weight(self.put, 2) | weight(self.send, 1);
        (taking | giving).dump(sink);
    }
}

impl Dump for Row {
    fn dump<S: Sink>(&self, sink: &mut S) {
        self.create.dump(sink);
        self.rights.dump(sink);
    }
}

impl Dump for Variable {
    fn dump<S: Sink>(&self, sink: &mut S) {
        match self.value {
            Value::Unset => dump_small(0, 0, sink),
            Value::Reading(x) => dump_kind(1, x.to_le_bytes(), sink),
            Value::Address(l) => dump_small(2, l.0, sink),
        }
    }
}

impl Dump for Process {
    fn dump<S: Sink>(&self, sink: &mut S) {
        self.busy.dump(sink);
        self.at.dump(sink);
        self.origin.dump(sink);
        self.variables.dump(sink);
    }
}

impl Dump for Field {
    fn dump<S: Sink>(&self, sink: &mut S) {
        match self.item {
            Item::Reading(x) => dump_kind(1, x.to_le_bytes(), sink),
            Item::Address(l) => dump_small(2, l.0, sink),
        }
    }
}

impl Dump for Tuple {
    fn dump<S: Sink>(&self, sink: &mut S) {
        low_byte(self.count).dump(sink);
        self.fields.dump(sink);
        self.mark.dump(sink);
    }
}

impl Dump for Node {
    fn dump<S: Sink>(&self, sink: &mut S) {
        self.rows.dump(sink);
        self.processes.dump(sink);
        low_byte(self.stored).dump(sink);
        self.tuples.dump(sink);
    }
}
