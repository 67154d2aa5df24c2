// Nodes from their bytes (the layout stands in the crate `dump`).
use crate::taken::{Restore, Source};
use net::locality::{Locality, Place};
use net::node::Node;
use net::policy::{Rights, Row};
use net::process::Process;
use net::tuple::{Field, Item, Tuple, Value, Variable};

impl Restore for Rights {
    fn restore(&mut self, source: &mut Source) {
        let b = source.byte();
        *self = Rights {
            take: b / 8 % 2 == 1,
            read: b / 4 % 2 == 1,
            put: b / 2 % 2 == 1,
            send: b % 2 == 1,
        };
    }
}

impl Restore for Row {
    fn restore(&mut self, source: &mut Source) {
        self.create = source.flag();
        self.rights.restore(source);
    }
}

impl Restore for Variable {
    fn restore(&mut self, source: &mut Source) {
        let kind = source.byte();
        let bytes = source.four();
        self.value = match kind {
            0 => Value::Unset,
            1 => Value::Reading(i32::from_le_bytes(bytes)),
            _ => Value::Address(Locality(bytes[0])),
        };
    }
}

impl Restore for Process {
    fn restore(&mut self, source: &mut Source) {
        self.busy = source.flag();
        self.at = Place(source.two());
        self.origin = Locality(source.byte());
        self.variables.restore(source);
    }
}

impl Restore for Field {
    fn restore(&mut self, source: &mut Source) {
        let kind = source.byte();
        let bytes = source.four();
        self.item = match kind {
            1 => Item::Reading(i32::from_le_bytes(bytes)),
            _ => Item::Address(Locality(bytes[0])),
        };
    }
}

impl Restore for Tuple {
    fn restore(&mut self, source: &mut Source) {
        self.count = source.count();
        self.fields.restore(source);
        self.mark = Locality(source.byte());
    }
}

impl Restore for Node {
    fn restore(&mut self, source: &mut Source) {
        self.rows.restore(source);
        self.processes.restore(source);
        self.stored = source.count();
        self.tuples.restore(source);
    }
}
