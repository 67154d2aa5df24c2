// Instructions as bytes (the layout stands in lib.rt).
use crate::bytes::{Dump, Sink, dump_kind, dump_small, low_byte};
use net::instruction::{Action, Instruction, Pattern, Target, TemplateField};
use net::locality::Place;

// A target's kind and its value.
fn pair_of(target: Target) -> [u8; 2] {
    match target {
        Target::Written(l) => [0, l.0],
        Target::Own => [1, 0],
        Target::Held(v) => [2, v],
    }
}

impl Dump for Action {
    fn dump<S: Sink>(&self, sink: &mut S) {
        let none = Place(0);
        let (kind, aim, first, second, variable) = match *self {
            Action::Stop => (0u8, [0, 0], none, none, 0u8),
            Action::Out(t, p) => (1, pair_of(t), p, none, 0),
            Action::In(t, p) => (2, pair_of(t), p, none, 0),
            Action::Read(t, p) => (3, pair_of(t), p, none, 0),
            Action::Eval(t, sent, p) => (4, pair_of(t), sent, p, 0),
            Action::New(v, p) => (5, [0, 0], p, none, v),
            Action::Fork(p, q) => (6, [0, 0], p, q, 0),
            Action::OutAll(g, p) => (7, g.0.to_le_bytes(), p, none, 0),
        };
        kind.dump(sink);
        aim.dump(sink);
        first.dump(sink);
        second.dump(sink);
        variable.dump(sink);
    }
}

impl Dump for TemplateField {
    fn dump<S: Sink>(&self, sink: &mut S) {
        match self.pattern {
            Pattern::Reading(x) => dump_kind(0, x.to_le_bytes(), sink),
            Pattern::Address(l) => dump_small(1, l.0, sink),
            Pattern::Own => dump_small(2, 0, sink),
            Pattern::Held(v) => dump_small(3, v, sink),
            Pattern::FormalReading(v) => dump_small(4, v, sink),
            Pattern::FormalAddress(v) => dump_small(5, v, sink),
        }
    }
}

impl Dump for Instruction {
    fn dump<S: Sink>(&self, sink: &mut S) {
        self.action.dump(sink);
        low_byte(self.count).dump(sink);
        self.template.dump(sink);
    }
}
