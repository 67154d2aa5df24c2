// Instructions from their bytes (the layout stands in the crate `dump`).
use crate::taken::{Restore, Source};
use net::instruction::{Action, Instruction, Pattern, Target, TemplateField};
use net::locality::{Group, Locality, Place};

// A target from its kind and its value.
fn target_of(pair: [u8; 2]) -> Target {
    match pair {
        [0, value] => Target::Written(Locality(value)),
        [1, _] => Target::Own,
        [_, value] => Target::Held(value),
    }
}

impl Restore for Action {
    fn restore(&mut self, source: &mut Source) {
        let kind = source.byte();
        let pair = [source.byte(), source.byte()];
        let target = target_of(pair);
        let group = Group(u16::from_le_bytes(pair));
        let first = Place(source.two());
        let second = Place(source.two());
        let variable = source.byte();
        *self = match kind {
            0 => Action::Stop,
            1 => Action::Out(target, first),
            2 => Action::In(target, first),
            3 => Action::Read(target, first),
            4 => Action::Eval(target, first, second),
            5 => Action::New(variable, first),
            6 => Action::Fork(first, second),
            _ => Action::OutAll(group, first),
        };
    }
}

impl Restore for TemplateField {
    fn restore(&mut self, source: &mut Source) {
        let kind = source.byte();
        let bytes = source.four();
        let value = bytes[0];
        self.pattern = match kind {
            0 => Pattern::Reading(i32::from_le_bytes(bytes)),
            1 => Pattern::Address(Locality(value)),
            2 => Pattern::Own,
            3 => Pattern::Held(value),
            4 => Pattern::FormalReading(value),
            _ => Pattern::FormalAddress(value),
        };
    }
}

impl Restore for Instruction {
    fn restore(&mut self, source: &mut Source) {
        self.action.restore(source);
        self.count = source.count();
        self.template.restore(source);
    }
}
