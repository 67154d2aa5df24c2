// Instructions (document 01, "The image", part 5).
ghost use Rattle.std.specs.Prelude.{◌≡◌};
ghost use Rattle.net.specs.Records.{zero_template_field, zero_instruction, with_pattern, with_action};

use crate::locality::{Group, Locality, Place};

// Where an action takes place: at a written address, at the host itself, or at the address that a
// variable holds.
#[derive(Clone, Copy, PartialEq, Eq, Debug)]
pub enum Target {
    Written(Locality),
    Own,
    Held(u8),
}

// One field of a template: an actual (a reading, an address, self, a variable's value) or a formal.
#[derive(Clone, Copy, PartialEq, Eq, Debug)]
pub enum Pattern {
    Reading(i32),
    Address(Locality),
    Own,
    Held(u8),
    FormalReading(u8),
    FormalAddress(u8),
}

#[derive(Clone, Copy, PartialEq, Eq, Debug)]
pub struct TemplateField {
    pub pattern: Pattern,
}

// What an instruction does, with its target and the places that follow it. `Eval` has the sent place
// before the next one; `OutAll` is an out to each member of a set.
#[derive(Clone, Copy, PartialEq, Eq, Debug)]
pub enum Action {
    Stop,
    Out(Target, Place),
    In(Target, Place),
    Read(Target, Place),
    Eval(Target, Place, Place),
    New(u8, Place),
    Fork(Place, Place),
    OutAll(Group, Place),
}

// An action with the `count` template fields of an out, to one or to all of a set, an in or a read; the fields past them
// are zero.
// Kept: `count` beside the template: no heap, and `pick` answers for nets whose fields past it are not zero.
#[derive(Clone, Copy, PartialEq, Eq, Debug)]
pub struct Instruction {
    pub action: Action,
    pub count: usize,
    pub template: [TemplateField; 4],
}

impl TemplateField {
    #[tactic(auto, unfolding(crate::specs::Records::zero_template_field))]
    pub fn zero() -> TemplateField
        ensures { result ≡ zero_template_field }
    {
        TemplateField {
            pattern: Pattern::Reading(0),
        }
    }
}

impl Instruction {
    // A stop, which has no template.
    #[tactic(auto, unfolding(crate::specs::Records::zero_instruction))]
    pub fn zero() -> Instruction
        ensures { result ≡ zero_instruction }
    {
        Instruction {
            action: Action::Stop,
            count: 0,
            template: [TemplateField::zero(); 4],
        }
    }

    // The instruction with one template field more, or as it was where it has four.
    #[tactic(auto, unfolding(crate::specs::Records::with_pattern, crate::specs::Choice::choose))]
    pub fn with_pattern(mut self, f: TemplateField) -> Instruction
        ensures { result ≡ with_pattern self f }
    {
        let at = self.count;
        if at < 4 {
            self.template[at] = f;
            self.count = at + 1;
        }
        self
    }

    // The instruction with another action.
    #[tactic(auto, unfolding(crate::specs::Records::with_action))]
    pub fn with_action(self, action: Action) -> Instruction
        ensures { result ≡ with_action self action }
    {
        Instruction { action, ..self }
    }
}
