// Values and tuples (document 01, "The net").
ghost use Rattle.std.specs.Prelude.{◌≡◌};
ghost use Rattle.net.specs.Records.{zero_field, zero_tuple, unset_variable, marked, with_field};

use crate::locality::Locality;

// What a variable of a process holds.
#[derive(Clone, Copy, PartialEq, Eq, Debug)]
pub enum Value {
    Unset,
    Reading(i32),
    Address(Locality),
}

#[derive(Clone, Copy, PartialEq, Eq, Debug)]
pub struct Variable {
    pub value: Value,
}

// What a field of a tuple holds: a reading or an address, never unset.
#[derive(Clone, Copy, PartialEq, Eq, Debug)]
pub enum Item {
    Reading(i32),
    Address(Locality),
}

#[derive(Clone, Copy, PartialEq, Eq, Debug)]
pub struct Field {
    pub item: Item,
}

// A tuple of `count` fields; the fields past them are zero. `mark` is the address of the node where its out was performed; an
// image's tuples have that of their own node (document 02, slip 8).
// Kept: `count` beside the fields: no heap, and `pick` answers for nets whose fields past it are not zero.
#[derive(Clone, Copy, PartialEq, Eq, Debug)]
pub struct Tuple {
    pub count: usize,
    pub fields: [Field; 4],
    pub mark: Locality,
}

impl Variable {
    // A variable that is not set.
    #[tactic(auto, unfolding(crate::specs::Records::unset_variable))]
    pub fn unset() -> Variable
        ensures { result ≡ unset_variable }
    {
        Variable {
            value: Value::Unset,
        }
    }
}

impl Field {
    #[tactic(auto, unfolding(crate::specs::Records::zero_field))]
    pub fn zero() -> Field
        ensures { result ≡ zero_field }
    {
        Field {
            item: Item::Reading(0),
        }
    }
}

impl Tuple {
    // A record that holds no tuple.
    #[tactic(auto, unfolding(crate::specs::Records::zero_tuple))]
    pub fn zero() -> Tuple
        ensures { result ≡ zero_tuple }
    {
        Tuple {
            count: 0,
            fields: [Field::zero(); 4],
            mark: Locality(0),
        }
    }

    // The tuple with the mark of address a.
    #[tactic(auto, unfolding(crate::specs::Records::marked))]
    pub fn marked(self, a: Locality) -> Tuple
        ensures { result ≡ marked a self }
    {
        Tuple { mark: a, ..self }
    }

    // Kept: a twin of `with_pattern`: one function over both records would take the array and the count apart.
    // The tuple with one field more, or as it was where it has four.
    #[tactic(auto, unfolding(crate::specs::Records::with_field, crate::specs::Choice::choose))]
    pub fn with_field(mut self, f: Field) -> Tuple
        ensures { result ≡ with_field self f }
    {
        let at = self.count;
        if at < 4 {
            self.fields[at] = f;
            self.count = at + 1;
        }
        self
    }
}
