// Localities and code places: two types, never mixed (document 01, "The net"); sets of localities (document 02, slip 11).
ghost use Rattle.std.specs.Prelude.{◌≡◌};
ghost use Rattle.net.specs.Groups.{member};

// The address of a node.
#[derive(Clone, Copy, PartialEq, Eq, Debug)]
pub struct Locality(pub u8);

// The place of an instruction in the code: a process identifier of the calculus.
#[derive(Clone, Copy, PartialEq, Eq, Debug)]
pub struct Place(pub u16);

// A set of localities: a bit for each, the most significant one for address 0.
#[derive(Clone, Copy, PartialEq, Eq, Debug)]
pub struct Group(pub u16);

impl Group {
    // Whether an address is a member.
    pub fn has(self, l: Locality) -> bool
        ensures { result ≡ member self l }
    {
        let at = l.0 as usize;
        if at < 16 {
            (self.0 as usize >> (15 - at)) % 2 == 1
        } else {
            false
        }
    }
}
