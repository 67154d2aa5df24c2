// Faults (document 01, "Numbers for an image"; document 02, slip 2).
ghost use Rattle.std.specs.Prelude.{◌≡◌, Ok, Err};
ghost use Rattle.net.specs.Choice.{choose};
ghost use Rattle.readers.specs.Reader.{fault_at};

// What a refusal carries: the number of the first fault, the place at which the field at fault begins, and how many
// places it takes. Of a text only the number is told.
#[derive(Clone, Copy, Debug, PartialEq, Eq)]
pub struct Fault {
    pub number: u8,
    pub place: usize,
    pub width: usize,
}

impl Fault {
    // The fault of a number in a field. Every fault is made here.
    #[tactic(auto, unfolding(crate::specs::Reader::fault_at))]
    pub fn at(number: u8, place: usize, width: usize) -> Fault
        ensures { result ≡ fault_at number place width }
    {
        Fault {
            number,
            place,
            width,
        }
    }
}

// The fault n in the field of width w that begins at place `at`, unless the test holds.
#[tactic(auto, unfolding(net::specs::Choice::choose))]
pub fn require_in(at: usize, w: usize, ok: bool, n: u8) -> Result<(), Fault>
    ensures { result ≡ choose ok (Ok tt) (Err (fault_at n at w)) }
{
    if ok { Ok(()) } else { Err(Fault::at(n, at, w)) }
}
