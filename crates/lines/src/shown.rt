// What a listing may show beyond document 01's register.
ghost use Rattle.std.specs.Prelude.{◌≡◌, []};
ghost use Rattle.lines.specs.Shown.{no_parts, all_parts};

// After the last line, `total` and the number of tuples in the net (document 02, slip 1); in the line of a refusal, `at` and
// the bit at which the field at fault begins (slip 2); at the end of a tuple's line, `from` and the address of the node that
// put it (slip 8).
#[derive(Clone, Copy, PartialEq, Eq, Debug)]
pub struct Parts {
    pub total: bool,
    pub place: bool,
    pub mark: bool,
}

// None of them.
pub fn no_parts() -> Parts
    ensures { result ≡ no_parts }
{
    Parts {
        total: false,
        place: false,
        mark: false,
    }
}

// What a register shows.
pub fn all_parts() -> Parts
    ensures { result ≡ all_parts }
{
    Parts {
        total: true,
        place: true,
        mark: true,
    }
}

// The parts that are shown, and the site's and the office's list of station names.
#[derive(Clone, Copy, Drop)]
pub struct Shown<'a> {
    pub parts: Parts,
    pub site: &'a [u8],
    pub office: &'a [u8],
}

impl<'a> Shown<'a> {
    // Those parts, and no station has a name.
    pub fn unnamed(parts: Parts) -> Shown<'a>
        ensures parts { result.parts ≡ parts }
        ensures site { result.site.now ≡ [] }
        ensures office { result.office.now ≡ [] }
    {
        Shown {
            parts,
            site: b"",
            office: b"",
        }
    }
}
