// The entries of a list of names (document 02, slip 14). An entry is known by the place of its first byte.
ghost use Rattle.std.specs.Prelude.{◌≡◌, ◌+◌, ◌<◌, length};
ghost use Rattle.names.specs.Names.{size_at, length_fault, cut_fault, all_letters, letter_fault, entry_fault, list_fault};
ghost use Rattle.names.specs.Faults.{fault_number, number_of};
ghost use Rattle.names.specs.Lookup.{PartOf, Sought};

use net::locality::Locality;

// What is wrong with an entry: its length is 0, the list ends before it does, or a byte of its text is out of range.
#[derive(Clone, Copy, Debug, PartialEq, Eq)]
pub enum NamesFault {
    NoLength,
    CutShort,
    OutOfRange,
}

impl NamesFault {
    pub fn number(self) -> u8
        ensures { result ≡ fault_number self }
    {
        match self {
            NamesFault::NoLength => 51,
            NamesFault::CutShort => 52,
            NamesFault::OutOfRange => 53,
        }
    }
}

// The place after an entry; past the list's end, where the entry is cut short.
fn end_of(list: &[u8], at: usize) -> usize
    requires { at < length list.now }
    ensures { result ≡ at + 1 + size_at list.now at }
{
    at + 1 + (list[at] % 16) as usize
}

// The text of an entry, as far as the list reaches.
pub(crate) fn text_at(list: &[u8], at: usize) -> &[u8]
    requires { at < length list.now }
    ensures { PartOf list.entry (at + 1) (size_at list.now at) result }
{
    let from = at + 1;
    let end = end_of(list, at);
    if end <= list.len() {
        &list[from..end]
    } else {
        &list[from..]
    }
}

// ---- the test of a list

fn test_length(list: &[u8], at: usize) -> Result<(), NamesFault>
    requires { at < length list.now }
    ensures { number_of result ≡ length_fault list.now at }
{
    if list[at] % 16 == 0 {
        Err(NamesFault::NoLength)
    } else {
        Ok(())
    }
}

fn test_end(list: &[u8], at: usize) -> Result<(), NamesFault>
    requires { at < length list.now }
    ensures { number_of result ≡ cut_fault list.now at }
{
    if list.len() < end_of(list, at) {
        Err(NamesFault::CutShort)
    } else {
        Ok(())
    }
}

// Whether each byte of a text may stand in a name: 33 to 126.
fn all_letters(text: &[u8]) -> bool
    ensures { result ≡ all_letters text.now }
{
    text.iter().all(|b| 33 <= *b && *b <= 126)
}

fn test_letters(list: &[u8], at: usize) -> Result<(), NamesFault>
    requires { at < length list.now }
    ensures { number_of result ≡ letter_fault list.now at }
{
    if all_letters(text_at(list, at)) {
        Ok(())
    } else {
        Err(NamesFault::OutOfRange)
    }
}

// The first fault of an entry.
fn test_entry(list: &[u8], at: usize) -> Result<(), NamesFault>
    requires { at < length list.now }
    ensures { number_of result ≡ entry_fault list.now at }
{
    let size = test_length(list, at);
    let end = test_end(list, at);
    let letters = test_letters(list, at);
    size.and(end).and(letters)
}

// The first fault of a list.
// Kept: a `while`, here and in `find`: the step is an entry's length, so no range or iterator counts it.
pub(crate) fn test_list(list: &[u8]) -> Result<(), NamesFault>
    ensures { number_of result ≡ list_fault list.now }
{
    let mut at = 0;
    while at < list.len() {
        test_entry(list, at)?;
        at = end_of(list, at);
    }
    Ok(())
}

// ---- the place of the first entry for an address

pub(crate) fn find(list: &[u8], address: Locality) -> Option<usize>
    ensures { Sought list.now address result }
{
    let mut at = 0;
    while at < list.len() {
        if list[at] / 16 == address.0 {
            return Some(at);
        }
        at = end_of(list, at);
    }
    None
}
