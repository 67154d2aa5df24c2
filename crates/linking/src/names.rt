// The names of a text, once it is read (document 01, "The planners' notation"), in three tables of 512 entries: the word of
// what each stands for (where its body starts, or the name itself until it is defined), whether it is defined, and
// whether it is used.
ghost use Rattle.std.specs.Prelude.{◌≡◌, false, get_or};
ghost use Rattle.linking.specs.NameTable.{start_from, start_for, settled_in, name_right_in, names_right_in};

use terms::loading::word_at;

// What a start is: an instruction or still a name, by its number.
#[derive(Clone, Copy, PartialEq, Eq, Debug)]
pub enum Start {
    Here(usize),
    Called(usize),
}

// An entry of a table; false past its end.
pub fn flag_at(flags: &[bool], k: usize) -> bool
    ensures { result ≡ get_or flags.now k false }
{
    flags.get(k).copied().unwrap_or(false)
}

// What a word stands for.
#[tactic(auto, unfolding(crate::specs::NameTable::start_from, net::specs::Choice::choose))]
pub(crate) fn start_from(w: usize) -> Start
    ensures { start_for result ≡ start_from w }
{
    if w < 512 {
        Start::Called(w)
    } else {
        Start::Here(w - 512)
    }
}

// Where names lead from a start: more hops than 512 go in a circle.
pub(crate) fn settle(bodies: &[usize], from: Start) -> Start
    ensures { start_for result ≡ settled_in bodies.now (start_for from) }
{
    let mut start = from;
    for hops in 0..512usize {
        match start {
            Start::Called(k) => start = start_from(word_at(bodies, k)),
            Start::Here(_) => return start,
        }
    }
    start
}

// Whether name k is defined where it is used, and settles where it is defined.
#[tactic(auto, unfolding(crate::specs::NameTable::name_right_in, crate::specs::Compiled::is_here, net::specs::Choice::both, net::specs::Choice::implies))]
fn name_right(bodies: &[usize], defs: &[bool], uses: &[bool], k: usize) -> bool
    ensures { result ≡ name_right_in bodies.now defs.now uses.now k }
{
    if flag_at(defs, k) {
        matches!(settle(bodies, Start::Called(k)), Start::Here(_))
    } else {
        !flag_at(uses, k)
    }
}

// Whether all names are right; `twice` says that one is defined twice.
pub fn names_right(bodies: &[usize], defs: &[bool], uses: &[bool], twice: bool) -> bool
    ensures { result ≡ names_right_in bodies.now defs.now uses.now twice }
{
    for k in 0..512 {
        if !name_right(bodies, defs, uses, k) {
            return false;
        }
    }
    !twice
}
