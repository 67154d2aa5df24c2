// Instructions written into a lent table, nine words each: those past its end are left away.
ghost use Rattle.std.specs.Prelude.{◌*◌, ◌≡◌, slice_set};
ghost use Rattle.text.specs.Buffer.{over};
ghost use Rattle.terms.specs.Table.{target_word, pattern_word, Kind, kind_number, plain_entry, instruction_words, entry_words};

use net::instruction::{Instruction, Pattern, Target};
use text::signed::complement;

// One element of a lent list; past its end nothing changes.
pub fn put<T: Copy>(list: &mut [T], at: usize, x: T)
    ensures { list.new ≡ slice_set list.old at x }
{
    if at < list.len() {
        list[at] = x;
    }
}

// The word of a target.
#[tactic(auto, unfolding(crate::specs::Table::target_word))]
pub fn target_word(t: Target) -> usize
    ensures { result ≡ target_word t }
{
    match t {
        Target::Written(l) => l.0 as usize,
        Target::Own => 256,
        Target::Held(v) => 512 + v as usize,
    }
}

// The word of a template field.
#[tactic(auto, unfolding(crate::specs::Table::pattern_word))]
fn pattern_word(p: Pattern) -> usize
    ensures { result ≡ pattern_word p }
{
    match p {
        Pattern::Reading(x) => complement(x) as usize,
        Pattern::Address(l) => 4294967296 + l.0 as usize,
        Pattern::Own => 4294967552,
        Pattern::Held(v) => 4294967808 + v as usize,
        Pattern::FormalReading(v) => 4294968064 + v as usize,
        Pattern::FormalAddress(v) => 4294968320 + v as usize,
    }
}

// What an instruction that is stored does.
#[derive(Clone, Copy, PartialEq, Eq, Debug)]
pub enum Kind {
    Stop,
    Out,
    In,
    Read,
    Eval,
    New,
    Fork,
    OutAll,
}

// An instruction that is stored: what it does, its target's word, its template, and the words of the start that follows and
// of the second one.
#[derive(Clone, Copy)]
pub struct Entry {
    pub kind: Kind,
    pub target: usize,
    pub template: Instruction,
    pub next: usize,
    pub second: usize,
}

impl Entry {
    // The instruction that has nothing but its kind.
    pub fn of(kind: Kind) -> Entry
        ensures { result ≡ plain_entry kind }
    {
        Entry {
            kind,
            target: 0,
            template: Instruction::zero(),
            next: 0,
            second: 0,
        }
    }
}

// The number that stands for a kind.
fn number(kind: Kind) -> usize
    ensures { result ≡ kind_number kind }
{
    match kind {
        Kind::Stop => 0,
        Kind::Out => 1,
        Kind::In => 2,
        Kind::Read => 3,
        Kind::Eval => 4,
        Kind::New => 5,
        Kind::Fork => 6,
        Kind::OutAll => 7,
    }
}

// The instruction with the number n, stored by its words: a kind's number, which may be any, a target's word, a template,
// and the words of the start that follows and of the second one.
pub fn store_words(
    table: &mut [usize],
    n: usize,
    kind: usize,
    target: usize,
    c: Instruction,
    next: usize,
    second: usize,
)
    ensures { table.new ≡ over table.old (9 * n) (instruction_words kind target c next second) }
{
    if n > table.len() / 9 {
        return;
    }
    let [p, q, r, s] = c.template;
    let words = [
        kind,
        target,
        c.count,
        pattern_word(p.pattern),
        pattern_word(q.pattern),
        pattern_word(r.pattern),
        pattern_word(s.pattern),
        next,
        second,
    ];
    for (i, w) in words.iter().enumerate() {
        put(table, 9 * n + i, *w);
    }
}

// The instruction with the number n, stored.
pub fn store(table: &mut [usize], n: usize, entry: Entry)
    ensures { table.new ≡ over table.old (9 * n) (entry_words entry) }
{
    let kind = number(entry.kind);
    store_words(
        table,
        n,
        kind,
        entry.target,
        entry.template,
        entry.next,
        entry.second,
    );
}
