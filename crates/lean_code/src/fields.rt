// A template as four words for each field: from where its value comes (the word of the process that its variable stands in, or `WRITTEN`,
// or `OWN`); the lowest and the highest word that fit where they are written; to which word of the process what is met goes.
ghost use Rattle.std.specs.Prelude.{◌≡◌};
ghost use Rattle.lean_words.specs.Stores.{oldest_in, put_words};
ghost use Rattle.lean_code.specs.Fields.{actual_words, formal_words, field_words, template_words};
ghost use Rattle.lean_code.specs.Fields.{word_from, is_there, defined_words, wants_words, bound_words};

use lean_words::stores::{oldest, put_words};
use lean_words::words::{LIMIT, UNSET, reading_word};
use net::instruction::{Instruction, Pattern};

// From the code, and from the host. The word of the process at these places is its origin, which is no unset variable.
pub const WRITTEN: usize = 9;

pub const OWN: usize = 25;

// The word of a process that takes what is bound to no variable.
const NOWHERE: usize = 10;

// The word of a process that a variable stands in.
pub fn place_in(v: u8) -> usize
    ensures { result ≡ v }
{
    v as usize
}

// A field that has one value, written or in a word of the process; what is met goes nowhere.
fn actual(from: usize, w: usize) -> [usize; 4]
    ensures { result ≡ actual_words from w }
{
    [from, w, w, NOWHERE]
}

// A formal: what is met goes to its variable.
fn formal(low: usize, high: usize, v: u8) -> [usize; 4]
    ensures { result ≡ formal_words low high v }
{
    [WRITTEN, low, high, place_in(v)]
}

fn field_words(x: Pattern) -> [usize; 4]
    ensures { result ≡ field_words x }
{
    match x {
        Pattern::Reading(v) => actual(WRITTEN, reading_word(v)),
        Pattern::Address(l) => actual(WRITTEN, l.0 as usize),
        Pattern::Own => actual(OWN, 0),
        Pattern::Held(v) => actual(place_in(v), 0),
        Pattern::FormalReading(v) => formal(UNSET + 1, LIMIT, v),
        Pattern::FormalAddress(v) => formal(0, UNSET, v),
    }
}

pub fn template_words(c: Instruction) -> [[usize; 4]; 4]
    ensures { result ≡ template_words c }
{
    let mut words = [[0usize; 4]; 4];
    for (i, field) in c.template.iter().enumerate() {
        words[i] = field_words(field.pattern);
    }
    words
}

// What a field or a target is for the process with the words p, hosted at a: the word that it comes from, or the written one.
pub fn word_from(p: &[usize; 16], a: usize, from: usize, written: usize) -> usize
    ensures { result ≡ word_from p.now a from written }
{
    let held = p[from % 16];
    if from == WRITTEN {
        written
    } else if from == OWN {
        a
    } else {
        held
    }
}

// Whether what a field comes from is there.
fn is_there(p: &[usize; 16], from: usize) -> bool
    ensures { result ≡ is_there p.now from }
{
    p[from % 16] != UNSET
}

// Whether every variable that a template takes its values from is set.
pub fn defined(p: &[usize; 16], f: &[[usize; 4]; 4]) -> bool
    ensures { result ≡ defined_words p.now f.now }
{
    let first = is_there(p, f[0][0]);
    let second = is_there(p, f[1][0]);
    let third = is_there(p, f[2][0]);
    let fourth = is_there(p, f[3][0]);
    (first & second) & (third & fourth)
}

// What a template of the process with the words p, hosted at a, wants: for each field the lowest and the highest word, and its count.
fn wants(p: &[usize; 16], a: usize, f: &[[usize; 4]; 4], count: usize) -> [usize; 9]
    ensures { result ≡ wants_words p.now a f.now count }
{
    let low0 = word_from(p, a, f[0][0], f[0][1]);
    let high0 = word_from(p, a, f[0][0], f[0][2]);
    let low1 = word_from(p, a, f[1][0], f[1][1]);
    let high1 = word_from(p, a, f[1][0], f[1][2]);
    let low2 = word_from(p, a, f[2][0], f[2][1]);
    let high2 = word_from(p, a, f[2][0], f[2][2]);
    let low3 = word_from(p, a, f[3][0], f[3][1]);
    let high3 = word_from(p, a, f[3][0], f[3][2]);
    [low0, high0, low1, high1, low2, high2, low3, high3, count]
}

// The tuple of an out, with the mark of its host a.
pub fn made(p: &[usize; 16], a: usize, f: &[[usize; 4]; 4], count: usize) -> [usize; 6]
    ensures { result ≡ put_words (wants_words p.now a f.now count) a }
{
    let want = wants(p, a, f, count);
    put_words(&want, a)
}

// The oldest of so many tuples that a template meets; 16 where none fits.
pub fn met(
    p: &[usize; 16],
    a: usize,
    f: &[[usize; 4]; 4],
    count: usize,
    ts: &[[usize; 6]; 16],
    stored: usize,
) -> usize
    ensures { result ≡ oldest_in ts.now stored (wants_words p.now a f.now count) }
{
    let want = wants(p, a, f, count);
    oldest(ts, stored, &want)
}

// The process bound to a tuple, and moved on.
pub fn bind(p: &mut [usize; 16], f: &[[usize; 4]; 4], t: &[usize; 6], next: usize)
    ensures { p.new ≡ bound_words p.old f.now t.now next }
{
    p[f[0][3] % 16] = t[0];
    p[f[1][3] % 16] = t[1];
    p[f[2][3] % 16] = t[2];
    p[f[3][3] % 16] = t[3];
    p[8] = next;
}
