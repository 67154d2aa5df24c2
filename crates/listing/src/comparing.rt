// Our register compared with a listing: byte by byte, and each number as a whole (document 02, slip 5).
ghost use Rattle.std.specs.Prelude.{◌+◌, ◌<◌, ◌≤◌, true, false, ◌≡◌, drop, get_or, eqb};
ghost use Rattle.net.specs.Choice.{choose};
ghost use Rattle.lexemes.specs.Lexemes.{is_digit};
ghost use Rattle.listing.specs.Comparing.{stands_first, compared_of, longer, number_at, alike, parted_from, ended_from, after_number, after_byte, Open, Advances, Turned};

use crate::checking::Mismatch;
use lexemes::numbers::is_digit;

// ---- numbers

// A number read: its value, cut off where ten digits cannot write it, and the place after its digits.
#[derive(Clone, Copy)]
pub struct Number {
    pub value: usize,
    pub next: usize,
}

// The number v with one digit more.
fn longer_by(v: usize, b: u8) -> usize
    requires { is_digit b ≡ true }
    ensures { result ≡ longer v b }
{
    if v < 10_000_000_000 {
        v * 10 + usize::from(b - b'0')
    } else {
        v
    }
}

// The number that stands at a place.
fn number_at(s: &[u8], from: usize) -> Number
    ensures { result ≡ number_at s.now from }
{
    let mut value = 0;
    for i in from..s.len() {
        if !is_digit(s[i]) {
            return Number { value, next: i };
        }
        value = longer_by(value, s[i]);
    }
    Number {
        value,
        next: from.max(s.len()),
    }
}

// Whether another number, read from a place on, has one to ten digits and the value of mine.
fn is_alike(mine: Number, other: Number, from: usize) -> bool
    requires { from ≤ other.next }
    ensures { result ≡ alike mine other from }
{
    let digits = other.next - from;
    (1 <= digits) & (digits <= 10) & (other.value == mine.value)
}

// ---- turns

// Where the two are compared next: the places in our register and in the listing, the line, and whether it begins here.
#[derive(Clone, Copy)]
pub struct Cursor {
    pub ours: usize,
    pub theirs: usize,
    pub line: usize,
    pub fresh: bool,
}

// The cursor after a number.
fn after_number(at: Cursor, mine: Number, other: Number) -> Cursor
    ensures { result ≡ after_number at mine other }
{
    Cursor {
        ours: mine.next,
        theirs: other.next,
        fresh: false,
        ..at
    }
}

// A number of ours: the cursor after it, or none where the two part.
fn number_turn(ours: &[u8], theirs: &[u8], at: Cursor) -> Option<Cursor>
    requires { Open ours.now at × (is_digit (get_or ours.now at.ours 0) ≡ true) }
    ensures { Turned ours.now theirs.now at result }
{
    let mine = number_at(ours, at.ours);
    let other = number_at(theirs, at.theirs);
    if is_alike(mine, other, at.theirs) {
        Some(after_number(at, mine, other))
    } else {
        None
    }
}

// Whether the byte b stands at a place.
fn stands(s: &[u8], p: usize, b: u8) -> bool
    ensures { result ≡ stands_first b (drop p s.now) }
{
    p < s.len() && s[p] == b
}

// The line after a byte of line i.
fn line_after(i: usize, b: u8) -> usize
    requires { i < 18446744073709551615 }
    ensures { result ≡ choose (eqb b 10) (i + 1) i }
{
    if b == b'\n' { i + 1 } else { i }
}

// The cursor after a byte.
fn after_byte(at: Cursor, b: u8) -> Cursor
    requires { Advances at }
    ensures { result ≡ after_byte at b }
{
    Cursor {
        ours: at.ours + 1,
        theirs: at.theirs + 1,
        line: line_after(at.line, b),
        fresh: b == b'\n',
    }
}

// Another byte of ours: the same.
fn byte_turn(ours: &[u8], theirs: &[u8], at: Cursor) -> Option<Cursor>
    requires { Open ours.now at × (is_digit (get_or ours.now at.ours 0) ≡ false) }
    ensures { Turned ours.now theirs.now at result }
{
    let b = ours[at.ours];
    if stands(theirs, at.theirs, b) {
        Some(after_byte(at, b))
    } else {
        None
    }
}

// What stands at a cursor: the same.
fn turn_at(ours: &[u8], theirs: &[u8], at: Cursor) -> Option<Cursor>
    requires { Open ours.now at }
    ensures { Turned ours.now theirs.now at result }
{
    if is_digit(ours[at.ours]) {
        number_turn(ours, theirs, at)
    } else {
        byte_turn(ours, theirs, at)
    }
}

// ---- the whole

// What is answered where the two part: a line that begins where the listing ends is wanting, any other differs.
fn parted(theirs: &[u8], at: Cursor) -> Mismatch
    ensures { Err result ≡ parted_from theirs.now at }
{
    if at.fresh && theirs.len() <= at.theirs {
        Mismatch::Wanting(at.line)
    } else {
        Mismatch::Differs(at.line)
    }
}

// What is answered where our register ends.
fn ended(theirs: &[u8], at: Cursor) -> Result<(), Mismatch>
    ensures { result ≡ ended_from theirs.now at }
{
    if at.theirs < theirs.len() {
        Err(Mismatch::LeftOver(at.line))
    } else {
        Ok(())
    }
}

// Kept: a while: a cursor moves on by all digits of a number at once, and no count of the turns is known.

// Our register with a listing.
pub(crate) fn compare(ours: &[u8], theirs: &[u8]) -> Result<(), Mismatch>
    ensures { result ≡ compared_of ours.now theirs.now }
{
    let mut at = Cursor {
        ours: 0,
        theirs: 0,
        line: 1,
        fresh: true,
    };
    while at.ours < ours.len() {
        let Some(next) = turn_at(ours, theirs, at) else {
            return Err(parted(theirs, at));
        };
        at = next;
    }
    ended(theirs, at)
}
