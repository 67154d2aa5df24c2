// A tuple as 6 words: its four fields, its count, its mark. A node's tuples stand oldest first.
ghost use Rattle.std.specs.Prelude.{◌≡◌};
ghost use Rattle.lean_words.specs.Stores.{no_tuple, tuple_words, tuple_in, fits_words, oldest_in, put_words, closed_up};

use crate::words::{address_of, item_of, item_word};
use net::tuple::{Field, Tuple};

// A record that holds no tuple.
pub fn no_tuple() -> [usize; 6]
    ensures { result ≡ no_tuple }
{
    [257, 257, 257, 257, 0, 0]
}

pub fn tuple_words(t: Tuple) -> [usize; 6]
    ensures { result ≡ tuple_words t }
{
    let mut words = [0usize; 6];
    for (i, field) in t.fields.iter().enumerate() {
        words[i] = item_word(field.item);
    }
    words[4] = t.count;
    words[5] = usize::from(t.mark.0);
    words
}

pub fn tuple_of(words: [usize; 6]) -> Tuple
    ensures { result ≡ tuple_in words }
{
    let mut t = Tuple::zero();
    for i in 0..4 {
        let item = item_of(words[i]);
        t.fields[i] = Field { item };
    }
    t.count = words[4];
    t.mark = address_of(words[5]);
    t
}

// Whether a tuple has as many fields as a template wants, each within its range.
fn fits(t: &[usize; 6], want: &[usize; 9]) -> bool
    ensures { result ≡ fits_words t.now want.now }
{
    let first = (want[0] <= t[0]) & (t[0] <= want[1]);
    let second = (want[2] <= t[1]) & (t[1] <= want[3]);
    let third = (want[4] <= t[2]) & (t[2] <= want[5]);
    let fourth = (want[6] <= t[3]) & (t[3] <= want[7]);
    (t[4] == want[8]) & ((first & second) & (third & fourth))
}

// The oldest of so many tuples that fits; 16 where none does.
pub fn oldest(ts: &[[usize; 6]; 16], stored: usize, want: &[usize; 9]) -> usize
    ensures { result ≡ oldest_in ts.now stored want.now }
{
    for j in 0..16 {
        if fits(&ts[j], want) & (j < stored) {
            return j;
        }
    }
    16
}

// The tuple of an out of what is wanted, with the mark of its host.
pub fn put_words(want: &[usize; 9], a: usize) -> [usize; 6]
    ensures { result ≡ put_words want.now a }
{
    [want[0], want[2], want[4], want[6], want[8], a]
}

// The tuple at place i taken out: the younger ones move up.
pub fn close_up(ts: &mut [[usize; 6]; 16], i: usize)
    ensures { ts.new ≡ closed_up ts.old i }
{
    for j in i..15 {
        ts[j] = ts[j + 1];
    }
    ts[15] = no_tuple();
}
