// Items and values as words: an address is its number, an unset variable is 256, and readings stand from 257 on, those from 0 up
// and those below 0 in turn.
ghost use Rattle.std.specs.Prelude.{◌-◌, ◌≡◌};
ghost use Rattle.lean_words.specs.Items.{reading_word, reading_in, address_in, item_word, item_in, value_word, value_in};

use net::locality::Locality;
use net::tuple::{Item, Value};

// The word of an unset variable: addresses are below, readings above.
pub const UNSET: usize = 256;

// The words of readings are below.
pub const LIMIT: usize = 8589934592;

pub fn reading_word(x: i32) -> usize
    ensures { result ≡ reading_word x }
{
    if x >= 0 {
        let above = x as usize;
        2 * above + 257
    } else {
        let below = -1 - x;
        let rest = below as usize;
        2 * rest + 258
    }
}

// How far a word is past the first one of a reading; 0 below that.
fn past_first(w: usize) -> usize
    ensures { result ≡ w - 257 }
{
    if w < 257 { 0 } else { w - 257 }
}

// The reading of a word from 257 on.
fn reading_of(w: usize) -> i32
    ensures { result ≡ reading_in w }
{
    let v = past_first(w);
    let half = v / 2 % 2147483648;
    let least = half as i32;
    if v % 2 == 0 { least } else { -1 - least }
}

// The address of a word below 256.
#[tactic(auto, unfolding(crate::specs::Items::address_in))]
pub fn address_of(w: usize) -> Locality
    ensures { result ≡ address_in w }
{
    let low = w % 256;
    Locality(low as u8)
}

#[tactic(auto, unfolding(crate::specs::Items::item_word))]
pub fn item_word(x: Item) -> usize
    ensures { result ≡ item_word x }
{
    match x {
        Item::Reading(v) => reading_word(v),
        Item::Address(l) => usize::from(l.0),
    }
}

#[tactic(auto, unfolding(crate::specs::Items::item_in, net::specs::Choice::choose))]
pub fn item_of(w: usize) -> Item
    ensures { result ≡ item_in w }
{
    if w <= UNSET {
        Item::Address(address_of(w))
    } else {
        Item::Reading(reading_of(w))
    }
}

#[tactic(auto, unfolding(crate::specs::Items::value_word))]
pub fn value_word(x: Value) -> usize
    ensures { result ≡ value_word x }
{
    match x {
        Value::Unset => UNSET,
        Value::Reading(v) => reading_word(v),
        Value::Address(l) => usize::from(l.0),
    }
}

#[tactic(auto, unfolding(crate::specs::Items::value_in, net::specs::Choice::choose))]
pub fn value_of(w: usize) -> Value
    ensures { result ≡ value_in w }
{
    if w < UNSET {
        Value::Address(address_of(w))
    } else if w == UNSET {
        Value::Unset
    } else {
        Value::Reading(reading_of(w))
    }
}
