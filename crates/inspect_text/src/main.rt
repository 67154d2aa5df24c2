// A test tool: reads texts from standard input and writes what the reader of texts makes of each to standard output.
// A text comes as its length, 2 bytes little-endian, then its bytes: at most 65,535. For each it writes the answer, one
// byte, 0 accepted, else the number of the refusal, then the net as the crate `dump` lays it out. It ends where the input
// does.
#![tactic(auto)]

ghost use Rattle.std.specs.Prelude.{◌≡◌};
ghost use Rattle.notation.specs.Text.{number_of};

use dump::put_net;
use files::{Failure, print, read_next, take_turns};
use notation::reading::{Verdict, read_text};

// The answer's number in document 01, "The planners' notation".
#[tactic(auto, unfolding(notation::specs::Text::number_of))]
fn number_of(answer: Verdict) -> u8
    ensures { result ≡ number_of answer }
{
    match answer {
        Verdict::Accepted => 0,
        Verdict::Refused(n) => n,
    }
}

// Writes what is made of one text.
fn answer(rt: &HostRuntime, text: &[u8]) -> Result<(), Failure> {
    let opened = read_text(text);
    let mut out = [0u8; 27669];
    out[0] = number_of(opened.answer);
    put_net(&mut out[1..], &opened.net);
    print(rt, &out)
}

// Reads one text and writes what is made of it; fails at the end of the input.
fn take_turn(rt: &HostRuntime) -> Result<(), Failure> {
    let mut text = [0u8; 65535];
    answer(rt, read_next(rt, &mut text)?)
}

fn main(rt: HostRuntime) {
    take_turns(&rt, take_turn);
}
