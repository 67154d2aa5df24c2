// A test tool: drives the engine of the crate `lean`. It reads records from standard input: one byte, 0 where an image
// follows, else a text; the length of that source and its bytes; the number of calls; and the calls. A call has the
// length of its buffer for answers, the number of its picks, and the picks. Lengths and numbers are 2 bytes
// little-endian. Of a source it writes the answer, one byte, 0 accepted, else the number of the refusal; the bit at
// which the field at fault of an image begins, 4 bytes little-endian, 0 where it is accepted and for a text; then the
// net as opened, as the crate `dump` lays it out. Of each call it writes whether there was room, one byte; the buffer
// as the call left it, each byte of which was 0xEE before; and the digest of the net after it, 8 bytes little-endian.
// After the last call of a record it writes the whole net. It ends where the input does.
#![tactic(auto)]

use dump::digest::put_digest;
use dump::put_net;
use files::{Failure, print, read_exact, read_next, take_turns};
use image::reader::{number_of, place_of};
use lean::engine::{Engine, Started};
use net::network::Net;
use notation::reading::Verdict as TextVerdict;

// Writes the answer to a source and the net as opened.
fn write_opened(rt: &HostRuntime, number: u8, place: usize, net: &Net) -> Result<(), Failure> {
    let bit = (place % 4294967296) as u32;
    let mut out = [0u8; 27673];
    out[0] = number;
    out[1..5].copy_from_slice(&bit.to_le_bytes());
    put_net(&mut out[5..], net);
    print(rt, &out)
}

// Writes what a call left.
fn write_call(rt: &HostRuntime, room: bool, answers: &[u8], net: &Net) -> Result<(), Failure> {
    let mut digest = [0u8; 8];
    put_digest(&mut digest, net);
    print(rt, &[u8::from(room)])?;
    print(rt, answers)?;
    print(rt, &digest)
}

fn write_net(rt: &HostRuntime, net: &Net) -> Result<(), Failure> {
    let mut out = [0u8; 27668];
    put_net(&mut out, net);
    print(rt, &out)
}

// One call, written.
fn call(
    rt: &HostRuntime,
    engine: &mut Engine,
    picks: &[u8],
    answers: &mut [u8],
) -> Result<(), Failure> {
    let room = engine.make(picks, answers);
    write_call(rt, room, answers, &engine.net())
}

// A number of two bytes from standard input.
fn read_number(rt: &HostRuntime) -> Result<u16, Failure> {
    let mut bytes = [0u8; 2];
    read_exact(rt, &mut bytes)?;
    Ok(u16::from_le_bytes(bytes))
}

// Reads a call, the length of its buffer and its picks, and makes it.
fn take_call(rt: &HostRuntime, engine: &mut Engine) -> Result<(), Failure> {
    let length = read_number(rt)?;
    let mut buffer = [0u8; 65535];
    let mut answers = [238u8; 65535];
    let picks = read_next(rt, &mut buffer)?;
    call(rt, engine, picks, &mut answers[..length as usize])
}

// Reads the calls of an engine, makes them and writes the net after them.
fn drive(rt: &HostRuntime, mut engine: Engine) -> Result<(), Failure> {
    let count = read_number(rt)?;
    for _ in 0..count {
        take_call(rt, &mut engine)?;
    }
    write_net(rt, &engine.net())
}

fn drive_image(rt: &HostRuntime, image: &[u8]) -> Result<(), Failure> {
    let started = Engine::open(image);
    let answer = started.answer;
    write_opened(
        rt,
        number_of(answer),
        place_of(answer),
        &started.engine.net(),
    )?;
    drive(rt, started.engine)
}

// The number of the answer to a text.
fn text_number(answer: TextVerdict) -> u8 {
    match answer {
        TextVerdict::Accepted => 0,
        TextVerdict::Refused(n) => n,
    }
}

// Opens a text in a frame of its own, which is gone when calls are made.
#[inline(never)]
fn open_text(text: &[u8]) -> Started<TextVerdict> {
    Engine::open_text(text)
}

fn drive_text(rt: &HostRuntime, text: &[u8]) -> Result<(), Failure> {
    let started = open_text(text);
    write_opened(rt, text_number(started.answer), 0, &started.engine.net())?;
    drive(rt, started.engine)
}

// One record, of an image or of a text; fails at the end of the input.
fn take_turn(rt: &HostRuntime) -> Result<(), Failure> {
    let mut kind = [0u8; 1];
    let mut buffer = [0u8; 65535];
    let there = read_exact(rt, &mut kind);
    let next = read_next(rt, &mut buffer);
    there?;
    let source = next?;
    match kind[0] {
        0 => drive_image(rt, source),
        _ => drive_text(rt, source),
    }
}

fn main(rt: HostRuntime) {
    take_turns(&rt, take_turn);
}
