// A test tool: reads images from standard input and writes what the image reader makes of each to
// standard output. An image comes as its length, 2 bytes little-endian, then its bytes: at most 65,535, so that
// there are images beyond what the reader looks at. For each it writes the answer, one byte, 0 accepted, else the
// number of the refusal; the bit at which the field at fault begins, 4 bytes little-endian, 0 where the image is accepted;
// then the net as the crate `dump` lays it out. It ends where the input does.
#![tactic(auto)]

use dump::put_net;
use files::{Failure, print, read_next, take_turns};
use image::reader::{number_of, place_of, read_image};

// Writes what is made of one image.
fn answer(rt: &HostRuntime, image: &[u8]) -> Result<(), Failure> {
    let opened = read_image(image);
    let place = (place_of(opened.answer) % 4294967296) as u32;
    let mut out = [0u8; 27673];
    out[0] = number_of(opened.answer);
    out[1..5].copy_from_slice(&place.to_le_bytes());
    put_net(&mut out[5..], &opened.net);
    print(rt, &out)
}

// Kept, here and in `inspect_text`: two lines, which one function that takes the answerer would make no plainer.
// Reads one image and writes what is made of it; fails at the end of the input.
fn take_turn(rt: &HostRuntime) -> Result<(), Failure> {
    let mut image = [0u8; 65535];
    answer(rt, read_next(rt, &mut image)?)
}

fn main(rt: HostRuntime) {
    take_turns(&rt, take_turn);
}
