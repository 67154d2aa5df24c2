// Works through the edges of document 01 and prints what the machine answers. edges.bin holds for each edge
// its name, an image and picks, each after its length in two bytes, lower first; creation.bin the image of the
// one edge that no image shows. What is printed is compared with what the Rust model gives. A missing file counts as
// empty; where one cannot be read, nothing is printed.
#![tactic(auto)]

use files::{Failure, print, print_first, read_file, say};
use image::reader::{LONGEST_IMAGE, read_image};
use net::network::Net;
use plans::answer::Answer;
use registers::register::register;
use step::machine::Machine;

// The first part of a list, which stands after its length in two bytes, lower first, and what follows it. Both are empty
// where the list is cut short.
fn split_part(list: &[u8]) -> (&[u8], &[u8]) {
    if let [low, high, rest @ ..] = list {
        let n = u16::from_le_bytes([*low, *high]) as usize;
        if n <= rest.len() {
            return rest.split_at(n);
        }
    }
    (&[], &[])
}

// Prints the register of an image and its picks.
#[inline(never)]
fn print_register(rt: &HostRuntime, image: &[u8], picks: &[u8]) -> Result<(), Failure> {
    let mut out = [0u8; 65536];
    match register(image, picks, &mut out) {
        Some(n) => print_first(rt, &out, n),
        None => {
            say(rt, b"no room for a register\n");
            Err(Failure::Short)
        }
    }
}

// Prints the first edge of a list, and gives the others.
fn print_edge<'a>(rt: &HostRuntime, list: &'a [u8]) -> Result<&'a [u8], Failure> {
    let (name, after) = split_part(list);
    let (image, last) = split_part(after);
    let (picks, others) = split_part(last);
    print(rt, b"edge ")?;
    print(rt, name)?;
    print(rt, b"\n")?;
    print_register(rt, image, picks)?;
    Ok(others)
}

// Prints each edge. No list has so many that the turns run out.
fn print_edges(rt: &HostRuntime, list: &[u8]) -> Result<(), Failure> {
    let mut left = list;
    for _ in 0..1000 {
        if left.is_empty() {
            return Ok(());
        }
        left = print_edge(rt, left)?;
    }
    if left.is_empty() {
        Ok(())
    } else {
        Err(Failure::TooLong)
    }
}

// The net, of format 1, without the right to create at address 0, which no pick takes away.
fn without_creation(mut net: Net) -> Net {
    let node = net.nodes[0];
    let mut row = node.rows[0];
    row.create = false;
    net.nodes[0] = node.with_rows(row.alike());
    net
}

// The line of a first pick of address 0, slot 0.
// Kept: what is printed of all other answers is one word, so that no number serves.
fn line_of(answer: Answer) -> &'static [u8] {
    match answer {
        Answer::NoRight => b"pick 1 0 0 4\n",
        Answer::NoRoom => b"pick 1 0 0 3\n",
        _ => b"pick 1 0 0 other\n",
    }
}

// Prints what such a pick is answered in a net that no image gives. Its frame is no part of that of the edges before.
#[inline(never)]
fn print_barred(rt: &HostRuntime, image: &[u8]) -> Result<(), Failure> {
    let net = without_creation(read_image(image).net);
    let picked = Machine { net }.pick(0);
    print(rt, b"edge creation at 16 addresses, n withdrawn\n")?;
    print(rt, line_of(picked.answer))
}

// Reads the files, each of which is named where it cannot be read, and prints the edges.
fn run(rt: &HostRuntime) -> Result<(), Failure> {
    let mut edges = [0u8; 65536];
    let mut image = [0u8; LONGEST_IMAGE + 1];
    let list = read_file(rt, b"edges.bin", &mut edges);
    let barred = read_file(rt, b"creation.bin", &mut image);
    let (list, barred) = (list?, barred?);
    print_edges(rt, list)?;
    print_barred(rt, barred)
}

// What fails is named where it does, and the status stays 0.
fn main(rt: HostRuntime) {
    let _ = run(&rt);
}
