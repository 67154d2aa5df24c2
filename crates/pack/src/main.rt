// Reads net.txt, a net in the planners' notation, and writes its image net.bin, by the name net.bin.new meanwhile. Prints
// `packed` and the number of the image's bytes; or `refused` and the number of the text's first fault, and then no file is
// written. A missing net.txt counts as empty; where it cannot be read or is too long, nothing is done but to say so.
#![tactic(auto)]

use files::{Failure, LONGEST_TEXT, print, read_text_file, replace_file, say};
use image::reader::LONGEST_IMAGE;
use net::network::Net;
use notation::reading::{Opened, Verdict, read_text};
use std::fmt::InlineText;
use writer::pack::{Unwritten, write_image};

// Prints a line: a word and a number.
fn print_line(rt: &HostRuntime, word: &str, n: usize) -> Result<(), Failure> {
    let line = InlineText::<32>::of(format_args!("{word} {n}\n"));
    print(rt, line.as_str().as_bytes())
}

// Writes the image's file.
fn store(rt: &HostRuntime, image: &[u8]) -> Result<(), Failure> {
    replace_file(rt, b"net.bin", b"net.bin.new", image)?;
    print_line(rt, "packed", image.len())
}

// Writes the image of a net. That of an accepted text has one, which is no longer than the buffer.
fn pack_net(rt: &HostRuntime, net: Net) -> Result<(), Failure> {
    let mut out = [0u8; LONGEST_IMAGE];
    match write_image(net, &mut out) {
        Ok(n) => return store(rt, out.get(..n).ok_or(Failure::Short)?),
        Err(Unwritten::NotFresh) => say(rt, b"no image gives the net\n"),
        Err(Unwritten::NoRoom) => say(rt, b"no room for the image\n"),
    }
    Err(Failure::Short)
}

// Reads a text in a frame of its own, which is gone when an image is written.
#[inline(never)]
fn open(text: &[u8]) -> Opened {
    read_text(text)
}

// Writes the image of the net that a text gives.
fn pack(rt: &HostRuntime, text: &[u8]) -> Result<(), Failure> {
    let opened = open(text);
    match opened.answer {
        Verdict::Accepted => pack_net(rt, opened.net),
        Verdict::Refused(number) => print_line(rt, "refused", number as usize),
    }
}

// Reads the file, which is named where it cannot be read, and writes the image.
fn run(rt: &HostRuntime) -> Result<(), Failure> {
    let mut text = [0u8; LONGEST_TEXT + 1];
    pack(rt, read_text_file(rt, b"net.txt", &mut text)?)
}

// What fails is named where it does, and the status stays 0.
fn main(rt: HostRuntime) {
    let _ = run(&rt);
}
