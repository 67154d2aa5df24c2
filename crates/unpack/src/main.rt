// Reads net.bin and prints its net as a text in the planners' notation (document 02, slip 13); or, as a register does, `refused`
// with the number and the bit of the image's first fault. A missing file counts as empty; where it cannot be read, nothing is
// printed. One byte more than the longest image has decides everything (proved: `FirstBytesDecide`).
#![tactic(auto)]

use files::{Failure, print_first, read_file, say};
use image::reader::{LONGEST_IMAGE, Verdict, read_image};
use lines::lines::put_refused;
use lines::shown::all_parts;
use net::network::Net;
use readers::fault::Fault;
use text::writer::Writer;
use text_writer::whole::{LONGEST_WRITTEN, write_text};
use writer::pack::Unwritten;

// Prints the line of a refusal.
fn print_refused(rt: &HostRuntime, fault: Fault) -> Result<(), Failure> {
    let mut line = [0u8; 48];
    let mut out = Writer::new(&mut line);
    put_refused(&mut out, all_parts(), fault);
    match out.written() {
        Some(n) => print_first(rt, &line, n),
        None => Err(Failure::Short),
    }
}

// Prints the text of a net. That of an accepted image has one, which is no longer than the buffer.
fn print_net(rt: &HostRuntime, net: Net) -> Result<(), Failure> {
    let mut out = [0u8; LONGEST_WRITTEN];
    match write_text(net, &mut out) {
        Ok(n) => return print_first(rt, &out, n),
        Err(Unwritten::NotFresh) => say(rt, b"no image gives the net\n"),
        Err(Unwritten::NoRoom) => say(rt, b"no room for the text\n"),
    }
    Err(Failure::Short)
}

// Prints the net that an image gives.
fn unpack(rt: &HostRuntime, image: &[u8]) -> Result<(), Failure> {
    let opened = read_image(image);
    match opened.answer {
        Verdict::Accepted => print_net(rt, opened.net),
        Verdict::Refused(fault) => print_refused(rt, fault),
    }
}

// Kept, here, in `repack` and in `pack`: two lines, of which a shared function would take the name, the room and the
// work.
// Reads the file, which is named where it cannot be read, and prints the text.
fn run(rt: &HostRuntime) -> Result<(), Failure> {
    let mut image = [0u8; LONGEST_IMAGE + 1];
    unpack(rt, read_file(rt, b"net.bin", &mut image)?)
}

// What fails is named where it does, and the status stays 0.
fn main(rt: HostRuntime) {
    let _ = run(&rt);
}
