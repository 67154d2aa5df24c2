// Reads net.bin and prints the image of its net, as the writer makes it: the same bytes. A refused image prints nothing,
// nor does a file that cannot be read; a missing file counts as empty.
#![tactic(auto)]

use files::{Failure, print_first, read_file, say};
use image::reader::{LONGEST_IMAGE, read_image};
use writer::pack::{Unwritten, write_image};

// Prints the image of the net that an image gives.
fn repack(rt: &HostRuntime, image: &[u8]) -> Result<(), Failure> {
    let opened = read_image(image);
    let mut out = [0u8; LONGEST_IMAGE];
    match write_image(opened.net, &mut out) {
        Ok(n) => print_first(rt, &out, n),
        Err(Unwritten::NotFresh) => Ok(()),
        Err(Unwritten::NoRoom) => {
            say(rt, b"no room for the image\n");
            Err(Failure::Short)
        }
    }
}

// Reads the file, which is named where it cannot be read, and prints the image.
fn run(rt: &HostRuntime) -> Result<(), Failure> {
    let mut image = [0u8; LONGEST_IMAGE + 1];
    repack(rt, read_file(rt, b"net.bin", &mut image)?)
}

// What fails is named where it does, and the status stays 0.
fn main(rt: HostRuntime) {
    let _ = run(&rt);
}
