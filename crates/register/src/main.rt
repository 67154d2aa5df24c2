// The program of document 01, "The register": reads net.bin, picks.bin and two lists of station names, site.bin and office.bin,
// and prints the register. A missing file counts as empty; where one cannot be read, nothing is printed. Of net.bin one byte more
// than the longest image has decides everything (proved: `FirstBytesDecide`), and of the others the first 65,536 bytes count.
#![tactic(auto)]

use files::{Failure, read_file};
use image::reader::LONGEST_IMAGE;
use printing::print_register;
use registers::register::named_register;

// Kept, here and in `register_text`: what they share is `print_register`; the file, its room and the call are left.
// Reads the files, each of which is named where it cannot be read, and prints the register.
fn run(rt: &HostRuntime) -> Result<(), Failure> {
    let mut buffer = [0u8; LONGEST_IMAGE + 1];
    let image = read_file(rt, b"net.bin", &mut buffer).map_err(Failure::from);
    print_register(rt, image, |image, picks, site, office, out| {
        named_register(image, picks, site, office, out)
    })
}

// What fails is named where it does, and the status stays 0.
fn main(rt: HostRuntime) {
    let _ = run(&rt);
}
