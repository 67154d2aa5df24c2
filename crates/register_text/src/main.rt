// The program of document 01, "The register", for a net in the planners' notation: reads net.txt, picks.bin and two lists of
// station names, site.bin and office.bin, and prints the register. A missing file counts as empty; where one cannot be read, or
// net.txt is too long, nothing is printed. Of the files but net.txt the first 65,536 bytes count.
#![tactic(auto)]

use files::{Failure, LONGEST_TEXT, read_text_file};
use printing::print_register;
use registers::register::named_register_text;

// Reads the files, each of which is named where it cannot be read, and prints the register.
fn run(rt: &HostRuntime) -> Result<(), Failure> {
    let mut buffer = [0u8; LONGEST_TEXT + 1];
    let text = read_text_file(rt, b"net.txt", &mut buffer).map_err(Failure::from);
    print_register(rt, text, |text, picks, site, office, out| {
        named_register_text(text, picks, site, office, out)
    })
}

// What fails is named where it does, and the status stays 0.
fn main(rt: HostRuntime) {
    let _ = run(&rt);
}
