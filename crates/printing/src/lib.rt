// What the programs that print a register share: a register that was made in a lent buffer is printed, and lists of names that
// are refused are named on standard error.
#![tactic(auto)]

use files::{Failure, print_first, read_file, say};
use names::lookup::test;
use registers::room::room;
use std::fmt::InlineText;

// How many bytes of each list of names are read.
pub const LONGEST_LIST: usize = 65536;

// Prints the register that the buffer holds.
pub fn print_written(rt: &HostRuntime, written: Option<usize>, out: &[u8]) -> Result<(), Failure> {
    match written {
        Some(n) => print_first(rt, out, n),
        None => {
            say(rt, b"no room for the register\n");
            Err(Failure::Short)
        }
    }
}

// Reads the picks and the two lists of names, and prints the register that is written of a net and of them. A file that
// cannot be read is named, and then nothing is printed.
pub fn print_register<W>(
    rt: &HostRuntime,
    net: Result<&[u8], Failure>,
    write: W,
) -> Result<(), Failure>
where
    W: FnOnce(&[u8], &[u8], &[u8], &[u8], &mut [u8]) -> Option<usize>,
    requires { W.IsAlwaysCallable write }
{
    let mut picks = [0u8; 65536];
    let mut site = [0u8; LONGEST_LIST];
    let mut office = [0u8; LONGEST_LIST];
    let list = read_file(rt, b"picks.bin", &mut picks);
    let own = read_file(rt, b"site.bin", &mut site);
    let common = read_file(rt, b"office.bin", &mut office);
    let (net, picks, site, office) = (net?, list?, own?, common?);
    say_names(rt, site, office);
    let mut out = room();
    let written = write(net, picks, site, office, &mut out);
    print_written(rt, written, &out)
}

// Names the fault of two lists of names, where they have one.
pub fn say_names(rt: &HostRuntime, site: &[u8], office: &[u8]) {
    if let Err(fault) = test(site, office) {
        let number = fault.number();
        let line = InlineText::<20>::of(format_args!("names refused {number}\n"));
        say(rt, line.as_str().as_bytes());
    }
}
