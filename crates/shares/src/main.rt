// The program of document 02, slip 7: its arguments are folders, each with the net.bin and picks.bin of a run, in order.
// Prints the figures over these runs, or `refused` and a number. A missing file counts as empty, so that a folder without
// net.bin makes no run; where a file cannot be read, or an argument is no path, nothing is printed. Of net.bin one byte
// more than the longest image has decides everything (proved: `FirstBytesDecide`), and of picks.bin the first 65,536 picks
// count.
#![tactic(auto)]

ghost use Rattle.std.specs.Prelude.{◌≤◌, IfErr, IfOk, length};

use files::{Failure, Unread, argument, is_given, print, print_first, read_file, say};
use image::reader::LONGEST_IMAGE;
use season::figures::{Unfigured, room};
use season::sums::Sums;

// No folder is taken by a longer name: the system takes no longer path.
const LONGEST_PATH: usize = 4096;

// Reads a file of a folder, from its start. A missing file counts as empty.
fn read_in<'a>(
    rt: &HostRuntime,
    folder: &[u8],
    name: &[u8],
    buffer: &'a mut [u8],
) -> Result<&'a [u8], Unread>
    requires folder { length folder.now ≤ LONGEST_PATH }
    requires name { length name.now ≤ 15 }
    ensures read { IfOk result (λ read. length read.now ≤ length buffer.old) }
    ensures unread { IfErr result (λ unread. unread.count ≤ length buffer.old) }
{
    let mut path = [0u8; LONGEST_PATH + 16];
    let (start, rest) = path.split_at_mut(folder.len() + 1);
    start[..folder.len()].copy_from_slice(folder);
    start[folder.len()] = b'/';
    rest[..name.len()].copy_from_slice(name);
    read_file(rt, &path[..folder.len() + 1 + name.len()], buffer)
}

// Adds the run of a folder. Each file that cannot be read is named.
fn add_folder(rt: &HostRuntime, sums: Sums, folder: &[u8]) -> Result<Sums, Failure>
    requires { length folder.now ≤ LONGEST_PATH }
{
    let mut image = [0u8; LONGEST_IMAGE + 1];
    let mut picks = [0u8; 65536];
    let net = read_in(rt, folder, b"net.bin", &mut image);
    let list = read_in(rt, folder, b"picks.bin", &mut picks);
    Ok(sums.add(net?, list?))
}

// Adds the run of the folder that an argument names.
fn add_argument(rt: &HostRuntime, sums: Sums, i: usize) -> Result<Sums, Failure> {
    let mut buffer = [0u8; LONGEST_PATH];
    match argument(rt, i, &mut buffer) {
        Ok(folder) if !folder.is_empty() => add_folder(rt, sums, folder),
        _ => {
            say(rt, b"an argument is empty or longer than 4096 bytes\n");
            Err(Failure::Short)
        }
    }
}

// The sums over the runs of the folders that the arguments name; fails at one that cannot be read.
fn add_arguments(rt: &HostRuntime) -> Result<Sums, Failure> {
    let mut sums = Sums::empty();
    for i in 1..usize::MAX {
        if !is_given(rt, i) {
            break;
        }
        sums = add_argument(rt, sums, i)?;
    }
    Ok(sums)
}

// Prints the figures.
fn print_figures(rt: &HostRuntime, sums: Sums) -> Result<(), Failure> {
    let mut out = room();
    match sums.figures(&mut out) {
        Ok(n) => print_first(rt, &out, n),
        Err(Unfigured::NoRuns) => print(rt, b"refused 44\n"),
        Err(Unfigured::TooMany) => print(rt, b"refused 45\n"),
        Err(Unfigured::NoRoom) => {
            say(rt, b"no room for the figures\n");
            Err(Failure::Short)
        }
    }
}

// What fails is named where it does, and the status stays 0.
fn main(rt: HostRuntime) {
    let _ = add_arguments(&rt).and_then(|sums| print_figures(&rt, sums));
}
