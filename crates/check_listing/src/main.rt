// Checks a listing of the old host (document 02, slip 5): reads net.bin, picks.bin and listing.txt, which its one argument
// calls `old` or `new`. Prints `0` where the listing agrees with our register, or the number and the first line at fault, as
// `41 7`. A missing file counts as empty; where one cannot be read, or for any other arguments, nothing is printed. One byte
// more than the longest image has decides everything, as does one more than the longest listing (proved: `FirstBytesDecide` of
// `accepted` and of `listing`), and of picks.bin the first 65,536 picks count.
#![tactic(auto)]

use check::same;
use files::{Failure, argument, is_given, print, read_file, say};
use image::reader::LONGEST_IMAGE;
use listing::checking::{Age, LONGEST_LISTING, Mismatch, check_listing, line_of, number_of};
use std::fmt::InlineText;

// Prints an answer: 0, or a number and a line.
fn print_checked(rt: &HostRuntime, checked: Result<(), Mismatch>) -> Result<(), Failure> {
    let number = number_of(checked);
    if number == 0 {
        return print(rt, b"0\n");
    }
    let i = line_of(checked);
    let line = InlineText::<48>::of(format_args!("{number} {i}\n"));
    print(rt, line.as_str().as_bytes())
}

// Room for what is read of a listing.
fn listing_room() -> [u8; LONGEST_LISTING + 1] {
    [0; LONGEST_LISTING + 1]
}

// Reads the files, each of which is named where it cannot be read, and checks the listing.
fn check_files(rt: &HostRuntime, age: Age) -> Result<(), Failure> {
    let mut image = [0u8; LONGEST_IMAGE + 1];
    let mut picks = [0u8; 65536];
    let mut text = listing_room();
    let net = read_file(rt, b"net.bin", &mut image);
    let list = read_file(rt, b"picks.bin", &mut picks);
    let listing = read_file(rt, b"listing.txt", &mut text);
    print_checked(rt, check_listing(net?, list?, listing?, age))
}

// The age that a word means.
fn age_of(word: &[u8]) -> Option<Age> {
    if same(word, b"old") {
        Some(Age::Old)
    } else if same(word, b"new") {
        Some(Age::New)
    } else {
        None
    }
}

// The age that the one argument names; one of more than four bytes counts as none.
fn age_given(rt: &HostRuntime) -> Option<Age> {
    if is_given(rt, 2) {
        return None;
    }
    let mut word = [0u8; 4];
    age_of(argument(rt, 1, &mut word).ok()?)
}

// What fails is named where it does, and the status stays 0.
fn main(rt: HostRuntime) {
    let Some(age) = age_given(&rt) else {
        say(&rt, b"check_listing takes one argument, old or new\n");
        return;
    };
    let _ = check_files(&rt, age);
}
