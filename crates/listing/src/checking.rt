// What a listing of the old host is checked as, and the answers (document 02, slip 5).
ghost use Rattle.std.specs.Prelude.{◌≤◌, ◌≡◌, length};
ghost use Rattle.registers.specs.Calls.{registered_length};
ghost use Rattle.registers.specs.Longest.{longest};
ghost use Rattle.listing.specs.Listing.{parts_for, checked_number, fault_line, listing_of};
ghost use Rattle.listing.specs.Written.{ComparedIn};

use crate::comparing::compare;
use lines::shown::{Parts, all_parts, no_parts};
use registers::register::register_showing;
use registers::room::room;

// How many bytes the longest listing has that agrees: one more of a listing decides what is answered (proved:
// `FirstBytesDecide` of `specs/ListingClaims.antt`).
pub const LONGEST_LISTING: usize = 3232651;

// What the caller calls a listing: from before the `total` line, the refusal's bit and the marks of tuples, or with them.
#[derive(Clone, Copy, PartialEq, Eq, Debug)]
pub enum Age {
    Old,
    New,
}

// The first line at fault of a listing that does not agree, from 1: it differs, or is wanting, or is left over.
#[derive(Clone, Copy, PartialEq, Eq, Debug)]
pub enum Mismatch {
    Differs(usize),
    Wanting(usize),
    LeftOver(usize),
}

// The paper's number of an answer.
pub fn number_of(checked: Result<(), Mismatch>) -> usize
    ensures { result ≡ checked_number checked }
{
    match checked {
        Ok(()) => 0,
        Err(Mismatch::Differs(_)) => 41,
        Err(Mismatch::Wanting(_)) => 42,
        Err(Mismatch::LeftOver(_)) => 43,
    }
}

// The first line at fault; 0 where there is none.
pub fn line_of(checked: Result<(), Mismatch>) -> usize
    ensures { result ≡ fault_line checked }
{
    match checked {
        Ok(()) => 0,
        Err(Mismatch::Differs(i) | Mismatch::Wanting(i) | Mismatch::LeftOver(i)) => i,
    }
}

// The register that was written at a buffer's start, with a listing.
fn compare_written(out: &[u8], written: Option<usize>, listing: &[u8]) -> Result<(), Mismatch>
    requires { registered_length written ≤ length out.now }
    ensures { ComparedIn out.now written listing.now result }
{
    match written {
        Some(n) => compare(&out[..n], listing),
        None => Ok(()),
    }
}

// What a listing of an age shows beyond document 01's register.
impl From<Age> for Parts {
    ghost from_gives = { λ age parts. parts ≡ parts_for age };

    fn from(age: Age) -> Parts {
        match age {
            Age::Old => no_parts(),
            Age::New => all_parts(),
        }
    }
}

// Checks a listing, in a buffer that holds every register.
fn check_in(
    image: &[u8],
    picks: &[u8],
    listing: &[u8],
    age: Age,
    out: &mut [u8],
) -> Result<(), Mismatch>
    requires { longest ≡ length out.old }
    ensures { result ≡ listing_of image.now picks.now listing.now age }
{
    let written = register_showing(image, picks, age.into(), out);
    compare_written(out, written, listing)
}

// Checks a listing against our register of an image and its picks, of which the first 65,536 count.
pub fn check_listing(image: &[u8], picks: &[u8], listing: &[u8], age: Age) -> Result<(), Mismatch>
    ensures { result ≡ listing_of image.now picks.now listing.now age }
{
    let mut out = room();
    check_in(image, picks, listing, age, &mut out)
}
