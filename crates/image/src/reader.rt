// The image reader (document 01, "The image", "Numbers for an image").
ghost use Rattle.std.specs.Prelude.{◌≡◌};
ghost use Rattle.image.specs.Image.{refused, opened_of, number_of, place_of_fault};

use crate::entries::beyond_row;
use crate::layout::read_layout;
use bitreader::reader::BitReader;
use keeping::admission::admitted;
use net::network::Net;
use readers::fault::Fault;

// How many bytes the longest accepted image has, one of format 2: one byte more of an image decides what it gives (proved:
// `FirstBytesDecide` of the crate `accepted`).
pub const LONGEST_IMAGE: usize = 17339;

// What reading an image answers: a refusal has its fault, with the bit at which the field at fault begins.
#[derive(Clone, Copy)]
pub enum Verdict {
    Accepted,
    Refused(Fault),
}

// The answer with the net: the one that the image writes down, or the empty net.
// Kept: a refused image leaves the empty net (`opened_of`), so the net stands beside the answer, and not within it.
#[derive(Clone, Copy)]
pub struct Opened {
    pub answer: Verdict,
    pub net: Net,
}

// The number of an answer; 0 where the image is accepted.
#[tactic(auto, unfolding(crate::specs::Image::number_of))]
pub fn number_of(answer: Verdict) -> u8
    ensures { result ≡ number_of answer }
{
    match answer {
        Verdict::Accepted => 0,
        Verdict::Refused(fault) => fault.number,
    }
}

// The bit at which the field at fault begins; 0 where the image is accepted.
#[tactic(auto, unfolding(crate::specs::Image::place_of_fault))]
pub fn place_of(answer: Verdict) -> usize
    ensures { result ≡ place_of_fault answer }
{
    match answer {
        Verdict::Accepted => 0,
        Verdict::Refused(fault) => fault.place,
    }
}

// A refusal, which leaves the empty net.
#[tactic(auto, unfolding(crate::specs::Image::refused))]
fn refuse(fault: Fault) -> Opened
    ensures { result ≡ refused fault }
{
    Opened {
        answer: Verdict::Refused(fault),
        net: Net::empty(),
    }
}

// What an image gives: the net that it writes down, or its first fault and the empty net.
pub fn read_image(image: &[u8]) -> Opened
    ensures { result ≡ opened_of image.now }
{
    let mut reader = BitReader::new(image);
    let mut net = Net::empty();
    let starts = match read_layout(&mut reader, &mut net) {
        Ok(starts) => starts,
        Err(fault) => return refuse(fault),
    };
    if !admitted(&net) {
        reader.back_to(starts);
        return refuse(beyond_row(&mut reader, &net));
    }
    // Each refusal returns by itself, so that the net is copied once, into the result.
    Opened {
        answer: Verdict::Accepted,
        net,
    }
}
