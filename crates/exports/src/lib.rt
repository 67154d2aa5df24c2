// The public calls of `image`, `run` and `registers` for programs in other languages: numbers and byte slices alone. include/cavindorum.h
// declares them for C.
// Kept: the C interface. The calls give numbers, take a buffer for what they write, and stand once for images and once
// for texts.
#![tactic(auto)]

ghost use Rattle.std.specs.Prelude.{◌≡◌, length};
ghost use Rattle.text.specs.Buffer.{over};
ghost use Rattle.run.specs.Calls.{finished_of, finish_number, answers_in};
ghost use Rattle.registers.specs.Calls.{registered_of, registered_length};
ghost use Rattle.registers.specs.Register.{register_of, register_text_of, named_register_of, named_register_text_of};
ghost use Rattle.names.specs.Names.{names_fault};
ghost use Rattle.run.specs.Run.{run_of, run_text_of};
ghost use Rattle.image.specs.Image.{opened_of, place_of_fault};

use image::reader::{place_of, read_image};
use names::lookup::test;
use registers::register::{named_register, named_register_text, register, register_text};
use run::run::{Finish, run, run_text};

// The paper's number of how a run ended.
fn number_of(finish: Finish) -> u8
    ensures { result ≡ finish_number finish }
{
    match finish {
        Finish::Complete => 0,
        Finish::Refused(fault) => fault.number,
        Finish::RefusedText(n) => n,
        Finish::NoRoom => 35,
    }
}

// Makes a run, leaves its answers in the buffer and gives 0, or the number of what kept it from being made.
#[unsafe(no_mangle)]
pub extern "C" fn cavindorum_run(image: &[u8], picks: &[u8], answers: &mut [u8]) -> u8
    ensures value { result ≡ finish_number (finished_of (run_of image.now picks.now) (length answers.old)).finish }
    ensures answers_after { answers.new ≡ answers_in (run_of image.now picks.now) answers.old }
{
    let done = run(image, picks, answers);
    let finish = done.finish;
    number_of(finish)
}

// The same for a text.
#[unsafe(no_mangle)]
pub extern "C" fn cavindorum_run_text(text: &[u8], picks: &[u8], answers: &mut [u8]) -> u8
    ensures value { result ≡ finish_number (finished_of (run_text_of text.now picks.now) (length answers.old)).finish }
    ensures answers_after { answers.new ≡ answers_in (run_text_of text.now picks.now) answers.old }
{
    let done = run_text(text, picks, answers);
    let finish = done.finish;
    number_of(finish)
}

// Gives the bit at which the field at fault of a refused image begins; 0 where the image is accepted.
#[unsafe(no_mangle)]
pub extern "C" fn cavindorum_refusal_place(image: &[u8]) -> usize
    ensures { result ≡ place_of_fault (opened_of image.now).answer }
{
    let opened = read_image(image);
    let answer = opened.answer;
    place_of(answer)
}

// A register's length, or 0 where the buffer is too short for it.
fn length_of(written: Option<usize>) -> usize
    ensures { result ≡ registered_length written }
{
    written.unwrap_or(0)
}

// Writes a register and gives its length, or 0 where the buffer is too short for it.
#[unsafe(no_mangle)]
pub extern "C" fn cavindorum_register(image: &[u8], picks: &[u8], out: &mut [u8]) -> usize
    ensures value { result ≡ registered_length (registered_of (register_of image.now picks.now) (length out.old)) }
    ensures out_after { out.new ≡ over out.old 0 (register_of image.now picks.now) }
{
    let written = register(image, picks, out);
    length_of(written)
}

// The same for a text.
#[unsafe(no_mangle)]
pub extern "C" fn cavindorum_register_text(text: &[u8], picks: &[u8], out: &mut [u8]) -> usize
    ensures value { result ≡ registered_length (registered_of (register_text_of text.now picks.now) (length out.old)) }
    ensures out_after { out.new ≡ over out.old 0 (register_text_of text.now picks.now) }
{
    let written = register_text(text, picks, out);
    length_of(written)
}

// Writes a register with the station names that a site's list and the office's give, and gives its length, or 0 where the buffer is
// too short for it.
#[unsafe(no_mangle)]
pub extern "C" fn cavindorum_named_register<'a>(
    image: &[u8],
    picks: &[u8],
    site: &'a [u8],
    office: &'a [u8],
    out: &mut [u8],
) -> usize
    ensures value { result ≡ registered_length (registered_of (named_register_of site.now office.now image.now picks.now) (length out.old)) }
    ensures out_after { out.new ≡ over out.old 0 (named_register_of site.now office.now image.now picks.now) }
{
    let written = named_register(image, picks, site, office, out);
    length_of(written)
}

// The same for a text.
#[unsafe(no_mangle)]
pub extern "C" fn cavindorum_named_register_text<'a>(
    text: &[u8],
    picks: &[u8],
    site: &'a [u8],
    office: &'a [u8],
    out: &mut [u8],
) -> usize
    ensures value { result ≡ registered_length (registered_of (named_register_text_of site.now office.now text.now picks.now) (length out.old)) }
    ensures out_after { out.new ≡ over out.old 0 (named_register_text_of site.now office.now text.now picks.now) }
{
    let written = named_register_text(text, picks, site, office, out);
    length_of(written)
}

// The number that the test of both lists of names gives: 0, 51, 52 or 53.
#[unsafe(no_mangle)]
pub extern "C" fn cavindorum_names_fault(site: &[u8], office: &[u8]) -> u8
    ensures { result ≡ names_fault site.now office.now }
{
    match test(site, office) {
        Ok(()) => 0,
        Err(fault) => fault.number(),
    }
}
