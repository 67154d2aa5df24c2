// A run: each pick goes to the net that the last one left, whatever its answer.
ghost use Rattle.std.specs.Prelude.{◌≡◌, length};
ghost use Rattle.net.specs.Records.{empty_net};
ghost use Rattle.lean_step.specs.LeanStep.{lean_ran_from};
ghost use Rattle.run.specs.Calls.{finished, finished_of, answers_in};
ghost use Rattle.run.specs.Run.{ran, run_of, run_text_of};

use image::reader::Verdict;
use lean::engine::Engine;
use net::network::Net;
use notation::reading::Verdict as TextVerdict;
use readers::fault::Fault;

// How a run ended: made, or not made for a refused image, for a refused text, of which the number is known alone, or for
// want of room for the answers.
#[derive(Clone, Copy)]
pub enum Finish {
    Complete,
    Refused(Fault),
    RefusedText(u8),
    NoRoom,
}

// How a run ended, and its final net: the empty net where none was made.
#[derive(Clone, Copy)]
pub struct Finished {
    pub finish: Finish,
    pub net: Net,
}

// No run was made.
fn not_made(finish: Finish) -> Finished
    ensures { result ≡ finished finish empty_net }
{
    let net = Net::empty();
    Finished { finish, net }
}

// The run of an engine's net, where there is room for its answers.
fn run_engine(mut engine: Engine, picks: &[u8], answers: &mut [u8]) -> Finished
    ensures value { result ≡ finished_of (ran (lean_ran_from engine.net picks.now)) (length answers.old) }
    ensures answers_after { answers.new ≡ answers_in (ran (lean_ran_from engine.net picks.now)) answers.old }
{
    if engine.make(picks, answers) {
        Finished {
            finish: Finish::Complete,
            net: engine.net(),
        }
    } else {
        not_made(Finish::NoRoom)
    }
}

// The run of an image and its picks: their answers go into the buffer.
pub fn run(image: &[u8], picks: &[u8], answers: &mut [u8]) -> Finished
    ensures value { result ≡ finished_of (run_of image.now picks.now) (length answers.old) }
    ensures answers_after { answers.new ≡ answers_in (run_of image.now picks.now) answers.old }
{
    let started = Engine::open(image);
    let answer = started.answer;
    let engine = started.engine;
    match answer {
        Verdict::Accepted => run_engine(engine, picks, answers),
        Verdict::Refused(fault) => not_made(Finish::Refused(fault)),
    }
}

// The run of a text and its picks: their answers go into the buffer.
pub fn run_text(text: &[u8], picks: &[u8], answers: &mut [u8]) -> Finished
    ensures value { result ≡ finished_of (run_text_of text.now picks.now) (length answers.old) }
    ensures answers_after { answers.new ≡ answers_in (run_text_of text.now picks.now) answers.old }
{
    let started = Engine::open_text(text);
    let answer = started.answer;
    let engine = started.engine;
    match answer {
        TextVerdict::Accepted => run_engine(engine, picks, answers),
        TextVerdict::Refused(n) => not_made(Finish::RefusedText(n)),
    }
}
