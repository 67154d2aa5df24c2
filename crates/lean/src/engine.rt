// The engine: its state is its own, a net that an accepted image or text gave and its own picks changed.
ghost use Rattle.std.specs.Prelude.{◌≤◌, true, ◌≡◌, length, replicate};
ghost use Rattle.image.specs.Image.{opened_of};
ghost use Rattle.notation.specs.Text.{read_of};
ghost use Rattle.sound.specs.Soundness.{sound_of};
ghost use Rattle.step.specs.Ran.{numbers};
ghost use Rattle.text.specs.Buffer.{over};
ghost use Rattle.lean_step.specs.LeanStep.{lean_ran_from};
ghost use Rattle.lean.specs.Calls.{room_for, net_after, answers_after};
ghost use Rattle.lean.specs.Loading.{tables_of};
ghost use Rattle.lean.specs.Words.{words_with};
ghost use Rattle.lean.specs.Standing.{MadeEach};

use crate::decoding::decode;
use crate::filling::fill;
use crate::loading::{load, load_needs};
use crate::rounds::{Tables, make_each};
use image::reader::{Verdict, read_image};
use lean_code::fields::template_words;
use lean_code::heads::{head_words, set_flags};
use net::network::Net;
use notation::reading::{Verdict as TextVerdict, read_text};
use sound::soundness::sound;

// Its field is private: an engine comes from an opened source, or from another engine's picks.
#[derive(Clone, Copy)]
pub struct Engine {
    net: Net,
}

// What opening a source gives: the verdict on it, and the engine, that of the empty net where it is refused.
// Kept: no `Result`, as `net_value` of both openers speaks of a refused source too: `poll` drives its engine.
#[derive(Clone, Copy)]
pub struct Started<V> {
    pub answer: V,
    pub engine: Engine,
}

// The picks made on the words of a net's nodes, n of them in use, by the tables of its code.
fn make_with(
    net: Net,
    n: &mut usize,
    procs: &mut [[[usize; 16]; 4]; 16],
    stored: &mut [usize; 16],
    tuples: &mut [[[usize; 6]; 16]; 16],
    rows: &mut [[[bool; 65]; 16]; 16],
    picks: &[u8],
    answers: &mut [u8],
)
    requires { (net.length ≤ 512) × (length picks.now ≤ length answers.old) }
    ensures { MadeEach (tables_of net.code net.length net.format) (words_with n.old procs.old stored.old tuples.old rows.old) picks.now answers.old (words_with n.new procs.new stored.new tuples.new rows.new) answers.new }
{
    let mut heads = [[0usize; 6]; 512];
    let mut fields = [[[0usize; 4]; 4]; 512];
    let mut sets = [[false; 16]; 512];
    let mut needs = [[false; 69]; 512];
    fill(&net.code, net.length, &mut heads, head_words);
    fill(&net.code, net.length, &mut fields, template_words);
    fill(&net.code, net.length, &mut sets, set_flags);
    load_needs(net.code, net.length, &mut needs);
    let tables = Tables {
        heads: &heads,
        fields: &fields,
        sets: &sets,
        needs: &needs,
        format: net.format,
    };
    make_each(n, procs, stored, tuples, rows, &tables, picks, answers);
}

// The net after picks on a sound net.
fn ran(net: Net, picks: &[u8], answers: &mut [u8]) -> Net
    requires { (sound_of net ≡ true) × (length picks.now ≤ length answers.old) }
    ensures value { result ≡ (lean_ran_from net picks.now).net }
    ensures answers_after { answers.new ≡ over answers.old 0 (numbers (lean_ran_from net picks.now)) }
{
    let mut n = net.addresses;
    let mut procs = [[[0usize; 16]; 4]; 16];
    let mut stored = [0usize; 16];
    let mut tuples = [[[0usize; 6]; 16]; 16];
    let mut rows = [[[false; 65]; 16]; 16];
    load(net, &mut procs, &mut stored, &mut tuples, &mut rows);
    make_with(
        net,
        &mut n,
        &mut procs,
        &mut stored,
        &mut tuples,
        &mut rows,
        picks,
        answers,
    );
    decode(net, n, &procs, &stored, &tuples, &rows)
}

// Every pick answered 10.
fn refuse_each(picks: &[u8], answers: &mut [u8])
    requires { length picks.now ≤ length answers.old }
    ensures { answers.new ≡ over answers.old 0 (replicate (length picks.now) 10) }
{
    for i in 0..picks.len() {
        answers[i] = 10;
    }
}

impl Engine {
    // The engine of an image's net.
    pub fn open(image: &[u8]) -> Started<Verdict>
        ensures answer_value { result.answer ≡ (opened_of image.now).answer }
        ensures net_value { result.engine.net ≡ (opened_of image.now).net }
    {
        let opened = read_image(image);
        Started {
            answer: opened.answer,
            engine: Engine { net: opened.net },
        }
    }

    // The engine of a text's net.
    pub fn open_text(text: &[u8]) -> Started<TextVerdict>
        ensures answer_value { result.answer ≡ (read_of text.now).answer }
        ensures net_value { result.engine.net ≡ (read_of text.now).net }
    {
        let opened = read_text(text);
        Started {
            answer: opened.answer,
            engine: Engine { net: opened.net },
        }
    }

    // Makes the picks one after another, their answers in the buffer, and says whether there was room for them.
    // Without room nothing changes; on a net that is not sound, as the empty one is not, each is answered 10.
    pub fn make(&mut self, picks: &[u8], answers: &mut [u8]) -> bool
        ensures room_value { result ≡ room_for picks.now answers.old }
        ensures net_value { self.new.net ≡ net_after self.old.net picks.now answers.old }
        ensures answers_after { answers.new ≡ answers_after self.old.net picks.now answers.old }
    {
        let room = picks.len() <= answers.len();
        if room {
            if sound(self.net) {
                self.net = ran(self.net, picks, answers);
            } else {
                refuse_each(picks, answers);
            }
        }
        room
    }

    // The net that the engine holds.
    pub fn net(self) -> Net
        ensures { result ≡ self.net }
    {
        self.net
    }
}
