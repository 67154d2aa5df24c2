// Nets in the planners' notation (document 01, "The planners' notation"): a text is read to its end, then its names are judged
// (33), the number of its instructions (22), and its starting processes (30).
ghost use Rattle.std.specs.Prelude.{false, ◌≡◌, replicate};
ghost use Rattle.linking.specs.State.{own_names};
ghost use Rattle.notation.specs.Judging.{judged_net, judged_count, judged_names};
ghost use Rattle.notation.specs.Text.{refused, read_of};

use crate::lines::{Lines, read_lines};
use keeping::admission::admitted;
use lexemes::reader::TextReader;
use linking::names::names_right;
use linking::places::link;
use net::network::Net;
use processes::code::Code;
use rows::policies::read_policy;

// What reading a text answers: a refusal has its number.
#[derive(Clone, Copy)]
pub enum Verdict {
    Accepted,
    Refused(u8),
}

// The answer with the net: the one that the text writes down, or the empty net.
#[derive(Clone, Copy)]
pub struct Opened {
    pub answer: Verdict,
    pub net: Net,
}

// A refusal leaves the empty net.
#[tactic(auto, unfolding(crate::specs::Text::refused))]
fn refuse(n: u8) -> Opened
    ensures { result ≡ refused n }
{
    Opened {
        answer: Verdict::Refused(n),
        net: Net::empty(),
    }
}

// A net whose starting processes keep within their rows.
#[tactic(auto, unfolding(crate::specs::Judging::judged_net, crate::specs::Text::accepted, net::specs::Choice::choose))]
fn judge_net(net: Net) -> Opened
    ensures { result ≡ judged_net net }
{
    if admitted(&net) {
        Opened {
            answer: Verdict::Accepted,
            net,
        }
    } else {
        refuse(30)
    }
}

// 1 to 512 instructions.
#[tactic(auto, using(crate::proofs::TextLaws::judging))]
fn judge_count(
    net: Net,
    count: usize,
    table: &[usize],
    bodies: &[usize],
    starts: &[usize],
) -> Opened
    ensures { result ≡ judged_count table.now bodies.now starts.now count net }
{
    if count < 1 || 512 < count {
        return refuse(22);
    }
    judge_net(link(net, count, table, bodies, starts))
}

// Names that are right.
#[tactic(auto, using(crate::proofs::TextLaws::judging))]
fn judge_names(lines: &Lines) -> Opened
    ensures { result ≡ judged_names lines.now.code.table.now lines.now.code.used.now lines.now.bodies.now lines.now.defs.now lines.now.starts.now lines.now.code.count lines.now.twice lines.now.net.now }
{
    if names_right(lines.bodies, lines.defs, lines.code.used, lines.twice) {
        judge_count(
            *lines.net,
            lines.code.count,
            lines.code.table,
            lines.bodies,
            lines.starts,
        )
    } else {
        refuse(33)
    }
}

// Each name stands for itself until it is defined.
#[tactic(auto, using(crate::proofs::TextLaws::owned), unfolding(linking::specs::State::own_names))]
fn own_names() -> [usize; 512]
    ensures { result ≡ own_names }
{
    let mut names = [0usize; 512];
    for k in 0..512usize {
        names[k] = k;
    }
    names
}

// What a text gives, by tables in which nothing stands yet.
fn read_into(
    text: &[u8],
    table: &mut [usize],
    used: &mut [bool],
    bodies: &mut [usize],
    defs: &mut [bool],
    starts: &mut [usize],
) -> Opened
    requires { (table.old ≡ replicate 4608 0) × ((used.old ≡ replicate 512 false) × ((bodies.old ≡ own_names) × ((defs.old ≡ replicate 512 false) × (starts.old ≡ replicate 64 0)))) }
    ensures { result ≡ read_of text.now }
{
    let mut r = TextReader::new(text);
    let mut net = match read_policy(&mut r) {
        Ok(net) => net,
        Err(fault) => return refuse(fault.number),
    };
    let code = Code {
        table,
        used,
        count: 0,
    };
    let mut lines = Lines {
        code,
        bodies,
        defs,
        twice: false,
        starts,
        net: &mut net,
    };
    match read_lines(&mut r, &mut lines) {
        Ok(_) => judge_names(&lines),
        Err(fault) => refuse(fault.number),
    }
}

// What a text gives: the net, or the number of its first fault and the empty net.
pub fn read_text(text: &[u8]) -> Opened
    ensures { result ≡ read_of text.now }
{
    let mut table = [0usize; 4608];
    let mut used = [false; 512];
    let mut bodies = own_names();
    let mut defs = [false; 512];
    let mut starts = [0usize; 64];
    read_into(
        text,
        &mut table,
        &mut used,
        &mut bodies,
        &mut defs,
        &mut starts,
    )
}
