// The lines of a register (document 01, "The register"): each is written word by word.
#![tactic(auto, using(text::proofs::WriterLaws::writing))]

ghost use Rattle.std.specs.Prelude.{[], ◌∷◌, ◌≡◌, get_or};
ghost use Rattle.text.specs.Writer.{after};
ghost use Rattle.names.specs.Names.{name_after};
ghost use Rattle.names.specs.Faults.{number_of};
ghost use Rattle.lines.specs.Words.{spaced, printed};
ghost use Rattle.lines.specs.Shown.{named, named_after};
ghost use Rattle.lines.specs.Lines.{refusal_line, place_words, refused_line, net_line, made_line, name_words, node_line, node_lines};
ghost use Rattle.lines.specs.Lines.{field_words, mark_words, tuple_line, tuple_lines, net_lines, pick_lines};
ghost use Rattle.lines.specs.Lines.{tuple_count, closing_lines, after_lines};

use crate::shown::{Parts, Shown};
use crate::words::{put_item, put_line, put_name, put_number, put_start};
use names::entries::NamesFault;
use names::lookup::{name_tested, test};
use net::locality::Locality;
use net::network::Net;
use net::node::Node;
use net::tuple::Tuple;
use readers::fault::Fault;
use step::turn::{host_of, slot_of};
use text::writer::Writer;

// A refusal by its number alone.
#[tactic(auto, unfolding(crate::specs::Lines::refusal_line, text::specs::Bytes::bytes))]
pub fn put_refusal(out: &mut Writer<'_, u8>, n: u8)
    ensures { out.new ≡ after out.old (printed (refusal_line n ∷ [])) }
{
    put_line(out, b"refused", &[n as usize]);
}

// The bit at which the field at fault begins, where it is shown.
fn put_place(out: &mut Writer<'_, u8>, parts: Parts, fault: Fault)
    ensures { out.new ≡ after out.old (spaced (place_words parts fault)) }
{
    if parts.place {
        put_name(out, b"at");
        put_number(out, fault.place);
    }
}

// A refusal of an image.
pub fn put_refused(out: &mut Writer<'_, u8>, parts: Parts, fault: Fault)
    ensures { out.new ≡ after out.old (printed (refused_line parts fault ∷ [])) }
{
    put_start(out, b"refused", &[fault.number as usize]);
    put_place(out, parts, fault);
    out.put(b'\n');
}

// A net's address count and code length.
#[tactic(auto, unfolding(crate::specs::Lines::net_line, text::specs::Bytes::bytes))]
pub fn put_net(out: &mut Writer<'_, u8>, n: usize, k: usize)
    ensures { out.new ≡ after out.old (printed (net_line n k ∷ [])) }
{
    put_line(out, b"net", &[n, k]);
}

// A pick, by its byte, and its answer.
fn put_pick(out: &mut Writer<'_, u8>, i: usize, b: u8, answer: u8)
    ensures { out.new ≡ after out.old (printed (made_line i b answer ∷ [])) }
{
    put_line(
        out,
        b"pick",
        &[i, host_of(b).0 as usize, slot_of(b), answer as usize],
    );
}

// The answer of a pick, or 0 past the last one.
fn answer_at(answers: &[u8], i: usize) -> u8
    ensures { result ≡ get_or answers.now i 0 }
{
    answers.get(i).copied().unwrap_or(0)
}

// A line for each pick.
pub fn put_picks(out: &mut Writer<'_, u8>, picks: &[u8], answers: &[u8])
    ensures { out.new ≡ after out.old (printed (pick_lines picks.now answers.now)) }
{
    for (i, b) in picks.iter().enumerate() {
        put_pick(out, i + 1, *b, answer_at(answers, i));
    }
}

// A station's name, where there is one.
fn put_station(out: &mut Writer<'_, u8>, station: &[u8])
    ensures { out.new ≡ after out.old (spaced (name_words station.now)) }
{
    if !station.is_empty() {
        put_name(out, station);
    }
}

fn put_node(out: &mut Writer<'_, u8>, station: &[u8], a: Locality, stored: usize, busy: usize)
    ensures { out.new ≡ after out.old (printed (node_line station.now a stored busy ∷ [])) }
{
    put_start(out, b"node", &[a.0 as usize, stored, busy]);
    put_station(out, station);
    out.put(b'\n');
}

fn put_fields(out: &mut Writer<'_, u8>, t: &Tuple)
    ensures { out.new ≡ after out.old (spaced (field_words t.now)) }
{
    for i in 0..t.count.min(4) {
        put_item(out, t.fields[i].item);
    }
}

// Who put a tuple there, where it is shown.
fn put_mark(out: &mut Writer<'_, u8>, parts: Parts, t: &Tuple)
    ensures { out.new ≡ after out.old (spaced (mark_words parts t.now)) }
{
    if parts.mark {
        put_name(out, b"from");
        put_number(out, t.mark.0 as usize);
    }
}

fn put_tuple(out: &mut Writer<'_, u8>, parts: Parts, a: Locality, t: &Tuple)
    ensures { out.new ≡ after out.old (printed (tuple_line parts a t.now ∷ [])) }
{
    put_start(out, b"tuple", &[a.0 as usize]);
    put_fields(out, t);
    put_mark(out, parts, t);
    out.put(b'\n');
}

fn put_tuples(out: &mut Writer<'_, u8>, parts: Parts, a: Locality, x: &Node)
    ensures { out.new ≡ after out.old (printed (tuple_lines parts a x.now)) }
{
    for i in 0..x.stored.min(16) {
        put_tuple(out, parts, a, &x.tuples[i]);
    }
}

// A node's line, and its tuples.
fn put_node_lines(out: &mut Writer<'_, u8>, parts: Parts, station: &[u8], a: Locality, x: &Node)
    ensures { out.new ≡ after out.old (printed (node_lines parts station.now a x.now)) }
{
    put_node(out, station, a, x.stored, x.process_count());
    put_tuples(out, parts, a, x);
}

// The lines of an address, named by the lists where their test has answered this.
fn put_address(
    out: &mut Writer<'_, u8>,
    shown: Shown<'_>,
    tested: Result<(), NamesFault>,
    a: Locality,
    x: &Node,
)
    ensures { out.new ≡ after out.old (printed (node_lines shown.entry.parts (name_after (number_of tested) shown.entry.site.now shown.entry.office.now a) a x.now)) }
{
    let station = name_tested(shown.site, shown.office, tested, a);
    put_node_lines(out, shown.parts, station, a, x);
}

// The lines of each address in use.
fn put_nodes(out: &mut Writer<'_, u8>, shown: Shown<'_>, tested: Result<(), NamesFault>, net: &Net)
    ensures { out.new ≡ after out.old (printed (net_lines (named_after (number_of tested) shown.entry.parts shown.entry.site.now shown.entry.office.now) net.now)) }
{
    for i in 0..net.addresses.min(16) {
        put_address(out, shown, tested, Locality(i as u8), &net.nodes[i]);
    }
}

// How many tuples stand in the net, at the addresses in use.
fn tuple_count(net: &Net) -> usize
    ensures { result ≡ tuple_count net.now }
{
    let mut count = 0;
    for i in 0..net.addresses.min(16) {
        count += net.nodes[i].stored.min(16);
    }
    count
}

// The last line of a register, where it is shown.
fn put_closing(out: &mut Writer<'_, u8>, parts: Parts, net: &Net)
    ensures { out.new ≡ after out.old (printed (closing_lines parts net.now)) }
{
    if parts.total {
        put_line(out, b"total", &[tuple_count(net)]);
    }
}

// What a register says of the net after the picks: the lists of names are tested first.
pub fn put_after(out: &mut Writer<'_, u8>, shown: Shown<'_>, net: &Net)
    ensures { out.new ≡ after out.old (printed (after_lines (named shown.entry.parts shown.entry.site.now shown.entry.office.now) net.now)) }
{
    put_nodes(out, shown, test(shown.site, shown.office), net);
    put_closing(out, shown.parts, net);
}
