// The lines of an address: its processes, and after them its tuples (document 02, slip 13).
#![tactic(auto, using(text::proofs::WriterLaws::writing), unfolding(read_back::specs::NetSource::named, sources::specs::Printed::address_text, sources::specs::Printed::item_text, sources::specs::Printed::tuple_text, sources::specs::Printed::process_text, sources::specs::Printed::line_text, sources::specs::Printed::lines_text, sources::specs::Printed::newline, text::specs::Bytes::bytes))]

ghost use Rattle.std.specs.Prelude.{◌≤◌, ◌≡◌, [], ◌∷◌, ◌++◌, map, take};
ghost use Rattle.net.specs.Choice.{choose};
ghost use Rattle.net.specs.Records.{address_of};
ghost use Rattle.layout.specs.Counts.{NodeCounts, Counts};
ghost use Rattle.linking.specs.Source.{process, tuple};
ghost use Rattle.read_back.specs.NetSource.{named, process_lines, tuple_lines, lines_at};
ghost use Rattle.sources.specs.Printed.{given, separated, item_text, tuple_text, lines_text};
ghost use Rattle.text.specs.Bytes.{bytes};
ghost use Rattle.text.specs.Joined.{joined};
ghost use Rattle.text.specs.Writer.{after};

use crate::code::put_named;
use crate::parts::{put_given, put_numbered};
use net::locality::Locality;
use net::network::Net;
use net::node::Node;
use net::process::Process;
use net::tuple::{Item, Tuple};
use text::writer::Writer;

// A tuple's field, behind a comma where others stand before it.
fn put_item(out: &mut Writer<'_, u8>, some: bool, item: Item)
    ensures { out.new ≡ after out.old (given some (bytes ",") ++ item_text item) }
{
    put_given(out, some, b',');
    match item {
        Item::Reading(x) => out.signed_decimal(x),
        Item::Address(l) => put_numbered(out, b"@", usize::from(l.0)),
    }
}

// The fields of a tuple, with commas between them.
fn put_items(out: &mut Writer<'_, u8>, t: &Tuple)
    requires { t.now.count ≤ 4 }
    ensures { out.new ≡ after out.old (separated (map (λ f. item_text f.item) (take t.now.count t.now.fields))) }
{
    for (i, field) in t.fields[..t.count].iter().enumerate() {
        put_item(out, 0 < i, field.item);
    }
}

// A tuple.
fn put_tuple(out: &mut Writer<'_, u8>, t: &Tuple)
    requires { t.now.count ≤ 4 }
    ensures { out.new ≡ after out.old (tuple_text t.now) }
{
    out.put(b'<');
    put_items(out, t);
    out.put(b'>');
}

// The line of a tuple.
fn put_tuple_line(out: &mut Writer<'_, u8>, a: Locality, t: &Tuple)
    requires { t.now.count ≤ 4 }
    ensures { out.new ≡ after out.old (lines_text (tuple a t.now ∷ [])) }
{
    out.decimal(usize::from(a.0));
    out.put_all(b" :: ");
    put_tuple(out, t);
    out.put(b'\n');
}

// The line of a process, where its slot is busy.
fn put_process(out: &mut Writer<'_, u8>, a: Locality, p: &Process)
    ensures { out.new ≡ after out.old (lines_text (choose p.now.busy (process a (named p.now.at) ∷ []) [])) }
{
    if p.busy {
        out.decimal(usize::from(a.0));
        put_named(out, b" :: ", p.at);
        out.put(b'\n');
    }
}

// The processes of the node x at address a.
fn put_processes(out: &mut Writer<'_, u8>, a: Locality, x: &Node)
    ensures { out.new ≡ after out.old (lines_text (process_lines a x.now)) }
{
    for p in &x.processes {
        put_process(out, a, p);
    }
}

// Its tuples.
fn put_tuples(out: &mut Writer<'_, u8>, a: Locality, x: &Node)
    requires { NodeCounts x.now }
    ensures { out.new ≡ after out.old (lines_text (tuple_lines a x.now)) }
{
    for t in &x.tuples[..x.stored] {
        put_tuple_line(out, a, t);
    }
}

// The lines of each address in use.
pub(crate) fn put_nodes(out: &mut Writer<'_, u8>, net: &Net)
    requires { Counts net.now }
    ensures { out.new ≡ after out.old (lines_text (joined net.now.addresses (λ a. lines_at net.now (address_of a)))) }
{
    for (i, x) in net.nodes[..net.addresses].iter().enumerate() {
        put_processes(out, Locality(i as u8), x);
        put_tuples(out, Locality(i as u8), x);
    }
}
