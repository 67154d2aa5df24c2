// What an image writes of the nodes: starting processes and tuples (document 01, "The image", 3 and 4).
#![tactic(auto, using(text::proofs::WriterLaws::writing), unfolding(written::specs::ImageOf::processes_bits, written::specs::ImageOf::item_bits, written::specs::ImageOf::tuple_bits, written::specs::ImageOf::tuples_bits, written::specs::ImageOf::all_processes_bits, written::specs::ImageOf::all_tuples_bits))]

ghost use Rattle.std.specs.Prelude.{◌≡◌, ◌≤◌};
ghost use Rattle.layout.specs.Counts.{NodeCounts, Counts};
ghost use Rattle.text.specs.Writer.{after};
ghost use Rattle.written.specs.ImageOf.{processes_bits, item_bits, tuple_bits, tuples_bits, all_processes_bits, all_tuples_bits};

use crate::bits::put_number;
use crate::fields::{put_address, put_place, put_reading};
use net::network::Net;
use net::node::Node;
use net::tuple::{Item, Tuple};
use text::writer::Writer;

// Kept: a loop of each kind of part, here and in rows and code: two lines each; one function that takes a closure, with
// a clause of what the closure writes, is no plainer.

// The processes of a node: their number, then the first place of each.
fn put_processes(out: &mut Writer<'_, bool>, x: &Node)
    ensures { out.new ≡ after out.old (processes_bits x.now) }
{
    let n = x.process_count();
    put_number(out, 3, n);
    for p in &x.processes[..n] {
        put_place(out, p.at);
    }
}

// The processes of each node.
pub(crate) fn put_all_processes(out: &mut Writer<'_, bool>, net: &Net)
    requires { Counts net.now }
    ensures { out.new ≡ after out.old (all_processes_bits net.now) }
{
    for x in &net.nodes[..net.addresses] {
        put_processes(out, x);
    }
}

// A tuple's field.
fn put_item(out: &mut Writer<'_, bool>, item: Item)
    ensures { out.new ≡ after out.old (item_bits item) }
{
    match item {
        Item::Reading(x) => {
            out.put(false);
            put_reading(out, x);
        }
        Item::Address(l) => {
            out.put(true);
            put_address(out, l);
        }
    }
}

// A tuple: its field count less one, then each field.
fn put_tuple(out: &mut Writer<'_, bool>, t: &Tuple)
    requires { t.now.count ≤ 4 }
    ensures { out.new ≡ after out.old (tuple_bits t.now) }
{
    put_number(out, 2, t.count.saturating_sub(1));
    for field in &t.fields[..t.count] {
        put_item(out, field.item);
    }
}

// The tuples of a node: their number, then each.
fn put_tuples(out: &mut Writer<'_, bool>, x: &Node)
    requires { NodeCounts x.now }
    ensures { out.new ≡ after out.old (tuples_bits x.now) }
{
    put_number(out, 5, x.stored);
    for t in &x.tuples[..x.stored] {
        put_tuple(out, t);
    }
}

// The tuples of each node.
pub(crate) fn put_all_tuples(out: &mut Writer<'_, bool>, net: &Net)
    requires { Counts net.now }
    ensures { out.new ≡ after out.old (all_tuples_bits net.now) }
{
    for x in &net.nodes[..net.addresses] {
        put_tuples(out, x);
    }
}
