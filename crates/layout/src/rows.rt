// What an image writes of the rows of the nodes (document 01, "The image", 2; document 02, slip 10): in format 1 a
// single one for each node, in format 2 one for each origin.
#![tactic(auto, using(text::proofs::WriterLaws::writing), unfolding(written::specs::ImageOf::rights_bits, written::specs::ImageOf::row_bits, written::specs::ImageOf::rows_bits))]

ghost use Rattle.std.specs.Prelude.{◌≡◌, ◌≤◌};
ghost use Rattle.layout.specs.Counts.{Counts};
ghost use Rattle.text.specs.Writer.{after};
ghost use Rattle.written.specs.ImageOf.{rights_bits, row_bits, node_rows_bits, rows_bits};

use net::network::Net;
use net::node::Node;
use net::policy::{Rights, Row};
use text::writer::Writer;

// The rights over one address.
fn put_rights(out: &mut Writer<'_, bool>, rights: Rights)
    ensures { out.new ≡ after out.old (rights_bits rights) }
{
    out.put_all(&[rights.take, rights.read, rights.put, rights.send]);
}

// A row: the right to create, then the rights over each of n addresses.
fn put_row(out: &mut Writer<'_, bool>, n: usize, row: &Row)
    requires { n ≤ 16 }
    ensures { out.new ≡ after out.old (row_bits n row.now) }
{
    out.put(row.create);
    for rights in &row.rights[..n] {
        put_rights(out, *rights);
    }
}

// The rows of a node in the given format, over n addresses.
fn put_node_rows(out: &mut Writer<'_, bool>, format: usize, n: usize, x: &Node)
    requires { n ≤ 16 }
    ensures { out.new ≡ after out.old (node_rows_bits format n x.now) }
{
    let count = if format == 1 { 1 } else { n };
    for row in &x.rows[..count] {
        put_row(out, n, row);
    }
}

// The rows of each node.
pub(crate) fn put_rows(out: &mut Writer<'_, bool>, net: &Net)
    requires { Counts net.now }
    ensures { out.new ≡ after out.old (rows_bits net.now) }
{
    for x in &net.nodes[..net.addresses] {
        put_node_rows(out, net.format, net.addresses, x);
    }
}
