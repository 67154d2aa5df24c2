// The rows of a text (document 01, "The planners' notation"; document 02, slip 13): in format 1 a single one for each
// address, in format 2 one for each origin.
#![tactic(auto, using(text::proofs::WriterLaws::writing), unfolding(sources::specs::Printed::rights_text, sources::specs::Printed::row_rest_text, sources::specs::Printed::row_text, sources::specs::Printed::origin_row_text, sources::specs::Printed::newline, text::specs::Bytes::bytes))]

ghost use Rattle.std.specs.Prelude.{◌≤◌, ◌≡◌};
ghost use Rattle.net.specs.Records.{address_of, row_at, node_at};
ghost use Rattle.sound.specs.Soundness.{is_none};
ghost use Rattle.layout.specs.Counts.{Counts};
ghost use Rattle.read_back.specs.NetSource.{listed, origin_rows_of, policy_of};
ghost use Rattle.sources.specs.Printed.{given, rights_text, grant_text, grants_text, row_rest_text, row_text, rows_text};
ghost use Rattle.sources.specs.Printed.{origin_row_text, node_text, nodes_text, policy_text};
ghost use Rattle.text.specs.Bytes.{bytes};
ghost use Rattle.text.specs.Writer.{after};

use crate::parts::put_given;
use net::network::Net;
use net::node::Node;
use net::policy::{Rights, Row};
use text::writer::Writer;

// Whether there is no right among them.
fn is_none(rights: Rights) -> bool
    ensures { result ≡ is_none rights }
{
    (!rights.take & !rights.read) & (!rights.put & !rights.send)
}

// The letters of the rights over one address.
fn put_rights(out: &mut Writer<'_, u8>, rights: Rights)
    ensures { out.new ≡ after out.old (rights_text rights) }
{
    put_given(out, rights.take, b'i');
    put_given(out, rights.read, b'r');
    put_given(out, rights.put, b'o');
    put_given(out, rights.send, b'e');
}

// An address with its rights, after a space; one without rights is left away.
fn put_grant(out: &mut Writer<'_, u8>, l: usize, rights: Rights)
    ensures { out.new ≡ after out.old (grant_text l rights) }
{
    if !is_none(rights) {
        out.put(b' ');
        out.decimal(l);
        out.put(b':');
        put_rights(out, rights);
    }
}

// The rights over each address.
fn put_grants(out: &mut Writer<'_, u8>, row: Row)
    ensures { out.new ≡ after out.old (grants_text 0 row.rights) }
{
    for (l, rights) in row.rights.iter().enumerate() {
        put_grant(out, l, *rights);
    }
}

// The right to create, after a space.
fn put_create(out: &mut Writer<'_, u8>, create: bool)
    ensures { out.new ≡ after out.old (given create (bytes " n")) }
{
    if create {
        out.put_all(b" n");
    }
}

// What stands behind ` has`, with the newline.
fn put_rest(out: &mut Writer<'_, u8>, row: &Row)
    ensures { out.new ≡ after out.old (row_rest_text row.now) }
{
    put_create(out, row.create);
    put_grants(out, *row);
    out.put(b'\n');
}

// The row of address i.
fn put_row(out: &mut Writer<'_, u8>, i: usize, row: &Row)
    ensures { out.new ≡ after out.old (row_text i row.now) }
{
    out.decimal(i);
    out.put_all(b" has");
    put_rest(out, row);
}

// The row of each address, of format 1.
fn put_rows(out: &mut Writer<'_, u8>, net: &Net)
    requires { Counts net.now }
    ensures { out.new ≡ after out.old (rows_text 0 (listed net.now.addresses (λ a. row_at (node_at net.now (address_of a)) (address_of 0)))) }
{
    for (i, x) in net.nodes[..net.addresses].iter().enumerate() {
        put_row(out, i, &x.rows[0]);
    }
}

// The row of node i for origin j.
fn put_origin_row(out: &mut Writer<'_, u8>, i: usize, j: usize, row: &Row)
    ensures { out.new ≡ after out.old (origin_row_text i j row.now) }
{
    out.decimal(i);
    out.put_all(b" from ");
    put_row(out, j, row);
}

// The rows of node i for each of n origins.
fn put_origins(out: &mut Writer<'_, u8>, i: usize, n: usize, x: &Node)
    requires { n ≤ 16 }
    ensures { out.new ≡ after out.old (node_text i 0 (origin_rows_of n x.now)) }
{
    for (j, row) in x.rows[..n].iter().enumerate() {
        put_origin_row(out, i, j, row);
    }
}

// The rows of each node, of format 2.
fn put_all_origins(out: &mut Writer<'_, u8>, net: &Net)
    requires { Counts net.now }
    ensures { out.new ≡ after out.old (nodes_text 0 (listed net.now.addresses (λ a. origin_rows_of net.now.addresses (node_at net.now (address_of a))))) }
{
    for (i, x) in net.nodes[..net.addresses].iter().enumerate() {
        put_origins(out, i, net.addresses, x);
    }
}

// The rows in the net's format.
pub(crate) fn put_policy(out: &mut Writer<'_, u8>, net: &Net)
    requires { Counts net.now }
    ensures { out.new ≡ after out.old (policy_text (policy_of net.now)) }
{
    if net.format == 1 {
        put_rows(out, net);
    } else {
        put_all_origins(out, net);
    }
}
