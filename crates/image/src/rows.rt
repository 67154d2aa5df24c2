// Rows of an image (document 01, "The image", part 2; document 02, slip 10).
ghost use Rattle.std.specs.Prelude.{◌<◌, ◌≤◌, ◌≡◌};
ghost use Rattle.image.specs.Image.{is_set_bit, rights_of, creating, row, node_rows, rows};
ghost use Rattle.bitreader.specs.Progress.{Reads};
ghost use Rattle.image.specs.Progress.{filled, Sized, Counted};

use bitreader::reader::BitReader;
use net::network::Net;
use net::node::Node;
use net::policy::{Rights, Row};
use readers::fault::Fault;

// Whether the bit of that unit is set in a number.
#[tactic(auto, unfolding(crate::specs::Image::is_set_bit))]
fn is_set_bit(v: usize, unit: usize) -> bool
    requires { 0 < unit }
    ensures { result ≡ is_set_bit v unit }
{
    v / unit % 2 == 1
}

// The rights that four bits write.
#[tactic(auto, unfolding(crate::specs::Image::rights_of))]
fn rights_of(v: usize) -> Rights
    ensures { result ≡ rights_of v }
{
    Rights {
        take: is_set_bit(v, 8),
        read: is_set_bit(v, 4),
        put: is_set_bit(v, 2),
        send: is_set_bit(v, 1),
    }
}

// A row with no rights over any address, and n as the bit writes it.
#[tactic(auto, unfolding(crate::specs::Image::creating))]
fn creating_row(v: usize) -> Row
    ensures { result ≡ creating v }
{
    Row {
        create: v == 1,
        ..Row::zero()
    }
}

// A row over n addresses.
fn read_row(r: &mut BitReader, n: usize) -> Result<Row, Fault>
    requires { n ≤ 16 }
    ensures { Reads r.old (row n) result r.new }
{
    let mut row = creating_row(r.take(1, 0, 2, 28)?);
    for i in 0..n {
        row.rights[i] = rights_of(r.take(4, 0, 16, 28)?);
    }
    Ok(row)
}

// The rows of a node: in format 1 a single row, which is that for every origin, and in format 2 a row for each of n origins.
fn read_node_rows(r: &mut BitReader, format: usize, n: usize, node: &mut Node) -> Result<(), Fault>
    requires { n ≤ 16 }
    ensures { Reads r.old (node_rows format n node.old) (filled result node.new) r.new }
{
    if format == 1 {
        node.rows = read_row(r, n)?.alike();
        return Ok(());
    }
    for o in 0..n {
        node.rows[o] = read_row(r, n)?;
    }
    Ok(())
}

// The rows of each address.
// Kept: this loop over addresses and those of starts.rt and stores.rt stand apart: each calls
// another reader with other parameters, so one function that takes the reader as a closure is no plainer.
pub(crate) fn read_rows(r: &mut BitReader, net: &mut Net) -> Result<(), Fault>
    requires { Sized net.now }
    ensures reads { Reads r.old (rows net.old) (filled result net.new) r.new }
    ensures kept { Counted net.old net.new }
{
    for a in 0..net.addresses {
        read_node_rows(r, net.format, net.addresses, &mut net.nodes[a])?;
    }
    Ok(())
}
