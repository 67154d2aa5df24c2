// Tuples of an image (document 01, "The image", part 4).
ghost use Rattle.std.specs.Prelude.{◌≡◌};
ghost use Rattle.net.specs.Records.{with_tuple};
ghost use Rattle.bitreader.specs.Progress.{Reads};
ghost use Rattle.image.specs.Image.{item, tuple, tuples, all_tuples};
ghost use Rattle.image.specs.Progress.{filled, Sized, Counted};

use bitreader::reader::BitReader;
use net::locality::Locality;
use net::network::Net;
use net::node::Node;
use net::tuple::{Field, Item, Tuple};
use readers::fault::Fault;

// A field of a tuple: its sort, then a reading or an address.
fn read_item(r: &mut BitReader, n: usize) -> Result<Item, Fault>
    ensures { Reads r.old (item n) result r.new }
{
    if r.take(1, 0, 2, 28)? == 0 {
        Ok(Item::Reading(r.reading()?))
    } else {
        Ok(Item::Address(r.address(n)?))
    }
}

// A tuple: its field count, then its fields.
fn read_tuple(r: &mut BitReader, n: usize) -> Result<Tuple, Fault>
    ensures { Reads r.old (tuple n) result r.new }
{
    let less = r.take(2, 0, 4, 28)?;
    let mut tuple = Tuple::zero();
    for i in 0..less + 1 {
        let item = read_item(r, n)?;
        tuple = tuple.with_field(Field { item });
    }
    Ok(tuple)
}

// A tuple put as a node's newest, where there is room for it.
#[tactic(auto, unfolding(net::specs::Records::with_tuple, net::specs::Choice::choose))]
fn store(node: &mut Node, t: Tuple)
    ensures { node.new ≡ with_tuple node.old t }
{
    if node.stored < 16 {
        node.tuples[node.stored] = t;
        node.stored += 1;
    }
}

// The tuples of the node at address a, oldest first, each with its mark, after those that stood there.
fn read_node_tuples(r: &mut BitReader, a: Locality, n: usize, node: &mut Node) -> Result<(), Fault>
    ensures { Reads r.old (tuples a n node.old) (filled result node.new) r.new }
{
    let count = r.take(5, 0, 17, 22)?;
    for i in 0..count {
        let tuple = read_tuple(r, n)?;
        store(node, tuple.marked(a));
    }
    Ok(())
}

// The tuples of each address.
pub(crate) fn read_tuples(r: &mut BitReader, net: &mut Net) -> Result<(), Fault>
    requires { Sized net.now }
    ensures reads { Reads r.old (all_tuples net.old) (filled result net.new) r.new }
    ensures kept { Counted net.old net.new }
{
    for a in 0..net.addresses {
        read_node_tuples(r, Locality(a as u8), net.addresses, &mut net.nodes[a])?;
    }
    Ok(())
}
