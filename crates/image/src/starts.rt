// Starting processes of an image (document 01, "The image", part 3).
ghost use Rattle.bitreader.specs.Progress.{Reads};
ghost use Rattle.image.specs.Image.{processes, all_processes};
ghost use Rattle.image.specs.Progress.{filled, Sized, Counted};

use bitreader::reader::BitReader;
use net::locality::Locality;
use net::network::Net;
use net::node::Node;
use net::process::Process;
use readers::fault::Fault;

// The processes of the node at address a, which fill slots 0 upward.
fn read_node_processes(
    r: &mut BitReader,
    a: Locality,
    k: usize,
    node: &mut Node,
) -> Result<(), Fault>
    ensures { Reads r.old (processes a k node.old) (filled result node.new) r.new }
{
    let count = r.take(3, 0, 5, 22)?;
    for slot in 0..count {
        let at = r.code_place(k)?;
        node.processes[slot] = Process::starting(a, at);
    }
    Ok(())
}

// The processes of each address.
pub(crate) fn read_processes(r: &mut BitReader, net: &mut Net) -> Result<(), Fault>
    requires { Sized net.now }
    ensures reads { Reads r.old (all_processes net.old) (filled result net.new) r.new }
    ensures kept { Counted net.old net.new }
{
    for a in 0..net.addresses {
        read_node_processes(r, Locality(a as u8), net.length, &mut net.nodes[a])?;
    }
    Ok(())
}
