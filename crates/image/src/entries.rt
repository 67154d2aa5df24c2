// Where a starting process reaches beyond its row (document 01, "Numbers for an image", number 30; document 02, slip 2): the
// entries of part 3 are read again, in image order.
ghost use Rattle.std.specs.Prelude.{◌<◌, ◌≡◌};
ghost use Rattle.bitreader.specs.Progress.{Reads};
ghost use Rattle.image.specs.Progress.{Sized, Begun};
ghost use Rattle.image.specs.Image.{each_address, entries, entries_of, beyond_row};

use bitreader::reader::BitReader;
use keeping::admission::admits_process;
use net::locality::Locality;
use net::network::Net;
use readers::fault::{Fault, require_in};

// The entries of a node, each of whose processes keeps within its row.
fn read_node_entries(r: &mut BitReader, net: &Net, a: Locality) -> Result<(), Fault>
    requires { a.0 < 16 }
    ensures { Reads r.old (entries_of net.now a tt) result r.new }
{
    let node = &net.nodes[a.0 as usize];
    let count = r.take(3, 0, 5, 22)?;
    for slot in 0..count {
        let at = r.place();
        r.code_place(net.length)?;
        let ok = admits_process(&net.code, node, a, node.processes[slot]);
        require_in(at, 9, ok, 30)?;
    }
    Ok(())
}

// The entries of each address.
fn read_entries(r: &mut BitReader, net: &Net) -> Result<(), Fault>
    requires { Sized net.now }
    ensures { Reads r.old (each_address net.now.addresses (entries_of net.now) tt) result r.new }
{
    for a in 0..net.addresses {
        read_node_entries(r, net, Locality(a as u8))?;
    }
    Ok(())
}

// The fault at the first entry whose process does not keep within its row, of the entries that begin at the reader's place.
pub(crate) fn beyond_row(r: &mut BitReader, net: &Net) -> Fault
    requires begun { Begun r.now.image.now r.now.at net.now }
    requires sized { Sized net.now }
    ensures { result ≡ beyond_row r.old.image.now net.now }
{
    match read_entries(r, net) {
        Ok(()) => Fault::at(30, r.place(), 9),
        Err(fault) => Fault::at(30, fault.place, 9),
    }
}
