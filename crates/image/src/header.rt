// The header of an image (document 01, "The image", part 1; document 02, slip 10).
ghost use Rattle.std.specs.Prelude.{◌≡◌};
ghost use Rattle.net.specs.Records.{empty_net};
ghost use Rattle.bitreader.specs.Progress.{Reads};
ghost use Rattle.image.specs.Image.{header};
ghost use Rattle.image.specs.Progress.{filled, Sized};

use bitreader::reader::BitReader;
use net::network::Net;
use readers::fault::Fault;

// Format, address count and code length, into the empty net.
pub(crate) fn read_header(r: &mut BitReader, net: &mut Net) -> Result<(), Fault>
    requires { net.now ≡ empty_net }
    ensures reads { Reads r.old header (filled result net.new) r.new }
    ensures sized { Sized net.new }
{
    net.format = r.take(4, 1, 3, 21)?;
    net.addresses = r.take(5, 1, 17, 22)?;
    net.length = r.take(10, 1, 513, 22)?;
    Ok(())
}
