// A net written as an image (document 01, "The image").
ghost use Rattle.std.specs.Prelude.{◌≤◌, ◌+◌, ◌*◌, ◌/◌, true, ◌≡◌, length};
ghost use Rattle.writer.specs.Calls.{placed_of, placed_in, packed_of, image_in};
ghost use Rattle.accepted.specs.LengthClaims.{longest_image};
ghost use Rattle.fresh.specs.Fresh.{fresh_of};
ghost use Rattle.layout.specs.Counts.{Counts};
ghost use Rattle.text.specs.Buffer.{over};
ghost use Rattle.text.specs.Writer.{fitted};
ghost use Rattle.written.specs.ImageOf.{net_bits, image_of};
ghost use Rattle.writer.specs.Packing.{bytes_in};

use crate::bytes::put_bytes;
use fresh::freshness::is_fresh;
use image::reader::LONGEST_IMAGE;
use layout::whole::put_net;
use net::network::Net;
use text::writer::Writer;

// Why a net was not written: no accepted image gives it, or the buffer is too short.
#[derive(Clone, Copy, PartialEq, Eq, Debug)]
pub enum Unwritten {
    NotFresh,
    NoRoom,
}

// The bytes of the first bits, where there is room for them: how many they are.
fn put_packed(bits: &[bool], end: usize, out: &mut [u8]) -> Result<usize, Unwritten>
    requires { end ≤ 8 * longest_image }
    ensures value { result ≡ placed_of (length (bytes_in bits.now ((end + 7) / 8))) (length out.old) }
    ensures out_after { out.new ≡ placed_in (bytes_in bits.now ((end + 7) / 8)) out.old }
{
    let n = (end + 7) / 8;
    if n > out.len() {
        return Err(Unwritten::NoRoom);
    }
    put_bytes(bits, n, &mut Writer::new(out));
    Ok(n)
}

// The bits of a net, from a buffer's start: how many they are, where all of them fit.
#[tactic(auto, using(text::proofs::WriterLaws::started_written), unfolding(text::specs::Writer::after))]
fn write_bits(net: &Net, bits: &mut [bool]) -> Option<usize>
    requires { Counts net.now }
    ensures value { result ≡ fitted (net_bits net.now) (length bits.old) }
    ensures bits_after { bits.new ≡ over bits.old 0 (net_bits net.now) }
{
    let mut writer = Writer::new(bits);
    put_net(&mut writer, net);
    writer.written()
}

// The image of a net that some image gives: its bits first, so that its length is known before a byte is
// written. No image has more bits.
fn write_fresh(net: &Net, out: &mut [u8]) -> Result<usize, Unwritten>
    requires { fresh_of net.now ≡ true }
    ensures value { result ≡ placed_of (length (image_of net.now)) (length out.old) }
    ensures out_after { out.new ≡ placed_in (image_of net.now) out.old }
{
    let mut bits = [false; 8 * LONGEST_IMAGE];
    let end = write_bits(net, &mut bits).unwrap();
    put_packed(&bits, end, out)
}

// Writes a net as an image into the buffer, and gives the image's length.
pub fn write_image(net: Net, out: &mut [u8]) -> Result<usize, Unwritten>
    ensures value { result ≡ packed_of net (length out.old) }
    ensures out_after { out.new ≡ image_in net out.old }
{
    if is_fresh(net) {
        write_fresh(&net, out)
    } else {
        Err(Unwritten::NotFresh)
    }
}
