// A net written as a text in the planners' notation (document 02, slip 13).
ghost use Rattle.std.specs.Prelude.{true, ◌≡◌, length};
ghost use Rattle.fresh.specs.Fresh.{fresh_of};
ghost use Rattle.layout.specs.Counts.{Counts};
ghost use Rattle.read_back.specs.NetSource.{text_of};
ghost use Rattle.text.specs.Buffer.{over};
ghost use Rattle.text.specs.Writer.{after, fitted};
ghost use Rattle.text_writer.specs.Calls.{texted_of, text_in};
ghost use Rattle.writer.specs.Calls.{placed_of, placed_in};

use crate::code::put_definitions;
use crate::nodes::put_nodes;
use crate::policies::put_policy;
use fresh::freshness::is_fresh;
use net::network::Net;
use text::writer::Writer;
use writer::pack::Unwritten;

// No text of a net is longer (proved: `WrittenInBounds` of the crate `read_back_law`).
pub const LONGEST_WRITTEN: usize = 105920;

// The text of a net.
#[tactic(auto, using(text::proofs::WriterLaws::writing))]
fn put_text(out: &mut Writer<'_, u8>, net: &Net)
    requires { Counts net.now }
    ensures { out.new ≡ after out.old (text_of net.now) }
{
    put_policy(out, net);
    put_definitions(out, net);
    put_nodes(out, net);
}

// The text of a net, from a buffer's start: how long it is, where all of it fits.
#[tactic(auto, using(text::proofs::WriterLaws::started_written), unfolding(text::specs::Writer::after))]
fn text_in_full(net: &Net, out: &mut [u8]) -> Option<usize>
    requires { Counts net.now }
    ensures value { result ≡ fitted (text_of net.now) (length out.old) }
    ensures out_after { out.new ≡ over out.old 0 (text_of net.now) }
{
    let mut writer = Writer::new(out);
    put_text(&mut writer, net);
    writer.written()
}

// A text, copied where there is room for it.
fn copy_text(text: &[u8], out: &mut [u8]) -> Result<usize, Unwritten>
    ensures value { result ≡ placed_of (length text.now) (length out.old) }
    ensures out_after { out.new ≡ placed_in text.now out.old }
{
    let n = text.len();
    if n > out.len() {
        return Err(Unwritten::NoRoom);
    }
    Writer::new(out).put_all(text);
    Ok(n)
}

// Room for every text.
fn room() -> [u8; LONGEST_WRITTEN]
    ensures { 105920 ≡ length result }
{
    [0; LONGEST_WRITTEN]
}

// The text of a net that some image gives, from a buffer of our own: its length is known before a byte is written to the
// lent one.
fn write_fresh(net: &Net, out: &mut [u8]) -> Result<usize, Unwritten>
    requires { fresh_of net.now ≡ true }
    ensures value { result ≡ placed_of (length (text_of net.now)) (length out.old) }
    ensures out_after { out.new ≡ placed_in (text_of net.now) out.old }
{
    let mut text = room();
    let n = text_in_full(net, &mut text).unwrap();
    copy_text(&text[..n], out)
}

// Writes a net as a text into the buffer, and gives the text's length.
pub fn write_text(net: Net, out: &mut [u8]) -> Result<usize, Unwritten>
    ensures value { result ≡ texted_of net (length out.old) }
    ensures out_after { out.new ≡ text_in net out.old }
{
    if is_fresh(net) {
        write_fresh(&net, out)
    } else {
        Err(Unwritten::NotFresh)
    }
}
