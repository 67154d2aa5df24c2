// The bits of a whole net (document 01, "The image", 1 to 5).
#![tactic(auto, using(text::proofs::WriterLaws::writing), unfolding(written::specs::ImageOf::header_bits, written::specs::ImageOf::net_bits))]

ghost use Rattle.std.specs.Prelude.{◌≡◌};
ghost use Rattle.layout.specs.Counts.{Counts};
ghost use Rattle.text.specs.Writer.{after};
ghost use Rattle.written.specs.ImageOf.{header_bits, net_bits};

use crate::bits::put_number;
use crate::code::put_code;
use crate::nodes::{put_all_processes, put_all_tuples};
use crate::rows::put_rows;
use net::network::Net;
use text::writer::Writer;

// Format, address count and code length.
fn put_header(out: &mut Writer<'_, bool>, net: &Net)
    ensures { out.new ≡ after out.old (header_bits net.now) }
{
    put_number(out, 4, net.format);
    put_number(out, 5, net.addresses);
    put_number(out, 10, net.length);
}

// The bits of a net.
pub fn put_net(out: &mut Writer<'_, bool>, net: &Net)
    requires { Counts net.now }
    ensures { out.new ≡ after out.old (net_bits net.now) }
{
    put_header(out, net);
    put_rows(out, net);
    put_all_processes(out, net);
    put_all_tuples(out, net);
    put_code(out, net);
}
