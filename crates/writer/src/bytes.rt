// Bits packed into bytes, the last byte filled up with zero bits (document 01, "The image", 6).
#![tactic(auto, using(text::proofs::WriterLaws::writing), unfolding(crate::specs::Packing::bytes_in, written::specs::ImageOf::digit, written::specs::ImageOf::number_in))]

ghost use Rattle.std.specs.Prelude.{◌≤◌, ◌*◌, false, ◌≡◌, get_or};
ghost use Rattle.accepted.specs.LengthClaims.{longest_image};
ghost use Rattle.text.specs.Writer.{after};
ghost use Rattle.written.specs.ImageOf.{digit, number_in};
ghost use Rattle.writer.specs.Packing.{bytes_in};

use text::writer::Writer;

// One bit, as a number: 0 past the last one.
fn bit_at(bits: &[bool], at: usize) -> usize
    ensures { (result ≡ digit (get_or bits.now at false)) × (result ≤ 1) }
{
    if at < bits.len() {
        usize::from(bits[at])
    } else {
        0
    }
}

// The byte that eight bits write.
fn byte_at(bits: &[bool], at: usize) -> u8
    requires { at ≤ 8 * longest_image }
    ensures { result ≡ number_in bits.now at 8 }
{
    let mut n = 0;
    for w in 0..8 {
        n = n * 2 + bit_at(bits, at + w);
    }
    n as u8
}

// The first n bytes.
pub(crate) fn put_bytes(bits: &[bool], n: usize, out: &mut Writer<'_, u8>)
    requires { n ≤ longest_image }
    ensures { out.new ≡ after out.old (bytes_in bits.now n) }
{
    for i in 0..n {
        out.put(byte_at(bits, 8 * i));
    }
}
