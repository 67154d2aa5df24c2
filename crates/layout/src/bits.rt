// Numbers written in bits.
#![tactic(auto, using(text::proofs::WriterLaws::writing))]

ghost use Rattle.std.specs.Prelude.{◌≡◌, ◌++◌};
ghost use Rattle.text.specs.Writer.{after};
ghost use Rattle.written.specs.ImageOf.{bits_of};

use text::writer::Writer;

// A number in the given count of bits, the most significant first.
pub fn put_number(out: &mut Writer<'_, bool>, width: usize, value: usize)
    ensures { out.new ≡ after out.old (bits_of width value) }
{
    if width > 0 {
        put_number(out, width - 1, value / 2);
        out.put(value % 2 == 1);
    }
}

// A number, then another.
pub fn put_pair(out: &mut Writer<'_, bool>, w: usize, x: usize, v: usize, y: usize)
    ensures { out.new ≡ after out.old (bits_of w x ++ bits_of v y) }
{
    put_number(out, w, x);
    put_number(out, v, y);
}
