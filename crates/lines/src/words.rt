// Words of a line after its first, which is its name: a space before each.
#![tactic(auto, using(text::proofs::WriterLaws::writing))]

ghost use Rattle.std.specs.Prelude.{◌≡◌, [], ◌∷◌, ◌++◌, map};
ghost use Rattle.text.specs.Writer.{after};
ghost use Rattle.lines.specs.Words.{name, number, spaced, printed};
ghost use Rattle.lines.specs.Lines.{item_word};

use net::tuple::Item;
use text::writer::Writer;

pub fn put_number(out: &mut Writer<'_, u8>, n: usize)
    ensures { out.new ≡ after out.old (spaced (number n ∷ [])) }
{
    out.put(b' ');
    out.decimal(n);
}

pub fn put_name(out: &mut Writer<'_, u8>, text: &[u8])
    ensures { out.new ≡ after out.old (spaced (name text.now ∷ [])) }
{
    out.put(b' ');
    out.put_all(text);
}

// A tuple's field: a reading, or an address with its @.
pub fn put_item(out: &mut Writer<'_, u8>, item: Item)
    ensures { out.new ≡ after out.old (spaced (item_word item ∷ [])) }
{
    out.put(b' ');
    match item {
        Item::Reading(x) => out.signed_decimal(x),
        Item::Address(l) => {
            out.put(b'@');
            out.decimal(l.0 as usize);
        }
    }
}

fn put_numbers(out: &mut Writer<'_, u8>, numbers: &[usize])
    ensures { out.new ≡ after out.old (spaced (map number numbers.now)) }
{
    for n in numbers {
        put_number(out, *n);
    }
}

// A line's name and the numbers after it.
pub fn put_start(out: &mut Writer<'_, u8>, text: &[u8], numbers: &[usize])
    ensures { out.new ≡ after out.old (text.now ++ spaced (map number numbers.now)) }
{
    out.put_all(text);
    put_numbers(out, numbers);
}

// A line of numbers.
pub fn put_line(out: &mut Writer<'_, u8>, text: &[u8], numbers: &[usize])
    ensures { out.new ≡ after out.old (printed ((name text.now ∷ map number numbers.now) ∷ [])) }
{
    put_start(out, text, numbers);
    out.put(b'\n');
}
