// Parts that stand in several places of a text.
#![tactic(auto, using(text::proofs::WriterLaws::writing))]

ghost use Rattle.std.specs.Prelude.{◌≡◌, [], ◌∷◌, ◌++◌};
ghost use Rattle.sources.specs.Printed.{given};
ghost use Rattle.text.specs.Decimal.{decimal};
ghost use Rattle.text.specs.Writer.{after};

use text::writer::Writer;

// A byte that is left away where it is not shown.
pub fn put_given(out: &mut Writer<'_, u8>, shown: bool, b: u8)
    ensures { out.new ≡ after out.old (given shown (b ∷ [])) }
{
    if shown {
        out.put(b);
    }
}

// A word, and a number right behind it.
pub fn put_numbered(out: &mut Writer<'_, u8>, word: &[u8], n: usize)
    ensures { out.new ≡ after out.old (word.now ++ decimal n) }
{
    out.put_all(word);
    out.decimal(n);
}
