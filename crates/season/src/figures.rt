// The figures over a season, written into a lent buffer.
#![tactic(auto, using(text::proofs::WriterLaws::writing))]

ghost use Rattle.std.specs.Prelude.{◌≡◌, ◌≤◌, [], ◌∷◌, length};
ghost use Rattle.net.specs.Records.{address_of};
ghost use Rattle.text.specs.Buffer.{over};
ghost use Rattle.text.specs.Bytes.{bytes};
ghost use Rattle.text.specs.Writer.{after, fitted};
ghost use Rattle.lines.specs.Words.{name, number, spaced, printed};
ghost use Rattle.season.specs.Fractions.{lowest};
ghost use Rattle.season.specs.Season.{figures, fraction_word, share_word, best_word};
ghost use Rattle.season.specs.Sums.{tally_words, tally_line, figures_from, season_from};
ghost use Rattle.season.specs.Calls.{figured_of, figured_number, season_number, figures_in};
ghost use Rattle.season.specs.Giving.{Gave};

use crate::fraction::Fraction;
use crate::sums::{Sums, Tally};
use text::writer::Writer;

// Why the figures were not written: for no runs at all, for more than 1,000, or for want of room.
#[derive(Clone, Copy, PartialEq, Eq, Debug)]
pub enum Unfigured {
    NoRuns,
    TooMany,
    NoRoom,
}

// The word for what there is not.
fn put_none(out: &mut Writer<'_, u8>)
    ensures { out.new ≡ after out.old (spaced (name (bytes "none") ∷ [])) }
{
    out.put_all(b" none");
}

fn put_number(out: &mut Writer<'_, u8>, n: usize)
    ensures { out.new ≡ after out.old (spaced (number n ∷ [])) }
{
    out.put(b' ');
    out.decimal(n);
}

// A fraction, with its slash.
fn put_fraction(out: &mut Writer<'_, u8>, x: Fraction)
    ensures { out.new ≡ after out.old (spaced (fraction_word x ∷ [])) }
{
    out.put(b' ');
    out.decimal(x.numerator as usize);
    out.put(b'/');
    out.decimal(x.denominator as usize);
}

// A share, where there are picks.
fn put_share(out: &mut Writer<'_, u8>, performed: u32, picks: u32)
    ensures { out.new ≡ after out.old (spaced (share_word picks (lowest performed picks) ∷ [])) }
{
    if picks == 0 {
        put_none(out);
    } else {
        put_fraction(out, Fraction::lowest(performed, picks));
    }
}

// The best run by its number.
fn put_best(out: &mut Writer<'_, u8>, best: Option<(u16, Fraction)>)
    ensures { out.new ≡ after out.old (spaced (best_word best ∷ [])) }
{
    match best {
        None => put_none(out),
        Some((i, _)) => put_number(out, i as usize),
    }
}

// Share, mean and best run of an address.
fn put_tally(out: &mut Writer<'_, u8>, made: u16, t: Tally)
    ensures { out.new ≡ after out.old (spaced (tally_words made t)) }
{
    put_share(out, t.performed, t.picks);
    put_fraction(out, Fraction::lowest(t.left, made as u32));
    put_best(out, t.best);
}

// The line of an address.
fn put_line(out: &mut Writer<'_, u8>, made: u16, a: usize, t: Tally)
    ensures { out.new ≡ after out.old (printed (tally_line made (address_of a) t ∷ [])) }
{
    out.put_all(b"share");
    put_number(out, a);
    put_tally(out, made, t);
    out.put(b'\n');
}

// A line for each address.
fn put_figures(out: &mut Writer<'_, u8>, sums: Sums)
    ensures { out.new ≡ after out.old (figures_from sums.runs sums.tallies) }
{
    for a in 0..16 {
        put_line(out, sums.runs, a, sums.tallies[a]);
    }
}

// The figures, from a buffer's start: how long they are, where all of them fit.
#[tactic(auto, using(text::proofs::WriterLaws::started_written), unfolding(text::specs::Writer::after))]
fn figures_in_full(sums: Sums, out: &mut [u8]) -> Option<usize>
    ensures value { result ≡ fitted (figures_from sums.runs sums.tallies) (length out.old) }
    ensures out_after { out.new ≡ over out.old 0 (figures_from sums.runs sums.tallies) }
{
    let mut writer = Writer::new(out);
    put_figures(&mut writer, sums);
    writer.written()
}

// The figures, copied where there is room for them.
fn copy_figures(text: &[u8], out: &mut [u8]) -> Result<usize, Unfigured>
    ensures { Gave (figures text.now) out.old out.new result }
{
    let n = text.len();
    if n > out.len() {
        return Err(Unfigured::NoRoom);
    }
    Writer::new(out).put_all(text);
    Ok(n)
}

// Room for all figures (proved: `LongestFigures`).
pub fn room() -> [u8; 2112]
    ensures { 2112 ≡ length result }
{
    [0; 2112]
}

// The figures of at most 1,000 runs, from a buffer of our own.
fn write_figures(sums: Sums, out: &mut [u8]) -> Result<usize, Unfigured>
    ensures { Gave (figures (figures_from sums.runs sums.tallies)) out.old out.new result }
{
    let mut text = room();
    let n = figures_in_full(sums, &mut text).unwrap();
    copy_figures(&text[..n], out)
}

// The figures, where there are any.
fn give_figures(sums: Sums, out: &mut [u8]) -> Result<usize, Unfigured>
    ensures { Gave (season_from sums) out.old out.new result }
{
    if sums.runs == 0 {
        Err(Unfigured::NoRuns)
    } else if sums.runs > 1000 {
        Err(Unfigured::TooMany)
    } else {
        write_figures(sums, out)
    }
}

impl Sums {
    // Writes the figures over the runs added into the buffer, and gives their length. Of sums begun empty and changed by
    // `add` alone they are those of the runs (proved: `SumsGiveSeason`).
    pub fn figures(self, out: &mut [u8]) -> Result<usize, Unfigured>
        ensures value { result ≡ figured_of (season_from self) (length out.old) }
        ensures result_value { figured_number result ≡ season_number (season_from self) (length out.old) }
        ensures out_after { out.new ≡ figures_in (season_from self) out.old }
    {
        give_figures(self, out)
    }
}
