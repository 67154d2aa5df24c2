// The sums over the runs of a season.
ghost use Rattle.std.specs.Prelude.{◌≤◌, ◌≡◌, length, ltb};
ghost use Rattle.net.specs.Choice.{choose};
ghost use Rattle.run.specs.Run.{run_of};
ghost use Rattle.season.specs.Season.{made_in};
ghost use Rattle.season.specs.Sums.{no_tally, empty_sums, with_counts, with_each, with_run};
ghost use Rattle.season.specs.Counting.{no_counts, counted, with_counted};

use crate::counts::{Counts, add_cut, count};
use crate::fraction::{Fraction, consider};
use net::network::Net;
use run::picks::first_picks;
use run::run::{Finish, run};

// Of one address: the picks performed, all picks that count, the tuples left, and the best run.
#[derive(Clone, Copy)]
pub struct Tally {
    pub performed: u32,
    pub picks: u32,
    pub left: u32,
    pub best: Option<(u16, Fraction)>,
}

// How many runs were made, and a tally for each address.
#[derive(Clone, Copy)]
pub struct Sums {
    pub runs: u16,
    pub tallies: [Tally; 16],
}

impl Tally {
    fn none() -> Tally
        ensures { result ≡ no_tally }
    {
        Tally {
            performed: 0,
            picks: 0,
            left: 0,
            best: None,
        }
    }

    // With one more run, of number i.
    fn with_counts(self, i: u16, performed: u32, picks: u32, left: usize) -> Tally
        ensures { result ≡ with_counts i performed picks left self }
    {
        let share = Fraction {
            numerator: performed,
            denominator: picks,
        };
        let best = consider(self.best, i, share);
        Tally {
            performed: add_cut(self.performed, performed as usize),
            picks: add_cut(self.picks, picks as usize),
            left: add_cut(self.left, left),
            best,
        }
    }
}

// The tuples left at an address: none where it is not in use.
fn left_in(a: usize, addresses: usize, stored: usize) -> usize
    ensures { result ≡ choose (ltb a addresses) stored 0 }
{
    if a < addresses { stored } else { 0 }
}

impl Sums {
    // The sums over no runs.
    pub fn empty() -> Sums
        ensures { result ≡ empty_sums }
    {
        let tally = Tally::none();
        Sums {
            runs: 0,
            tallies: [tally; 16],
        }
    }

    // With one more run, by its counts and the net that it left.
    fn with_counts(mut self, counts: Counts, net: Net) -> Sums
        requires { self.runs ≤ 1000 }
        ensures { result ≡ with_counted self counts net }
    {
        let i = self.runs + 1;
        for a in 0..16 {
            let left = left_in(a, net.addresses, net.nodes[a].stored);
            self.tallies[a] = self.tallies[a].with_counts(
                i,
                counts.performed[a],
                counts.picks[a],
                left,
            );
        }
        self.runs = i;
        self
    }

    // With one more run, that was made.
    fn with_made(self, picks: &[u8], answers: &[u8], net: Net) -> Sums
        requires { (self.runs ≤ 1000) × (length picks.now ≤ length answers.now) }
        ensures { result ≡ with_counted self (counted no_counts picks.now answers.now) net }
    {
        let counts = count(picks, answers);
        self.with_counts(counts, net)
    }

    // With one more run of at most 65,536 picks.
    fn with_run(self, image: &[u8], picks: &[u8]) -> Sums
        requires { (self.runs ≤ 1000) × (length picks.now ≤ 65536) }
        ensures { result ≡ with_each self (made_in picks.now (run_of image.now picks.now)) }
    {
        let mut answers = [0u8; 65536];
        let done = run(image, picks, &mut answers);
        let finish = done.finish;
        let net = done.net;
        match finish {
            Finish::Complete => self.with_made(picks, &answers, net),
            Finish::Refused(_) => self,
            Finish::RefusedText(_) => self,
            Finish::NoRoom => self,
        }
    }

    // With one more run, of the picks that count.
    fn with_first(self, image: &[u8], picks: &[u8]) -> Sums
        requires { self.runs ≤ 1000 }
        ensures { result ≡ with_run self (record { image = image.entry.now; picks = picks.now }) }
    {
        let n = first_picks(picks);
        self.with_run(image, &picks[..n])
    }

    // With one more run handed in, of which the first 65,536 picks count: as they were for a refused image, and where more
    // than 1,000 runs were made.
    pub fn add(self, image: &[u8], picks: &[u8]) -> Sums
        ensures { result ≡ with_run self (record { image = image.entry.now; picks = picks.now }) }
    {
        if self.runs > 1000 {
            self
        } else {
            self.with_first(image, picks)
        }
    }
}
