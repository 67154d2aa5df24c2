// The picks of one run, counted by address.
ghost use Rattle.std.specs.Prelude.{◌≤◌, ◌<◌, ◌≡◌, length};
ghost use Rattle.step.specs.Pick.{host_of};
ghost use Rattle.season.specs.Sums.{plus};
ghost use Rattle.season.specs.Counting.{no_counts, CountedOne, counted, one_more};

use step::turn::host_of;

// For each address: the picks answered 0 or 1, and all that count.
#[derive(Clone, Copy)]
pub struct Counts {
    pub performed: [u32; 16],
    pub picks: [u32; 16],
}

// A sum, cut to 32 bits.
pub(crate) fn add_cut(n: u32, more: usize) -> u32
    ensures { result ≡ plus n more }
{
    let rest = more % 4294967296;
    let sum = n as usize + rest;
    let cut = sum % 4294967296;
    cut as u32
}

// The address that a pick names, as a place.
fn place_of(b: u8) -> usize
    ensures { (result ≡ (host_of b).0) × (result < 16) }
{
    let host = host_of(b);
    host.0 as usize
}

// One more where a pick counts.
fn count_if(counts: bool, n: u32) -> u32
    ensures { result ≡ one_more counts n }
{
    if counts { add_cut(n, 1) } else { n }
}

// The pick of a byte, with its answer, counted in both.
fn count_pick(performed: &mut [u32; 16], named: &mut [u32; 16], b: u8, answer: u8)
    ensures { CountedOne performed.old named.old b answer performed.new named.new }
{
    let a = place_of(b);
    performed[a] = count_if(answer < 2, performed[a]);
    named[a] = count_if(answer != 9, named[a]);
}

// The picks of a run counted, each with its answer at its place in the buffer.
pub(crate) fn count(picks: &[u8], answers: &[u8]) -> Counts
    requires { length picks.now ≤ length answers.now }
    ensures { result ≡ counted no_counts picks.now answers.now }
{
    let mut performed = [0u32; 16];
    let mut named = [0u32; 16];
    for i in 0..picks.len() {
        count_pick(&mut performed, &mut named, picks[i], answers[i]);
    }
    Counts {
        performed,
        picks: named,
    }
}
