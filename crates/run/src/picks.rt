// How many picks of a list count (document 01, "The register": the first 65,536).
ghost use Rattle.std.specs.Prelude.{◌≤◌, ◌≡◌, length, take};

pub fn first_picks(picks: &[u8]) -> usize
    ensures { (result ≤ length picks.now) × ((result ≤ 65536) × (take result picks.now ≡ take 65536 picks.now)) }
{
    if picks.len() < 65536 {
        picks.len()
    } else {
        65536
    }
}
