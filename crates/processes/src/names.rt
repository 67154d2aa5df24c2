// Names of processes, and what stands in a text before it is read.
ghost use Rattle.std.specs.Prelude.{◌+◌, ◌≤◌, ◌≡◌, IfOk, set, true};
ghost use Rattle.lexemes.specs.Lexemes.{byte_at};
ghost use Rattle.lexemes.specs.Progress.{Reads};
ghost use Rattle.processes.specs.Reading.{named, ends_chain};
ghost use Rattle.processes.specs.Room.{room};
ghost use Rattle.processes.specs.Progress.{Begins};

use lexemes::reader::TextReader;
use readers::fault::Fault;
use terms::table::put;

// A name's number.
#[tactic(auto, using(lexemes::proofs::Reading::reads), unfolding(crate::specs::Reading::named))]
pub fn read_name(r: &mut TextReader) -> Result<usize, Fault>
    ensures read { Reads r.old named result r.new }
    ensures range { IfOk result (λ k. k ≤ 511) }
{
    r.byte(b'A')?;
    r.number(511)
}

// The word of what starts here, where the next instruction has the number n: nothing is read yet.
pub(crate) fn start_here(r: &TextReader, n: usize) -> usize
    requires { n ≤ room }
    ensures { Begins r.now n result }
{
    if r.peek() == b'A' {
        let mut ahead = *r;
        read_name(&mut ahead).unwrap_or(0)
    } else {
        512 + n
    }
}

// Whether a chain of actions ends here.
#[tactic(auto, unfolding(crate::specs::Reading::ends_chain, net::specs::Choice::choose, net::specs::Choice::both, lexemes::specs::Lexemes::byte_at))]
pub(crate) fn chain_ends(r: &TextReader) -> bool
    ensures { result ≡ ends_chain (byte_at r.now.text.now r.now.at) (byte_at r.now.text.now (r.now.at + 1)) }
{
    if r.at >= r.text.len() {
        return false;
    }
    match r.text[r.at] {
        b'A' | b'(' => true,
        b'n' => r.at + 1 < r.text.len() && r.text[r.at + 1] == b'i',
        _ => false,
    }
}

// Marks name k.
pub fn mark(used: &mut [bool], k: usize)
    ensures { used.new ≡ set used.old k true }
{
    put(used, k, true);
}
