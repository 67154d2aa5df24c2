// A process as 16 words: 0 to 7 its variables, 8 its place, 512 in a free slot, 9 its origin; 10 takes what is bound to no variable.
ghost use Rattle.std.specs.Prelude.{◌≡◌};
ghost use Rattle.lean_words.specs.Processes.{free_words, busy_words, process_words, busy_in, process_in, free_slot_in};

use crate::words::{UNSET, address_of, value_of, value_word};
use net::locality::Place;
use net::process::Process;
use net::tuple::Variable;

// A free slot.
pub fn free_words() -> [usize; 16]
    ensures { result ≡ free_words }
{
    let mut words = [UNSET; 16];
    words[8] = 512;
    words[9] = 0;
    words
}

// The words of a process that stands in its slot.
fn busy_words(p: Process) -> [usize; 16]
    ensures { result ≡ busy_words p }
{
    let mut words = [0usize; 16];
    for (v, variable) in p.variables.iter().enumerate() {
        words[v] = value_word(variable.value);
    }
    words[8] = usize::from(p.at.0);
    words[9] = usize::from(p.origin.0);
    words
}

#[tactic(auto, unfolding(crate::specs::Processes::process_words, net::specs::Choice::choose))]
pub fn process_words(p: Process) -> [usize; 16]
    ensures { result ≡ process_words p }
{
    if p.busy { busy_words(p) } else { free_words() }
}

// The process that has these words, where its slot is not free.
fn busy_process(words: [usize; 16]) -> Process
    ensures { result ≡ busy_in words }
{
    let at = words[8] % 512;
    let mut p = Process::starting(address_of(words[9]), Place(at as u16));
    for v in 0..8 {
        let value = value_of(words[v]);
        p.variables[v] = Variable { value };
    }
    p
}

#[tactic(auto, unfolding(crate::specs::Processes::process_in, net::specs::Choice::choose))]
pub fn process_of(words: [usize; 16]) -> Process
    ensures { result ≡ process_in words }
{
    if words[8] < 512 {
        busy_process(words)
    } else {
        Process::free()
    }
}

// The lowest free slot of a node; 4 where there is none.
pub fn free_slot(slots: &[[usize; 16]; 4]) -> usize
    ensures { result ≡ free_slot_in slots.now }
{
    for k in 0..4 {
        if 512 <= slots[k][8] {
            return k;
        }
    }
    4
}
