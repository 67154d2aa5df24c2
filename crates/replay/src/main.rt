// A test tool: makes picks by the proved step. It reads records from standard input: a net, as the crate
// `dump` lays it out, the number of picks, 2 bytes little-endian, and the picks. For each pick it writes the
// answer's number, 1 byte, and the digest of the counts and nodes after it, 8 bytes little-endian; after the
// last pick of a record the whole net. It ends where the input does.
#![tactic(auto)]

use dump::digest::put_digest;
use dump::put_net;
use files::{Failure, print, read_exact, take_turns};
use net::network::Net;
use plans::answer::{Answer, number_of};
use step::machine::Machine;
use taken::{Restore, Source};

mod code;
mod nodes;
mod taken;

// Writes a pick's answer and the digest of the net after it.
fn write_pick(rt: &HostRuntime, answer: Answer, net: &Net) -> Result<(), Failure> {
    let mut out = [0u8; 9];
    out[0] = number_of(answer);
    put_digest(&mut out[1..], net);
    print(rt, &out)
}

// Makes picks one after another, and writes each; gives the net after them.
fn make_picks(rt: &HostRuntime, mut net: Net, picks: &[u8]) -> Result<Net, Failure> {
    for b in picks {
        let picked = Machine { net }.pick(*b);
        net = picked.net;
        write_pick(rt, picked.answer, &net)?;
    }
    Ok(net)
}

// Kept, here and in `poll`: `dump` knows no streams. Its frame is no part of that of the picks before.
#[inline(never)]
fn write_net(rt: &HostRuntime, net: &Net) -> Result<(), Failure> {
    let mut out = [0u8; 27668];
    put_net(&mut out, net);
    print(rt, &out)
}

// Reads so many picks, makes them and writes the net after them.
fn run_next(rt: &HostRuntime, net: Net, count: u16) -> Result<(), Failure> {
    let mut buffer = [0u8; 65535];
    let picks = &mut buffer[..count as usize];
    read_exact(rt, picks)?;
    let after = make_picks(rt, net, picks)?;
    write_net(rt, &after)
}

// The net of a dump.
fn net_of(dumped: &[u8]) -> Net {
    let mut source = Source { left: dumped };
    let mut net = Net::empty();
    net.format = source.count();
    net.addresses = source.count();
    net.length = usize::from(source.two());
    net.nodes.restore(&mut source);
    net.code.restore(&mut source);
    net
}

// One record; fails at the end of the input.
fn take_turn(rt: &HostRuntime) -> Result<(), Failure> {
    let mut dumped = [0u8; 27668];
    let mut count = [0u8; 2];
    read_exact(rt, &mut dumped)?;
    read_exact(rt, &mut count)?;
    run_next(rt, net_of(&dumped), u16::from_le_bytes(count))
}

fn main(rt: HostRuntime) {
    take_turns(&rt, take_turn);
}
