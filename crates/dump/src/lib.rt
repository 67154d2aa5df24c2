// A whole net as bytes, for tests: what is written is tested and not proved. The layout, in order; numbers
// are little-endian, and every record is written, in use or not:
//
//   format       1
//   addresses    1
//   code length  2
//   16 nodes, 801 bytes each:
//     16 rows, for origins 0 to 15, 17 bytes each:
//       create     1
//       16 rights  1 each: 8 take, 4 read, 2 put, 1 send
//     4 processes, 44 bytes each:
//       busy     1
//       place    2
//       origin   1
//       8 variables, 5 bytes each: kind 1 (0 unset, 1 reading, 2 address), value 4
//     stored     1
//     16 tuples, 22 bytes each:
//       count    1
//       4 fields, 5 bytes each: kind 1 (1 reading, 2 address), value 4
//       mark     1
//   512 instructions, 29 bytes each:
//     action     1  0 to 6 as in document 01, 7 as in document 02, slip 11
//     target     2  kind (0 written, 1 self, 2 variable; 0 where there is none), value; action 7: its set, the
//                   number of its 16 bits
//     places     4  2 each: the next place and 0; eval: sent, next; fork: first, second; stop: 0, 0
//     variable   1  that of a new, else 0
//     count      1
//     4 template fields, 5 bytes each: kind 1 (0 to 5 as in document 01), value 4
//
// A value is a reading in two's complement, an address or a variable. In all 27,668 bytes, of which the
// first 12,820 are the format, the counts and the nodes.
#![tactic(auto)]

use crate::bytes::{Dump, Room, Sink, low_byte};
use net::network::Net;

pub mod bytes;
mod code;
pub mod digest;
mod nodes;

// The format, the counts and the nodes: all that is not code.
pub fn dump_state<S: Sink>(net: &Net, sink: &mut S) {
    let length = (net.length % 65536) as u16;
    low_byte(net.format).dump(sink);
    low_byte(net.addresses).dump(sink);
    length.dump(sink);
    net.nodes.dump(sink);
}

// Puts the whole net at the start of a buffer.
pub fn put_net(out: &mut [u8], net: &Net) {
    let mut room = Room { out, at: 0 };
    dump_state(net, &mut room);
    net.code.dump(&mut room);
}
