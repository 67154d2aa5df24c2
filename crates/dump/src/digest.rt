// The digest of a net, 8 bytes: nets that differ in what a pick can change have, but for rare chance, different digests.
use crate::bytes::{Dump, Room, Sink};
use crate::dump_state;
use net::network::Net;

// The digest of the bytes so far.
#[derive(Drop)]
struct Digest(u64);

// The prime is 2^56 - 5.
impl Sink for Digest {
    fn put(&mut self, b: u8) {
        let low = self.0 % 72057594037927931;
        self.0 = low * 256 + u64::from(b);
    }
}

// Puts the digest of what a pick can change at the start of a buffer.
pub fn put_digest(out: &mut [u8], net: &Net) {
    let mut digest = Digest(0);
    dump_state(net, &mut digest);
    digest.0.to_le_bytes().dump(&mut Room { out, at: 0 });
}
