// A row as 65 flags: i over each address, then r, o and e, then n.
ghost use Rattle.std.specs.Prelude.{◌%◌, ◌≡◌};
ghost use Rattle.lean_words.specs.Rights.{row_flags, row_in, rights_in, own_in, gained_flags, grants_flags, covered, admits_words};

use net::policy::{Rights, Row};

pub fn row_flags(row: Row) -> [bool; 65]
    ensures { result ≡ row_flags row }
{
    let mut flags = [false; 65];
    for (l, held) in row.rights.iter().enumerate() {
        flags[l] = held.take;
        flags[l + 16] = held.read;
        flags[l + 32] = held.put;
        flags[l + 48] = held.send;
    }
    flags[64] = row.create;
    flags
}

pub fn row_of(flags: [bool; 65]) -> Row
    ensures { result ≡ row_in flags }
{
    let mut row = Row::zero();
    for l in 0..16 {
        row.rights[l] = Rights {
            take: flags[l],
            read: flags[l + 16],
            put: flags[l + 32],
            send: flags[l + 48],
        };
    }
    row.create = flags[64];
    row
}

// Every right on an address gained.
pub fn gain(row: &mut [bool; 65], l: usize)
    ensures { row.new ≡ gained_flags row.old l }
{
    let at = l % 16;
    row[at] = true;
    row[at + 16] = true;
    row[at + 32] = true;
    row[at + 48] = true;
}

// Kept: the number of a right, here, in `add_right` of `lean_code` and in `aim` of `lean`: what may not change (an enum
// would take fewer numbers than this parameter does).
// Whether a row grants a right at an address: 0 is i, 1 is r, which i includes, 2 is o, 3 is e.
pub fn grants(row: &[bool; 65], l: usize, right: usize) -> bool
    ensures { result ≡ grants_flags row.now l right }
{
    let at = l % 16;
    let held = row[16 * (right % 4) + at];
    let taking = row[at];
    held | ((right == 1) & taking)
}

// Whether a row grants the rights over an address that are needed there.
fn covers(need: &[bool; 69], row: &[bool; 65], l: usize) -> bool
    ensures { result ≡ covered (rights_in need.now (l % 16)) (rights_in row.now (l % 16)) }
{
    let at = l % 16;
    let taking = row[at];
    let take = !need[at] | taking;
    let read = !need[at + 16] | (taking | row[at + 16]);
    let put = !need[at + 32] | row[at + 32];
    let send = !need[at + 48] | row[at + 48];
    (take & read) & (put & send)
}

// Whether a row grants the rights over its own address l that are needed over self.
fn covers_own(need: &[bool; 69], row: &[bool; 65], l: usize) -> bool
    ensures { result ≡ covered (own_in need.now) (rights_in row.now (l % 16)) }
{
    let at = l % 16;
    let taking = row[at];
    let take = !need[65] | taking;
    let read = !need[66] | (taking | row[at + 16]);
    let put = !need[67] | row[at + 32];
    let send = !need[68] | row[at + 48];
    (take & read) & (put & send)
}

// Whether a row of the address l grants all that is needed.
pub fn admits(need: &[bool; 69], row: &[bool; 65], l: usize) -> bool
    ensures { result ≡ admits_words need.now row.now l }
{
    let mut ok = true;
    // All 16 are looked at, so that the loop has no branch.
    for m in 0..16 {
        let good = covers(need, row, m);
        ok = ok & good;
    }
    let own = covers_own(need, row, l);
    ok & (own & (!need[64] | row[64]))
}
