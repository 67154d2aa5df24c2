// Sets of the planners' notation (document 02, slip 13): n is the number of addresses.
#![tactic(auto, using(crate::proofs::SetLaws::counted, lexemes::proofs::Reading::reads, crate::proofs::SetLaws::listing), unfolding(crate::specs::Sets::member_from, crate::specs::Sets::no_members, crate::specs::Sets::listed, crate::specs::Sets::group))]

ghost use Rattle.std.specs.Prelude.{◌<◌, ◌≡◌, IfOk};
ghost use Rattle.lexemes.specs.Progress.{Reads};
ghost use Rattle.fields.specs.Sets.{group_of, no_members, member_from, members, listed, group};

use crate::values::read_address;
use lexemes::reader::TextReader;
use net::locality::Group;
use readers::fault::Fault;

// The set of the addresses that are marked.
fn group_of(marks: [bool; 16]) -> Group
    ensures { result ≡ group_of marks }
{
    let mut bits: u16 = 0;
    for i in 0..16usize {
        bits = bits * 2 + u16::from(marks[i]);
    }
    Group(bits)
}

// A member from `low` on.
fn read_member(r: &mut TextReader, n: usize, low: usize) -> Result<usize, Fault>
    ensures read { Reads r.old (member_from n low) result r.new }
    ensures range { IfOk result (λ l. l < 16) }
{
    let l = read_address(r, n)?.0 as usize;
    r.require(low <= l, 31)?;
    Ok(l)
}

// One member or more, at most sixteen, ascending, a comma between two.
fn read_members(r: &mut TextReader, n: usize) -> Result<[bool; 16], Fault>
    ensures { Reads r.old (members 16 n 0 no_members) result r.new }
{
    let mut marks = [false; 16];
    let mut low: usize = 0;
    for i in 0..16usize {
        let l = read_member(r, n, low)?;
        marks[l] = true;
        if !r.optional(b',')? {
            return Ok(marks);
        }
        low = l + 1;
    }
    Err(Fault::at(31, r.at, 0))
}

// What stands between the braces.
fn read_listed(r: &mut TextReader, n: usize) -> Result<[bool; 16], Fault>
    ensures { Reads r.old (listed n) result r.new }
{
    if r.peek() == b'}' {
        Ok([false; 16])
    } else {
        read_members(r, n)
    }
}

// A set.
pub fn read_group(r: &mut TextReader, n: usize) -> Result<Group, Fault>
    ensures { Reads r.old (group n) result r.new }
{
    r.byte(b'{')?;
    let marks = read_listed(r, n)?;
    r.byte(b'}')?;
    Ok(group_of(marks))
}
