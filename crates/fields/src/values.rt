// Addresses, variables and readings of the planners' notation: n is the number of addresses.
#![tactic(auto, using(lexemes::proofs::Reading::reads), unfolding(crate::specs::Fields::address, net::specs::Records::address_of, crate::specs::Fields::variable, crate::specs::Fields::negative, crate::specs::Fields::positive, crate::specs::Fields::reading, crate::specs::Fields::at_address, crate::specs::Fields::own, text::specs::Bytes::bytes, crate::specs::Fields::held))]

ghost use Rattle.std.specs.Prelude.{◌-◌, ◌<◌, ◌≤◌, ◌≡◌, ℤ, IfOk};
ghost use Rattle.lexemes.specs.Progress.{Reads};
ghost use Rattle.fields.specs.Fields.{address, variable, negative, positive, reading, at_address, own, held};

use lexemes::reader::TextReader;
use net::locality::Locality;
use readers::fault::Fault;

// An address that has a row.
pub fn read_address(r: &mut TextReader, n: usize) -> Result<Locality, Fault>
    ensures read { Reads r.old (address n) result r.new }
    ensures range { IfOk result (λ l. l.0 < 16) }
{
    let l = r.number(15)?;
    r.require(l < n, 23)?;
    Ok(Locality(l as u8))
}

// The number of a variable.
pub fn read_variable(r: &mut TextReader) -> Result<u8, Fault>
    ensures { Reads r.old variable result r.new }
{
    let v = r.number(7)?;
    Ok(v as u8)
}

// The number -v.
fn minus(v: usize) -> i32
    requires { (1 ≤ v) × (v ≤ 2147483648) }
    ensures { result ≡ ℤ.negsuc (v - 1) }
{
    -1 - (v - 1) as i32
}

// A reading below nought.
fn read_negative(r: &mut TextReader) -> Result<i32, Fault>
    ensures { Reads r.old negative result r.new }
{
    r.byte(b'-')?;
    let v = r.number(2147483648)?;
    r.require(1 <= v, 31)?;
    Ok(minus(v))
}

// A reading from nought on.
fn read_positive(r: &mut TextReader) -> Result<i32, Fault>
    ensures { Reads r.old positive result r.new }
{
    let v = r.number(2147483647)?;
    Ok(v as i32)
}

// A reading of 32 bits.
pub fn read_reading(r: &mut TextReader) -> Result<i32, Fault>
    ensures { Reads r.old reading result r.new }
{
    if r.peek() == b'-' {
        read_negative(r)
    } else {
        read_positive(r)
    }
}

// An address after its @.
pub fn read_at_address(r: &mut TextReader, n: usize) -> Result<Locality, Fault>
    ensures { Reads r.old (at_address n) result r.new }
{
    r.byte(b'@')?;
    read_address(r, n)
}

// The word self.
pub fn read_own(r: &mut TextReader) -> Result<(), Fault>
    ensures { Reads r.old own result r.new }
{
    r.word(b"self")
}

// A variable after its v.
pub fn read_held(r: &mut TextReader) -> Result<u8, Fault>
    ensures { Reads r.old held result r.new }
{
    r.byte(b'v')?;
    read_variable(r)
}
