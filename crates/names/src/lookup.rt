// The name of an address, as a stretch of one of two lent lists: the site's or, failing that, the office's
// (document 02, slip 14).
ghost use Rattle.std.specs.Prelude.{◌≡◌};
ghost use Rattle.names.specs.Names.{names_fault, found_in};
ghost use Rattle.names.specs.Faults.{number_of};
ghost use Rattle.names.specs.Lookup.{PartOf, TextFound, Picked, NamedAfter, Named};

use crate::entries::{NamesFault, find, test_list, text_at};
use net::locality::Locality;

// The test of both lists: the first fault, the site's before the office's.
pub fn test(site: &[u8], office: &[u8]) -> Result<(), NamesFault>
    ensures { number_of result ≡ names_fault site.now office.now }
{
    test_list(site)?;
    test_list(office)
}

// The number that the test of both lists gives: 0, 51, 52 or 53.
#[tactic(auto, unfolding(crate::specs::Faults::number_of))]
pub fn fault(site: &[u8], office: &[u8]) -> u8
    ensures { result ≡ names_fault site.now office.now }
{
    match test(site, office) {
        Ok(()) => 0,
        Err(fault) => fault.number(),
    }
}

// No bytes of a list.
fn none_of(list: &[u8]) -> &[u8]
    ensures { PartOf list.entry 0 0 result }
{
    &list[..0]
}

// The name that one list has for an address.
fn name_in(list: &[u8], address: Locality) -> &[u8]
    ensures { TextFound list.entry (found_in list.now address) result }
{
    match find(list, address) {
        Some(at) => text_at(list, at),
        None => none_of(list),
    }
}

// The name, of lists that are not tested here.
fn listed_name<'a>(site: &'a [u8], office: &'a [u8], address: Locality) -> &'a [u8]
    ensures { Picked site.entry office.entry (found_in site.now address) (found_in office.now address) result }
{
    match find(site, address) {
        Some(at) => text_at(site, at),
        None => name_in(office, address),
    }
}

// The name, where the test of both lists has answered this: for callers that ask for many names.
pub fn name_tested<'a>(
    site: &'a [u8],
    office: &'a [u8],
    tested: Result<(), NamesFault>,
    address: Locality,
) -> &'a [u8]
    ensures { NamedAfter (number_of tested) site.entry office.entry address result }
{
    match tested {
        Ok(()) => listed_name(site, office, address),
        Err(_) => none_of(office),
    }
}

// The name, where the test of both lists has given this number.
// Kept: what may not change (`NamedAfter` of any number, which docs/CLAIMS.md names).
pub fn name_after<'a>(site: &'a [u8], office: &'a [u8], number: u8, address: Locality) -> &'a [u8]
    ensures { NamedAfter number site.entry office.entry address result }
{
    if number == 0 {
        listed_name(site, office, address)
    } else {
        none_of(office)
    }
}

// The name.
pub fn name<'a>(site: &'a [u8], office: &'a [u8], address: Locality) -> &'a [u8]
    ensures { Named site.entry office.entry address result }
{
    name_tested(site, office, test(site, office), address)
}
