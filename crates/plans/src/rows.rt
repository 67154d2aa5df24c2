// The rows after a new (document 01, "One pick"; document 02, slip 10). In what follows the process p, hosted at the node x of
// address a, opens the address l in a net of format f.
ghost use Rattle.std.specs.Prelude.{◌≡◌, set};
ghost use Rattle.net.specs.Records.{alike, row_for};
ghost use Rattle.plans.specs.Additions.{gaining, own_row, opened_rows, creator_rows};

use net::locality::Locality;
use net::node::Node;
use net::policy::{Rights, Row};
use net::process::Process;

// A row with every right on an address.
#[tactic(auto, unfolding(crate::specs::Additions::gaining))]
fn gained(row: Row, l: Locality) -> Row
    ensures { result ≡ gaining row l }
{
    row.with_rights(l, Rights::full())
}

// The node's row for itself.
#[tactic(auto, unfolding(crate::specs::Additions::own_row, net::specs::Records::row_at, net::specs::Choice::choose))]
fn own_row(x: Node, a: Locality) -> Row
    ensures { result ≡ own_row x a }
{
    let at = a.0 as usize;
    if at < 16 { x.rows[at] } else { Row::zero() }
}

// In format 1, the new node's and the creator's: the creator's row with every right on l.
fn gained_alike(x: Node, p: Process, l: Locality) -> [Row; 16]
    ensures { result ≡ alike (gaining (row_for x p) l) }
{
    gained(x.row_for(p), l).alike()
}

// In format 2, the new node's: it has every right on itself in its rows for itself and for the creator.
#[tactic(auto, unfolding(net::specs::Records::with_row, net::specs::Records::with_rows))]
fn opened_by_origin(x: Node, a: Locality, l: Locality) -> [Row; 16]
    ensures { result ≡ set (set x.rows a.0 (gaining (own_row x a) l)) l.0 (gaining (own_row x a) l) }
{
    let own = gained(own_row(x, a), l);
    x.with_row(a, own).with_row(l, own).rows
}

// In format 2, the creator's: its row for the origin of p has every right on l.
#[tactic(auto, unfolding(net::specs::Records::with_row, net::specs::Records::with_rows))]
fn creator_by_origin(x: Node, p: Process, l: Locality) -> [Row; 16]
    ensures { result ≡ set x.rows p.origin.0 (gaining (row_for x p) l) }
{
    let row = gained(x.row_for(p), l);
    x.with_row(p.origin, row).rows
}

// The new node's rows.
#[tactic(auto, unfolding(crate::specs::Additions::opened_rows, net::specs::Choice::choose))]
pub(crate) fn opened_rows(f: usize, x: Node, a: Locality, p: Process, l: Locality) -> [Row; 16]
    ensures { result ≡ opened_rows f x a p l }
{
    if f == 1 {
        gained_alike(x, p, l)
    } else {
        opened_by_origin(x, a, l)
    }
}

// The creator's rows.
#[tactic(auto, unfolding(crate::specs::Additions::creator_rows, net::specs::Choice::choose))]
pub fn creator_rows(f: usize, x: Node, p: Process, l: Locality) -> [Row; 16]
    ensures { result ≡ creator_rows f x p l }
{
    if f == 1 {
        gained_alike(x, p, l)
    } else {
        creator_by_origin(x, p, l)
    }
}
