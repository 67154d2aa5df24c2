// The rows of a sound node (document 01, "One pick"; document 02, slip 10).
ghost use Rattle.std.specs.Prelude.{◌≡◌};
ghost use Rattle.net.specs.Choice.{all};
ghost use Rattle.net.specs.Records.{row_at, address_of};
ghost use Rattle.sound.specs.Soundness.{row_sound, rows_alike, unused_barred, rows_sound};

use crate::zeros::{is_none, is_zero_row, same_row};
use net::node::Node;
use net::policy::Row;

// No right over an address that is not in use.
fn row_sound(n: usize, row: &Row) -> bool
    ensures { result ≡ row_sound n row.now }
{
    row.rights
        .iter()
        .enumerate()
        .all(|(l, rights)| l < n || is_none(rights))
}

// Format 1: one row for every origin.
fn rows_alike(node: &Node) -> bool
    ensures { result ≡ rows_alike node.now }
{
    let first = node.rows[0];
    node.rows.iter().all(|row| same_row(*row, first))
}

// Format 2: no right in the row for an unused origin.
fn unused_barred(n: usize, node: &Node) -> bool
    ensures { result ≡ unused_barred n node.now }
{
    node.rows
        .iter()
        .enumerate()
        .all(|(o, row)| o < n || is_zero_row(*row))
}

// Each row by itself.
fn each_sound(n: usize, node: &Node) -> bool
    ensures { result ≡ all 16 (λ o. row_sound n (row_at node.now (address_of o))) }
{
    node.rows.iter().all(|row| row_sound(n, row))
}

// The rows of a node in a net of format f with n addresses: each by itself, and beside one another.
#[tactic(auto, unfolding(crate::specs::Soundness::rows_sound, net::specs::Choice::both, net::specs::Choice::choose))]
pub(crate) fn rows_sound(f: usize, n: usize, node: &Node) -> bool
    ensures { result ≡ rows_sound f n node.now }
{
    let beside = if f == 1 {
        rows_alike(node)
    } else {
        unused_barred(n, node)
    };
    each_sound(n, node) && beside
}
