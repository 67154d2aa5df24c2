// The rows of a text of format 2, by node and origin (document 02, slip 13).
ghost use Rattle.std.specs.Prelude.{◌-◌, ◌≤◌, ◌≡◌, List, [], ◌∷◌, IfOk};
ghost use Rattle.net.specs.Choice.{all};
ghost use Rattle.net.specs.Records.{row_at, node_at, address_of};
ghost use Rattle.lexemes.specs.Progress.{Reads, Stands};
ghost use Rattle.rows.specs.Rows.{within};
ghost use Rattle.rows.specs.OriginRows.{is_origin_row, names_node, origin_row, fault_where, first_rows, seventeenth, node_rows, nodes_after, number_over};
ghost use Rattle.rows.specs.Policies.{rows_by_origin};
ghost use Rattle.rows.specs.Progress.{number_is, First, Filled, Origins, Ruled};

use crate::rows::{is_within, opens_with, put_rows, read_numbered, read_rest};
use lexemes::reader::TextReader;
use net::network::Net;
use net::node::Node;
use net::policy::Row;
use readers::fault::Fault;

// Node 0's rows, and how many there are.
// Kept: an array and its count, for want of a heap (a rule of the project: fixed memory).
#[derive(Clone, Copy)]
pub(crate) struct FirstRows {
    pub(crate) count: usize,
    pub(crate) rows: [Row; 16],
}

// ---- which lines are rows by origin

// Whether such a row is next.
#[tactic(auto, unfolding(crate::specs::OriginRows::is_origin_row, text::specs::Bytes::bytes))]
pub(crate) fn is_origin_row(r: &TextReader) -> bool
    ensures { result ≡ is_origin_row r.now.text.now r.now.at }
{
    opens_with(r, b" from")
}

// Whether the number i, rightly written, is next.
#[tactic(auto, using(crate::proofs::OriginLaws::numbered))]
fn is_number(r: &TextReader, i: usize) -> bool
    ensures { result ≡ number_is i r.now.text.now r.now.at }
{
    let mut ahead = *r;
    match ahead.number(15) {
        Ok(v) => v == i,
        Err(_) => false,
    }
}

// Whether a row by origin that names node i is next.
#[tactic(auto, unfolding(crate::specs::OriginRows::names_node, crate::specs::Progress::number_is, net::specs::Choice::both))]
fn names_node(r: &TextReader, i: usize) -> bool
    ensures { result ≡ names_node i r.now.text.now r.now.at }
{
    is_origin_row(r) && is_number(r, i)
}

// ---- one row

// The row of node i for origin j.
#[tactic(auto, using(lexemes::proofs::Reading::reads), unfolding(crate::specs::OriginRows::origin_row, text::specs::Bytes::bytes))]
fn read_origin_row(r: &mut TextReader, i: usize, j: usize) -> Result<Row, Fault>
    ensures { Reads r.old (origin_row i j) result r.new }
{
    read_numbered(r, i)?;
    r.word(b" from ")?;
    read_numbered(r, j)?;
    r.word(b" has")?;
    read_rest(r)
}

// ---- the rows of one node

// Node 0's rows, up to the first that names another node; a seventeenth is 22.
#[tactic(auto, using(crate::proofs::OriginLaws::firsts))]
fn read_first_rows(r: &mut TextReader) -> Result<FirstRows, Fault>
    ensures rowed { Stands First r.old first_rows result r.new }
    ensures le_count { IfOk result (λ f. (1 ≤ f.count) × (f.count ≤ 16)) }
{
    let mut rows = Row::zero().alike();
    rows[0] = read_origin_row(r, 0, 0)?;
    for n in 1..16usize {
        if !names_node(r, 0) {
            return Ok(FirstRows { count: n, rows });
        }
        rows[n] = read_origin_row(r, 0, n)?;
    }
    r.require(!names_node(r, 0), 22)?;
    Ok(FirstRows { count: 16, rows })
}

// Whether a seventeenth row of node i is next, where it has n rows.
#[tactic(auto, unfolding(crate::specs::OriginRows::seventeenth, net::specs::Choice::both))]
fn is_seventeenth(r: &TextReader, n: usize, i: usize) -> bool
    ensures { result ≡ seventeenth n i r.now.text.now r.now.at }
{
    n == 16 && names_node(r, i)
}

// The n rows of node i; a seventeenth is 22.
#[tactic(auto, using(crate::proofs::OriginLaws::node))]
fn read_node_rows(r: &mut TextReader, n: usize, i: usize) -> Result<[Row; 16], Fault>
    requires { n ≤ 16 }
    ensures { Stands (Filled n) r.old (node_rows n i) result r.new }
{
    let mut rows = Row::zero().alike();
    for j in 0..n {
        rows[j] = read_origin_row(r, i, j)?;
    }
    r.require(!is_seventeenth(r, n, i), 22)?;
    Ok(rows)
}

// ---- all rows

// The net with node 0's rows, n of them, and then n rows for each node from 1 on.
#[tactic(auto, unfolding(net::specs::Records::with_counts, net::specs::Records::with_format))]
fn gather_nodes(r: &mut TextReader, first: &FirstRows) -> Result<Net, Fault>
    requires { (1 ≤ first.now.count) × (first.now.count ≤ 16) }
    ensures { (rs : List Row) → First rs first.now → Stands (Origins first.now.count) r.old (nodes_after (first.now.count - 1) first.now.count (rs ∷ [])) result r.new }
{
    let mut net = Net::empty();
    net.format = 2;
    put_rows(&mut net, 0, first.rows);
    for i in 1..first.count {
        let rows = read_node_rows(r, first.count, i)?;
        put_rows(&mut net, i, rows);
    }
    net.addresses = first.count;
    Ok(net)
}

// The number for a row after the last: a seventeenth node is 22.
#[tactic(auto, unfolding(crate::specs::OriginRows::number_over, net::specs::Choice::choose))]
fn number_over(n: usize) -> u8
    ensures { result ≡ number_over n }
{
    if n == 16 { 22 } else { 31 }
}

// No row of a node has a right over an address from n on.
#[tactic(auto, using(crate::proofs::RuledLaws::tested), unfolding(net::specs::Records::row_at))]
fn rows_within(node: &Node, n: usize) -> bool
    requires { n ≤ 16 }
    ensures { result ≡ all n (λ j. within n (row_at node.now (address_of j))) }
{
    for j in 0..n {
        if !is_within(&node.rows[j], n) {
            return false;
        }
    }
    true
}

// No row of any node has a right over an address without rows.
#[tactic(auto, using(crate::proofs::RuledLaws::tested), unfolding(net::specs::Records::node_at))]
fn nodes_within(net: &Net) -> bool
    requires { net.now.addresses ≤ 16 }
    ensures { result ≡ all net.now.addresses (λ i. all net.now.addresses (λ j. within net.now.addresses (row_at (node_at net.now (address_of i)) (address_of j)))) }
{
    for i in 0..net.addresses {
        if !rows_within(&net.nodes[i], net.addresses) {
            return false;
        }
    }
    true
}

// A row for each origin at each node, none over (31, 22), and no right over an address without rows (23).
pub(crate) fn read_origin_rows(r: &mut TextReader) -> Result<Net, Fault>
    ensures { Stands Ruled r.old rows_by_origin result r.new }
{
    let first = read_first_rows(r)?;
    let net = gather_nodes(r, &first)?;
    r.require(!is_origin_row(r), number_over(first.count))?;
    r.require(nodes_within(&net), 23)?;
    Ok(net)
}
