// The rows of a text of format 1 (document 01, "The planners' notation"), and what rows of both formats have in common.
ghost use Rattle.std.specs.Prelude.{◌+◌, ◌<◌, ◌≤◌, ◌≡◌, [], Ok, IfOk, length};
ghost use Rattle.net.specs.Choice.{all};
ghost use Rattle.net.specs.Records.{row_at, node_at, address_of, with_node, with_rows};
ghost use Rattle.lexemes.specs.Progress.{Reads, Stands};
ghost use Rattle.rows.specs.Rows.{digits_from, opens_with, is_row, any_right, rights, granted, grants, creates, opening, row_rest, row, rows_after, within};
ghost use Rattle.rows.specs.OriginRows.{numbered};
ghost use Rattle.rows.specs.Policies.{plain_rows};
ghost use Rattle.rows.specs.Progress.{Plain, Ruled};

use lexemes::numbers::is_digit;
use lexemes::reader::TextReader;
use net::network::Net;
use net::policy::{Rights, Row};
use readers::fault::Fault;

// ---- which lines are rows

// The place after the digits that are next.
#[tactic(auto, using(crate::proofs::RowLaws::digits))]
fn after_digits(r: &TextReader) -> usize
    ensures { result ≡ r.now.at + digits_from (length r.now.text.now) r.now.text.now r.now.at }
{
    let mut ahead = *r;
    // Kept: a scan, which counts nothing: `for` or a chain over the rest of the text is no plainer.
    while is_digit(ahead.peek()) {
        ahead.at += 1;
    }
    ahead.at
}

// Whether the line opens with digits and a word.
#[tactic(auto, using(crate::proofs::RowLaws::opened))]
pub(crate) fn opens_with(r: &TextReader, bytes: &[u8]) -> bool
    ensures { result ≡ opens_with bytes.now r.now.text.now r.now.at }
{
    if !is_digit(r.peek()) {
        return false;
    }
    let mut ahead = TextReader {
        text: r.text,
        at: after_digits(r),
    };
    ahead.word(bytes).is_ok()
}

// Whether a row is next.
#[tactic(auto, unfolding(crate::specs::Rows::is_row, text::specs::Bytes::bytes))]
fn is_row(r: &TextReader) -> bool
    ensures { result ≡ is_row r.now.text.now r.now.at }
{
    opens_with(r, b" has")
}

// ---- one row

// Whether any right is held.
#[tactic(auto, unfolding(crate::specs::Rows::any_right, net::specs::Choice::choose))]
fn any_right(r: Rights) -> bool
    ensures { result ≡ any_right r }
{
    r.take || r.read || r.put || r.send
}

// The rights over an address: at least one letter.
#[tactic(auto, using(lexemes::proofs::Reading::reads), unfolding(crate::specs::Rows::rights))]
fn read_rights(r: &mut TextReader) -> Result<Rights, Fault>
    ensures { Reads r.old rights result r.new }
{
    let rights = Rights {
        take: r.optional(b'i')?,
        read: r.optional(b'r')?,
        put: r.optional(b'o')?,
        send: r.optional(b'e')?,
    };
    r.require(any_right(rights), 31)?;
    Ok(rights)
}

// An address from `low` on, and a colon.
#[tactic(auto, using(lexemes::proofs::Reading::reads), unfolding(crate::specs::Rows::granted))]
fn read_granted(r: &mut TextReader, low: usize) -> Result<usize, Fault>
    ensures read { Reads r.old (granted low) result r.new }
    ensures range { IfOk result (λ l. l ≤ 15) }
{
    let l = r.number(15)?;
    r.require(low <= l, 31)?;
    r.byte(b':')?;
    Ok(l)
}

// The addresses that a row names: at most 16, ascending.
#[tactic(auto, using(lexemes::proofs::Reading::reads, crate::proofs::RowLaws::granting), unfolding(net::specs::Records::with_rights))]
fn read_grants(r: &mut TextReader, start: Row) -> Result<Row, Fault>
    ensures { Reads r.old (grants 16 0 start) result r.new }
{
    let mut row = start;
    let mut low: usize = 0;
    for i in 0..16usize {
        if !r.optional(b' ')? {
            return Ok(row);
        }
        let l = read_granted(r, low)?;
        let held = read_rights(r)?;
        row.rights[l] = held;
        low = l + 1;
    }
    Ok(row)
}

// ` n` where it is held.
#[tactic(auto, using(crate::proofs::RowLaws::created), unfolding(text::specs::Bytes::bytes))]
fn read_creates(r: &mut TextReader) -> bool
    ensures { Reads r.old creates (Ok result) r.new }
{
    let mut ahead = *r;
    match ahead.word(b" n") {
        Ok(_) => {
            *r = ahead;
            true
        }
        Err(_) => false,
    }
}

// What stands behind ` has`, and the line's end.
#[tactic(auto, using(lexemes::proofs::Reading::reads), unfolding(crate::specs::Rows::row_rest, net::specs::Records::zero_row))]
pub(crate) fn read_rest(r: &mut TextReader) -> Result<Row, Fault>
    ensures { Reads r.old row_rest result r.new }
{
    let create = read_creates(r);
    let row = read_grants(
        r,
        Row {
            create,
            ..Row::zero()
        },
    )?;
    r.byte(b'\n')?;
    Ok(row)
}

// The number i and no other.
#[tactic(auto, using(lexemes::proofs::Reading::reads), unfolding(crate::specs::OriginRows::numbered))]
pub(crate) fn read_numbered(r: &mut TextReader, i: usize) -> Result<(), Fault>
    ensures { Reads r.old (numbered i) result r.new }
{
    let l = r.number(15)?;
    r.require(l == i, 31)
}

// The number of the row of address i, and ` has`.
#[tactic(auto, using(lexemes::proofs::Reading::reads), unfolding(crate::specs::Rows::opening, text::specs::Bytes::bytes))]
fn read_opening(r: &mut TextReader, i: usize) -> Result<(), Fault>
    ensures { Reads r.old (opening i) result r.new }
{
    let l = r.number(15)?;
    r.require(l == i, 31)?;
    r.word(b" has")
}

// The row of address i.
#[tactic(auto, using(lexemes::proofs::Reading::reads), unfolding(crate::specs::Rows::row))]
fn read_row(r: &mut TextReader, i: usize) -> Result<Row, Fault>
    ensures { Reads r.old (row i) result r.new }
{
    read_opening(r, i)?;
    read_rest(r)
}

// ---- all rows

// Puts other rows at node i.
#[tactic(auto, unfolding(net::specs::Records::with_node, net::specs::Records::with_rows, net::specs::Records::node_at))]
pub(crate) fn put_rows(net: &mut Net, i: usize, rows: [Row; 16])
    requires { i < 16 }
    ensures { net.new ≡ with_node net.old (address_of i) (with_rows (node_at net.old (address_of i)) rows) }
{
    net.nodes[i].rows = rows;
}

// The rows, up to the first line that is none; a seventeenth is 22. A node's row is that for every origin.
#[tactic(auto, using(crate::proofs::AllRowsLaws::ruling), unfolding(net::specs::Records::with_counts, net::specs::Records::with_format))]
fn gather_rows(r: &mut TextReader) -> Result<Net, Fault>
    ensures { Stands Plain r.old (rows_after 16 []) result r.new }
{
    let mut net = Net::empty();
    net.format = 1;
    for n in 0..16usize {
        if !is_row(r) {
            net.addresses = n;
            return Ok(net);
        }
        let row = read_row(r, n)?;
        put_rows(&mut net, n, row.alike());
    }
    r.require(!is_row(r), 22)?;
    net.addresses = 16;
    Ok(net)
}

// No right over an address from n on.
#[tactic(auto, using(crate::proofs::RuledLaws::tested), unfolding(net::specs::Records::rights_at))]
pub(crate) fn is_within(row: &Row, n: usize) -> bool
    ensures { result ≡ within n row.now }
{
    for l in n..16usize {
        if any_right(row.rights[l]) {
            return false;
        }
    }
    true
}

// No node's row for itself has a right over an address without a row.
#[tactic(auto, using(crate::proofs::RuledLaws::tested), unfolding(net::specs::Records::row_at, net::specs::Records::node_at))]
fn are_within(net: &Net) -> bool
    requires { net.now.addresses ≤ 16 }
    ensures { result ≡ all net.now.addresses (λ i. within net.now.addresses (row_at (node_at net.now (address_of i)) (address_of i))) }
{
    for i in 0..net.addresses {
        if !is_within(&net.nodes[i].rows[i], net.addresses) {
            return false;
        }
    }
    true
}

// The rows of a text: one at least (31), and no right over an address without a row (23).
#[tactic(auto, using(crate::proofs::AllRowsLaws::judged))]
pub(crate) fn read_rows(r: &mut TextReader) -> Result<Net, Fault>
    ensures { Stands Ruled r.old plain_rows result r.new }
{
    let net = gather_rows(r)?;
    r.require(1 <= net.addresses, 31)?;
    r.require(are_within(&net), 23)?;
    Ok(net)
}
