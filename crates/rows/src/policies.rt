// The policies of a text: its first line decides the format (document 02, slip 13).
ghost use Rattle.lexemes.specs.Progress.{Stands};
ghost use Rattle.rows.specs.Policies.{policy};
ghost use Rattle.rows.specs.Progress.{Ruled};

use crate::origin_rows::{is_origin_row, read_origin_rows};
use crate::rows::read_rows;
use lexemes::reader::TextReader;
use net::network::Net;
use readers::fault::Fault;

// The policies of a text, of either format.
#[tactic(auto, using(crate::proofs::PolicyLaws::by_first_line))]
pub fn read_policy(r: &mut TextReader) -> Result<Net, Fault>
    ensures { Stands Ruled r.old policy result r.new }
{
    if is_origin_row(r) {
        read_origin_rows(r)
    } else {
        read_rows(r)
    }
}
