// The tests for zero: each record past a count or in a free slot is zero or unset (document 01, "One pick").
ghost use Rattle.std.specs.Prelude.{◌≡◌};
ghost use Rattle.sound.specs.Soundness.{is_zero_item, is_zero_tuple, is_none, is_zero_row, same_row, is_free, is_zero_node};
ghost use Rattle.sound.specs.Soundness.{is_zero_pattern, no_template, is_zero_instruction};

use net::instruction::{Instruction, TemplateField};
use net::node::Node;
use net::policy::{Rights, Row};
use net::process::Process;
use net::tuple::{Field, Tuple};

#[tactic(auto, using(crate::proofs::ZeroTests::zero_field_is))]
pub(crate) fn is_zero_item(field: &Field) -> bool
    ensures { result ≡ is_zero_item field.now.item }
{
    *field == Field::zero()
}

pub(crate) fn is_zero_tuple(t: Tuple) -> bool
    ensures { result ≡ is_zero_tuple t }
{
    t == Tuple::zero()
}

#[tactic(auto, using(crate::proofs::ZeroTests::none_is))]
pub(crate) fn is_none(rights: &Rights) -> bool
    ensures { result ≡ is_none rights.now }
{
    *rights == Rights::none()
}

pub(crate) fn is_zero_row(row: Row) -> bool
    ensures { result ≡ is_zero_row row }
{
    row == Row::zero()
}

pub(crate) fn same_row(row: Row, other: Row) -> bool
    ensures { result ≡ same_row row other }
{
    row == other
}

pub(crate) fn is_free(p: Process) -> bool
    ensures { result ≡ is_free p }
{
    p == Process::free()
}

pub(crate) fn is_zero_node(node: &Node) -> bool
    ensures { result ≡ is_zero_node node.now }
{
    let barred = node.rows.iter().all(|row| is_zero_row(*row));
    let free = node.processes.iter().all(|p| is_free(*p));
    let bare = node.tuples.iter().all(|t| is_zero_tuple(*t));
    barred & (free & ((node.stored == 0) & bare))
}

#[tactic(auto, using(crate::proofs::ZeroTests::zero_pattern_is))]
pub(crate) fn is_zero_pattern(field: &TemplateField) -> bool
    ensures { result ≡ is_zero_pattern field.now.pattern }
{
    *field == TemplateField::zero()
}

pub(crate) fn no_template(c: Instruction) -> bool
    ensures { result ≡ no_template c }
{
    (c.count == 0) & (c.template == [TemplateField::zero(); 4])
}

pub(crate) fn is_zero_instruction(c: Instruction) -> bool
    ensures { result ≡ is_zero_instruction c }
{
    c == Instruction::zero()
}
