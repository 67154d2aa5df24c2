// What an image writes of the code (document 01, "The image", 5; document 02, slip 11).
#![tactic(auto, using(text::proofs::WriterLaws::writing), unfolding(written::specs::ImageOf::address_bits, written::specs::ImageOf::variable_bits, written::specs::ImageOf::target_bits, written::specs::ImageOf::pattern_bits, written::specs::ImageOf::template_bits, written::specs::ImageOf::action_bits, written::specs::ImageOf::instruction_bits, written::specs::ImageOf::code_bits))]

ghost use Rattle.std.specs.Prelude.{◌≡◌, ◌≤◌, ◌++◌};
ghost use Rattle.layout.specs.Counts.{Counts};
ghost use Rattle.text.specs.Writer.{after};
ghost use Rattle.written.specs.ImageOf.{bits_of, place_bits, target_bits, pattern_bits, template_bits, instruction_bits, code_bits};

use crate::bits::{put_number, put_pair};
use crate::fields::{put_place, put_reading, put_variable};
use net::instruction::{Action, Instruction, Pattern, Target};
use net::locality::Place;
use net::network::Net;
use text::writer::Writer;

// A target.
fn put_target(out: &mut Writer<'_, bool>, target: Target)
    ensures { out.new ≡ after out.old (target_bits target) }
{
    match target {
        Target::Written(l) => put_pair(out, 2, 0, 4, usize::from(l.0)),
        Target::Own => put_number(out, 2, 1),
        Target::Held(v) => put_pair(out, 2, 2, 3, usize::from(v)),
    }
}

// A template field.
fn put_pattern(out: &mut Writer<'_, bool>, pattern: Pattern)
    ensures { out.new ≡ after out.old (pattern_bits pattern) }
{
    match pattern {
        Pattern::Reading(x) => {
            put_number(out, 3, 0);
            put_reading(out, x);
        }
        Pattern::Address(l) => put_pair(out, 3, 1, 4, usize::from(l.0)),
        Pattern::Own => put_number(out, 3, 2),
        Pattern::Held(v) => put_pair(out, 3, 3, 3, usize::from(v)),
        Pattern::FormalReading(v) => put_pair(out, 3, 4, 3, usize::from(v)),
        Pattern::FormalAddress(v) => put_pair(out, 3, 5, 3, usize::from(v)),
    }
}

// A template: its field count less one, then each field.
fn put_template(out: &mut Writer<'_, bool>, c: &Instruction)
    requires { c.now.count ≤ 4 }
    ensures { out.new ≡ after out.old (template_bits c.now) }
{
    put_number(out, 2, c.count.saturating_sub(1));
    for field in &c.template[..c.count] {
        put_pattern(out, field.pattern);
    }
}

// Kept: the kinds of targets, fields and actions as numbers: each is written in one place, beside the variant that it
// stands for, so an enum of kinds would be a second table and no plainer.

// An out, an in or a read, by its kind: target, template and next place.
fn put_access(out: &mut Writer<'_, bool>, kind: usize, t: Target, c: &Instruction, p: Place)
    requires { c.now.count ≤ 4 }
    ensures { out.new ≡ after out.old (bits_of 3 kind ++ (target_bits t ++ (template_bits c.now ++ place_bits p))) }
{
    put_number(out, 3, kind);
    put_target(out, t);
    put_template(out, c);
    put_place(out, p);
}

// An instruction: the kind of its action, then what the action holds.
fn put_instruction(out: &mut Writer<'_, bool>, c: &Instruction)
    requires { c.now.count ≤ 4 }
    ensures { out.new ≡ after out.old (instruction_bits c.now) }
{
    match c.action {
        Action::Stop => put_number(out, 3, 0),
        Action::Out(t, p) => put_access(out, 1, t, c, p),
        Action::In(t, p) => put_access(out, 2, t, c, p),
        Action::Read(t, p) => put_access(out, 3, t, c, p),
        Action::Eval(t, sent, p) => {
            put_number(out, 3, 4);
            put_target(out, t);
            put_place(out, sent);
            put_place(out, p);
        }
        Action::New(v, p) => {
            put_number(out, 3, 5);
            put_variable(out, v);
            put_place(out, p);
        }
        Action::Fork(p, q) => {
            put_number(out, 3, 6);
            put_place(out, p);
            put_place(out, q);
        }
        Action::OutAll(g, p) => {
            put_number(out, 3, 7);
            put_number(out, 16, usize::from(g.0));
            put_template(out, c);
            put_place(out, p);
        }
    }
}

// The code.
pub(crate) fn put_code(out: &mut Writer<'_, bool>, net: &Net)
    requires { Counts net.now }
    ensures { out.new ≡ after out.old (code_bits net.now) }
{
    for c in &net.code[..net.length] {
        put_instruction(out, c);
    }
}
