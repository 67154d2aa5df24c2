// The definitions of a text: one for each instruction, named by its place (document 02, slip 13).
#![tactic(auto, using(text::proofs::WriterLaws::writing), unfolding(read_back::specs::NetSource::named, read_back::specs::NetSource::process_of, read_back::specs::NetSource::template_in, read_back::specs::NetSource::body_of, sources::specs::Printed::address_text, sources::specs::Printed::pattern_text, sources::specs::Printed::template_text, sources::specs::Printed::target_text, sources::specs::Printed::group_text, sources::specs::Printed::process_text, sources::specs::Printed::action_text, sources::specs::Printed::line_text, sources::specs::Printed::lines_text, sources::specs::Printed::newline, text::specs::Bytes::bytes, net::specs::Records::with_action))]

ghost use Rattle.std.specs.Prelude.{◌≤◌, ◌≡◌, [], ◌∷◌, ◌++◌, map};
ghost use Rattle.net.specs.Groups.{members_of};
ghost use Rattle.layout.specs.Counts.{Counts};
ghost use Rattle.read_back.specs.NetSource.{named, process_of, definition_at, definitions_of};
ghost use Rattle.sources.specs.Printed.{given, separated, address_text, pattern_text, template_text, target_text, group_text};
ghost use Rattle.sources.specs.Printed.{process_text, lines_text};
ghost use Rattle.terms.specs.Terms.{fork, act, eval, newloc, out_all};
ghost use Rattle.text.specs.Bytes.{bytes};
ghost use Rattle.text.specs.Decimal.{decimal};
ghost use Rattle.text.specs.Writer.{after};

use crate::parts::{put_given, put_numbered};
use net::instruction::{Action, Instruction, Pattern, Target};
use net::locality::{Group, Locality, Place};
use net::network::Net;
use text::writer::Writer;

// A field of a template, behind a comma where others stand before it.
fn put_pattern(out: &mut Writer<'_, u8>, some: bool, pattern: Pattern)
    ensures { out.new ≡ after out.old (given some (bytes ",") ++ pattern_text pattern) }
{
    put_given(out, some, b',');
    match pattern {
        Pattern::Reading(x) => out.signed_decimal(x),
        Pattern::Address(l) => put_numbered(out, b"@", usize::from(l.0)),
        Pattern::Own => out.put_all(b"self"),
        Pattern::Held(v) => put_numbered(out, b"v", usize::from(v)),
        Pattern::FormalReading(v) => put_numbered(out, b"!x", usize::from(v)),
        Pattern::FormalAddress(v) => put_numbered(out, b"!u", usize::from(v)),
    }
}

// The fields of a template, with commas between them.
fn put_template(out: &mut Writer<'_, u8>, c: &Instruction)
    requires { c.now.count ≤ 4 }
    ensures { out.new ≡ after out.old (template_text c.now) }
{
    for (i, field) in c.template[..c.count].iter().enumerate() {
        put_pattern(out, 0 < i, field.pattern);
    }
}

// The target of an action, behind its bracket.
fn put_target(out: &mut Writer<'_, u8>, target: Target)
    ensures { out.new ≡ after out.old (bytes ")@" ++ target_text target) }
{
    match target {
        Target::Written(l) => put_numbered(out, b")@", usize::from(l.0)),
        Target::Own => out.put_all(b")@self"),
        Target::Held(v) => put_numbered(out, b")@v", usize::from(v)),
    }
}

// An address, where it is a member of a set; behind a comma, where some stand before it.
fn put_member(out: &mut Writer<'_, u8>, has: bool, some: bool, l: usize)
    ensures { out.new ≡ after out.old (given has (given some (bytes ",") ++ decimal l)) }
{
    if has {
        put_given(out, some, b',');
        out.decimal(l);
    }
}

// The members of a set, ascending, with commas between them.
fn put_members(out: &mut Writer<'_, u8>, g: Group)
    ensures { out.new ≡ after out.old (separated (map address_text (members_of g))) }
{
    let mut some = false;
    for l in 0..16u8 {
        let has = g.has(Locality(l));
        put_member(out, has, some, usize::from(l));
        some |= has;
    }
}

// A set as the target of an action.
fn put_group(out: &mut Writer<'_, u8>, g: Group)
    ensures { out.new ≡ after out.old (bytes ")@" ++ group_text g) }
{
    out.put_all(b")@{");
    put_members(out, g);
    out.put(b'}');
}

// The instruction at a place, by its name behind a word.
pub fn put_named(out: &mut Writer<'_, u8>, word: &[u8], p: Place)
    ensures { out.new ≡ after out.old (word.now ++ process_text (named p)) }
{
    out.put_all(word);
    out.put(b'A');
    out.decimal(usize::from(p.0));
}

// An out, an in or a read, by its word.
fn put_access(out: &mut Writer<'_, u8>, word: &[u8], c: &Instruction, t: Target, p: Place)
    requires { c.now.count ≤ 4 }
    ensures { out.new ≡ after out.old ((word.now ++ (template_text c.now ++ (bytes ")@" ++ target_text t))) ++ (bytes "." ++ process_text (named p))) }
{
    out.put_all(word);
    put_template(out, c);
    put_target(out, t);
    put_named(out, b".", p);
}

// An out to a set.
fn put_spread(out: &mut Writer<'_, u8>, c: &Instruction, g: Group, p: Place)
    requires { c.now.count ≤ 4 }
    ensures { out.new ≡ after out.old (process_text (act (out_all c.now g) (named p))) }
{
    out.put_all(b"out(");
    put_template(out, c);
    put_group(out, g);
    put_named(out, b".", p);
}

fn put_eval(out: &mut Writer<'_, u8>, sent: Place, t: Target, p: Place)
    ensures { out.new ≡ after out.old (process_text (act (eval (named sent) t) (named p))) }
{
    put_named(out, b"eval(", sent);
    put_target(out, t);
    put_named(out, b".", p);
}

fn put_newloc(out: &mut Writer<'_, u8>, v: u8, p: Place)
    ensures { out.new ≡ after out.old (process_text (act (newloc v) (named p))) }
{
    out.put_all(b"newloc(u");
    out.decimal(usize::from(v));
    out.put(b')');
    put_named(out, b".", p);
}

fn put_fork(out: &mut Writer<'_, u8>, p: Place, q: Place)
    ensures { out.new ≡ after out.old (process_text (fork (named p) (named q))) }
{
    put_named(out, b"(", p);
    put_named(out, b" | ", q);
    out.put(b')');
}

// What an action does, with the template of its instruction.
fn put_action(out: &mut Writer<'_, u8>, c: &Instruction, action: Action)
    requires { c.now.count ≤ 4 }
    ensures { out.new ≡ after out.old (process_text (process_of c.now action)) }
{
    match action {
        Action::Stop => out.put_all(b"nil"),
        Action::Out(t, p) => put_access(out, b"out(", c, t, p),
        Action::In(t, p) => put_access(out, b"in(", c, t, p),
        Action::Read(t, p) => put_access(out, b"read(", c, t, p),
        Action::Eval(t, sent, p) => put_eval(out, sent, t, p),
        Action::New(v, p) => put_newloc(out, v, p),
        Action::Fork(p, q) => put_fork(out, p, q),
        Action::OutAll(g, p) => put_spread(out, c, g, p),
    }
}

// The definition of the instruction at place i.
fn put_definition(out: &mut Writer<'_, u8>, i: usize, c: &Instruction)
    requires { c.now.count ≤ 4 }
    ensures { out.new ≡ after out.old (lines_text (definition_at i c.now ∷ [])) }
{
    out.put(b'A');
    out.decimal(i);
    out.put_all(b" = ");
    put_action(out, c, c.action);
    out.put(b'\n');
}

// A definition for each instruction.
pub(crate) fn put_definitions(out: &mut Writer<'_, u8>, net: &Net)
    requires { Counts net.now }
    ensures { out.new ≡ after out.old (lines_text (definitions_of net.now)) }
{
    for (i, c) in net.code[..net.length].iter().enumerate() {
        put_definition(out, i, c);
    }
}
