// The test of soundness (document 01, "One pick", answer 10).
ghost use Rattle.std.specs.Prelude.{not, ◌≡◌, leb, ltb, eqb};
ghost use Rattle.net.specs.Choice.{in_range, all};
ghost use Rattle.net.specs.Records.{process_at};
ghost use Rattle.sound.specs.Soundness.{item_sound, fields_sound, tuple_sound, tuples_sound};
ghost use Rattle.sound.specs.Soundness.{value_sound, all_unset, process_sound, node_sound};
ghost use Rattle.sound.specs.Soundness.{target_sound, pattern_sound, template_sound, is_actual, actuals_only};
ghost use Rattle.sound.specs.Soundness.{binds_not, unbound_before, binds_anew, formals_apart, action_sound, template_for};
ghost use Rattle.sound.specs.Soundness.{instruction_sound, nodes_sound, code_sound, sound_of};

use crate::groups::group_sound;
use crate::rows::rows_sound;
use crate::zeros::{
    is_free, is_zero_instruction, is_zero_item, is_zero_node, is_zero_pattern, is_zero_tuple,
    no_template,
};
use net::instruction::{Action, Instruction, Pattern, Target};
use net::locality::{Locality, Place};
use net::network::Net;
use net::node::Node;
use net::process::Process;
use net::tuple::{Item, Tuple, Value};

// What the records of a net are judged by: its format, its address count and its code length.
#[derive(Clone, Copy)]
struct Counts {
    format: usize,
    addresses: usize,
    length: usize,
}

// Whether the net is sound.
#[tactic(auto, unfolding(crate::specs::Soundness::sound_of, net::specs::Choice::both))]
pub fn sound(net: Net) -> bool
    ensures { result ≡ sound_of net }
{
    is_in_range(1, net.format, 2)
        && is_in_range(1, net.addresses, 16)
        && is_in_range(1, net.length, 512)
        && nodes_sound(&net)
        && code_sound(&net)
}

#[tactic(auto, unfolding(net::specs::Choice::in_range, net::specs::Choice::both))]
fn is_in_range(low: usize, x: usize, high: usize) -> bool
    ensures { result ≡ in_range low x high }
{
    low <= x && x <= high
}

// Whether every variable is unset.
pub fn all_unset(p: Process) -> bool
    ensures { result ≡ all_unset p }
{
    p.variables.iter().all(|x| x.value == Value::Unset)
}

impl Counts {
    // Those of a net.
    fn of(net: &Net) -> Counts
        ensures format { result.format ≡ net.now.format }
        ensures addresses { result.addresses ≡ net.now.addresses }
        ensures length { result.length ≡ net.now.length }
    {
        Counts {
            format: net.format,
            addresses: net.addresses,
            length: net.length,
        }
    }

    // An address in use.
    fn uses(self, l: Locality) -> bool
        ensures { result ≡ ltb l.0 self.addresses }
    {
        usize::from(l.0) < self.addresses
    }

    // A place of the code.
    fn has_code(self, p: Place) -> bool
        ensures { result ≡ ltb p.0 self.length }
    {
        usize::from(p.0) < self.length
    }

    // ---- tuples

    #[tactic(auto, unfolding(crate::specs::Soundness::item_sound))]
    fn item(self, item: Item) -> bool
        ensures { result ≡ item_sound self.addresses item }
    {
        match item {
            Item::Reading(_) => true,
            Item::Address(l) => self.uses(l),
        }
    }

    #[tactic(auto, unfolding(crate::specs::Soundness::fields_sound, net::specs::Choice::both))]
    fn fields(self, t: &Tuple) -> bool
        ensures { result ≡ fields_sound self.addresses t.now }
    {
        is_in_range(1, t.count, 4)
            && t.fields.iter().enumerate().all(|(i, field)| {
                if i < t.count {
                    self.item(field.item)
                } else {
                    is_zero_item(field)
                }
            })
    }

    // Its mark is an address in use.
    #[tactic(auto, unfolding(crate::specs::Soundness::tuple_sound, net::specs::Choice::both))]
    fn tuple(self, t: &Tuple) -> bool
        ensures { result ≡ tuple_sound self.addresses t.now }
    {
        self.uses(t.mark) && self.fields(t)
    }

    #[tactic(auto, unfolding(crate::specs::Soundness::tuples_sound, net::specs::Choice::both))]
    fn tuples(self, node: &Node) -> bool
        ensures { result ≡ tuples_sound self.addresses node.now }
    {
        node.stored <= 16
            && node.tuples.iter().enumerate().all(|(i, t)| {
                if i < node.stored {
                    self.tuple(t)
                } else {
                    is_zero_tuple(*t)
                }
            })
    }

    // ---- processes

    #[tactic(auto, unfolding(crate::specs::Soundness::value_sound))]
    fn value(self, value: Value) -> bool
        ensures { result ≡ value_sound self.addresses value }
    {
        match value {
            Value::Address(l) => self.uses(l),
            _ => true,
        }
    }

    #[tactic(auto, unfolding(crate::specs::Soundness::process_sound, net::specs::Choice::both, net::specs::Choice::choose))]
    fn process(self, p: &Process) -> bool
        ensures { result ≡ process_sound self.addresses self.length p.now }
    {
        if p.busy {
            self.has_code(p.at)
                && self.uses(p.origin)
                && p.variables.iter().all(|x| self.value(x.value))
        } else {
            is_free(*p)
        }
    }
}

impl Counts {
    // ---- nodes

    fn processes(self, node: &Node) -> bool
        ensures { result ≡ all 4 (λ i. process_sound self.addresses self.length (process_at node.now i)) }
    {
        node.processes.iter().all(|p| self.process(p))
    }

    #[tactic(auto, unfolding(crate::specs::Soundness::node_sound, net::specs::Choice::both))]
    fn node(self, node: &Node) -> bool
        ensures { result ≡ node_sound self.format self.addresses self.length node.now }
    {
        rows_sound(self.format, self.addresses, node) && self.processes(node) && self.tuples(node)
    }

    // ---- instructions

    #[tactic(auto, unfolding(crate::specs::Soundness::target_sound))]
    fn target(self, target: Target) -> bool
        ensures { result ≡ target_sound self.addresses target }
    {
        match target {
            Target::Written(l) => self.uses(l),
            Target::Own => true,
            Target::Held(v) => v < 8,
        }
    }

    #[tactic(auto, unfolding(crate::specs::Soundness::pattern_sound))]
    fn pattern(self, pattern: Pattern) -> bool
        ensures { result ≡ pattern_sound self.addresses pattern }
    {
        match pattern {
            Pattern::Reading(_) | Pattern::Own => true,
            Pattern::Address(l) => self.uses(l),
            Pattern::Held(v) | Pattern::FormalReading(v) | Pattern::FormalAddress(v) => v < 8,
        }
    }

    #[tactic(auto, unfolding(crate::specs::Soundness::template_sound, net::specs::Choice::both))]
    fn template(self, c: &Instruction) -> bool
        ensures { result ≡ template_sound self.addresses c.now }
    {
        is_in_range(1, c.count, 4)
            && c.template.iter().enumerate().all(|(i, field)| {
                if i < c.count {
                    self.pattern(field.pattern)
                } else {
                    is_zero_pattern(field)
                }
            })
    }

    // An out to a set stands in format 2 alone.
    #[tactic(auto, unfolding(crate::specs::Soundness::action_sound, net::specs::Choice::both))]
    fn action(self, action: Action) -> bool
        ensures { result ≡ action_sound self.format self.addresses self.length action }
    {
        match action {
            Action::Stop => true,
            Action::Out(t, p) | Action::In(t, p) | Action::Read(t, p) => self.target(t)
                && self.has_code(p),
            Action::Eval(t, sent, p) => self.target(t) && self.has_code(sent) && self.has_code(p),
            Action::New(v, p) => v < 8 && self.has_code(p),
            Action::Fork(p, q) => self.has_code(p) && self.has_code(q),
            Action::OutAll(g, p) => self.format != 1
                && group_sound(self.addresses, g)
                && self.has_code(p),
        }
    }

    // The template that goes with an action.
    #[tactic(auto, unfolding(crate::specs::Soundness::template_for, net::specs::Choice::both))]
    fn template_for(self, c: &Instruction) -> bool
        ensures { result ≡ template_for self.addresses c.now.action c.now }
    {
        match c.action {
            Action::Out(_, _) | Action::OutAll(_, _) => self.template(c) && actuals_only(c),
            Action::In(_, _) | Action::Read(_, _) => self.template(c) && formals_apart(c),
            _ => no_template(*c),
        }
    }

    #[tactic(auto, unfolding(crate::specs::Soundness::instruction_sound, net::specs::Choice::both))]
    fn instruction(self, c: &Instruction) -> bool
        ensures { result ≡ instruction_sound self.format self.addresses self.length c.now }
    {
        self.action(c.action) && self.template_for(c)
    }
}

#[tactic(auto, unfolding(crate::specs::Soundness::is_actual))]
fn is_actual(pattern: Pattern) -> bool
    ensures { result ≡ is_actual pattern }
{
    !matches!(
        pattern,
        Pattern::FormalReading(_) | Pattern::FormalAddress(_)
    )
}

// Rule 26: no field is a formal.
fn actuals_only(c: &Instruction) -> bool
    ensures { result ≡ actuals_only c.now }
{
    c.template
        .iter()
        .enumerate()
        .all(|(i, field)| c.count <= i || is_actual(field.pattern))
}

#[tactic(auto, unfolding(crate::specs::Soundness::binds_not))]
fn binds_not(v: u8, pattern: Pattern) -> bool
    ensures { result ≡ binds_not v pattern }
{
    match pattern {
        Pattern::FormalReading(w) | Pattern::FormalAddress(w) => w != v,
        _ => true,
    }
}

// None of the first i fields binds variable v (rule 27).
pub fn unbound_before(c: Instruction, i: usize, v: u8) -> bool
    ensures { result ≡ unbound_before c i v }
{
    c.template
        .iter()
        .enumerate()
        .all(|(j, field)| i <= j || binds_not(v, field.pattern))
}

// Field i binds no variable that an earlier field binds.
#[tactic(auto, unfolding(crate::specs::Soundness::binds_anew))]
fn binds_anew(c: &Instruction, i: usize, pattern: Pattern) -> bool
    ensures { result ≡ binds_anew c.now i pattern }
{
    match pattern {
        Pattern::FormalReading(v) | Pattern::FormalAddress(v) => unbound_before(*c, i, v),
        _ => true,
    }
}

// Rule 27: no variable is formal twice.
fn formals_apart(c: &Instruction) -> bool
    ensures { result ≡ formals_apart c.now }
{
    c.template.iter().enumerate().all(|(i, field)| c.count <= i || binds_anew(c, i, field.pattern))
}

// ---- the net

fn nodes_sound(net: &Net) -> bool
    ensures { result ≡ nodes_sound net.now }
{
    let counts = Counts::of(net);
    net.nodes.iter().enumerate().all(|(a, node)| {
        if a < counts.addresses {
            counts.node(node)
        } else {
            is_zero_node(node)
        }
    })
}

fn code_sound(net: &Net) -> bool
    ensures { result ≡ code_sound net.now }
{
    let counts = Counts::of(net);
    net.code.iter().enumerate().all(|(p, c)| {
        if p < counts.length {
            counts.instruction(c)
        } else {
            is_zero_instruction(*c)
        }
    })
}
