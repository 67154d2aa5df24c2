// Matching (document 01, "One pick"; document 004, table 5).
ghost use Rattle.std.specs.Prelude.{◌<◌, ◌≡◌, ltb, IfSome};
ghost use Rattle.net.specs.Choice.{all, implies};
ghost use Rattle.net.specs.Records.{variable_at, pattern_at};
ghost use Rattle.matching.specs.Matching.{held_item, defined_field, want_of, wants_of, evaluated_of, fits_field};
ghost use Rattle.matching.specs.Matching.{fits_of, oldest_of, value_of, bound_field, bound_of, matched_of};

use net::instruction::{Instruction, Pattern};
use net::locality::Locality;
use net::node::Node;
use net::process::Process;
use net::tuple::{Item, Tuple, Value};

// What a template field asks of a tuple's field once its variables are read: one item, or any reading
// or any address, to be bound to a variable.
#[derive(Clone, Copy, PartialEq, Eq, Debug)]
pub enum Want {
    Exactly(Item),
    AnyReading(u8),
    AnyAddress(u8),
}

#[derive(Clone, Copy, PartialEq, Eq, Debug)]
pub struct Wanted {
    pub want: Want,
}

// An evaluated template. `defined` says that every variable whose value it needs was set.
// Kept: `defined` beside the wants: an eval and a new ask for no defined template (`asked` of plans), and
// `evaluated_of` gives the wants in either case (`lean_code`, TemplateLaws).
#[derive(Clone, Copy, PartialEq, Eq, Debug)]
pub struct Evaluated {
    pub defined: bool,
    pub count: usize,
    pub wants: [Wanted; 4],
}

// What a template meets at a node: the place of a tuple among the node's, and the process once its formals are bound.
#[derive(Clone, Copy, PartialEq, Eq, Debug)]
pub struct Matched {
    pub found: Option<usize>,
    pub process: Process,
}

// ---- evaluating a template, with the variables as they are before the step

// The value of a variable: unset past the last variable.
#[tactic(auto, unfolding(net::specs::Records::variable_at))]
pub fn variable(p: Process, v: u8) -> Value
    ensures { result ≡ variable_at p v }
{
    let at = v as usize;
    if at < 8 {
        p.variables[at].value
    } else {
        Value::Unset
    }
}

// The item that a value holds; an unset one counts as nought.
#[tactic(auto, unfolding(crate::specs::Matching::held_item))]
fn held_item(x: Value) -> Item
    ensures { result ≡ held_item x }
{
    match x {
        Value::Unset => Item::Reading(0),
        Value::Reading(a) => Item::Reading(a),
        Value::Address(l) => Item::Address(l),
    }
}

// A template field whose value, where it needs one, is there.
#[tactic(auto, unfolding(crate::specs::Matching::defined_field, crate::specs::Matching::is_set))]
fn defined_field(p: Process, k: Pattern) -> bool
    ensures { result ≡ defined_field p k }
{
    match k {
        Pattern::Held(v) => !matches!(variable(p, v), Value::Unset),
        _ => true,
    }
}

// Every variable whose value the template needs is set.
fn all_defined(p: Process, c: Instruction) -> bool
    ensures { result ≡ all 4 (λ i. implies (ltb i c.count) (defined_field p (pattern_at c i))) }
{
    for i in 0..4 {
        if i < c.count && !defined_field(p, c.template[i].pattern) {
            return false;
        }
    }
    true
}

// What a template field asks for.
#[tactic(auto, unfolding(crate::specs::Matching::want_of))]
fn want_of(host: Locality, p: Process, k: Pattern) -> Want
    ensures { result ≡ want_of host p k }
{
    match k {
        Pattern::Reading(x) => Want::Exactly(Item::Reading(x)),
        Pattern::Address(l) => Want::Exactly(Item::Address(l)),
        Pattern::Own => Want::Exactly(Item::Address(host)),
        Pattern::Held(v) => Want::Exactly(held_item(variable(p, v))),
        Pattern::FormalReading(v) => Want::AnyReading(v),
        Pattern::FormalAddress(v) => Want::AnyAddress(v),
    }
}

// What each field of the template asks for, in its place.
fn all_wants(host: Locality, p: Process, c: Instruction) -> [Wanted; 4]
    ensures { result ≡ wants_of host p c }
{
    let none = Want::Exactly(Item::Reading(0));
    let mut ws = [Wanted { want: none }; 4];
    for i in 0..4 {
        if i < c.count {
            let want = want_of(host, p, c.template[i].pattern);
            ws[i] = Wanted { want };
        }
    }
    ws
}

// An instruction's template, evaluated at its host with the variables of its process.
#[tactic(auto, unfolding(crate::specs::Matching::evaluated_of))]
pub fn evaluate(host: Locality, p: Process, c: Instruction) -> Evaluated
    ensures { result ≡ evaluated_of host p c }
{
    Evaluated {
        defined: all_defined(p, c),
        count: c.count,
        wants: all_wants(host, p, c),
    }
}

// ---- fitting: equal field counts, an actual equal in sort and value, a formal of the same sort

// A tuple's field fits what the template asks for in its place.
#[tactic(auto, unfolding(crate::specs::Matching::fits_field, crate::specs::Matching::is_reading, crate::specs::Matching::is_address))]
fn fits_field(x: Item, w: Want) -> bool
    ensures { result ≡ fits_field x w }
{
    match w {
        Want::Exactly(y) => x == y,
        Want::AnyReading(_) => matches!(x, Item::Reading(_)),
        Want::AnyAddress(_) => matches!(x, Item::Address(_)),
    }
}

// The tuple fits: as many fields, and each as the template asks for.
// Kept: a loop of the shape of `all_defined`: each has its own test in it, and a closure with its clause is no plainer.
fn fits(t: Tuple, e: Evaluated) -> bool
    ensures { result ≡ fits_of t e }
{
    if t.count != e.count {
        return false;
    }
    for i in 0..4 {
        if i < e.count && !fits_field(t.fields[i].item, e.wants[i].want) {
            return false;
        }
    }
    true
}

// Kept: an index, which the edit `youngest_tuple` turns round.
// The oldest tuple of the node that fits: tuples stand oldest first.
fn oldest(n: &Node, e: Evaluated) -> Option<usize>
    ensures value { result ≡ oldest_of n.now e }
    ensures within { IfSome result (λ i. i < 16) }
{
    for i in 0..16 {
        let t = n.tuples[i];
        if i < n.stored && fits(t, e) {
            return Some(i);
        }
    }
    None
}

// ---- binding: each formal's variable is set to the field that it met

// The value of a variable that holds the item.
#[tactic(auto, unfolding(crate::specs::Matching::value_of))]
fn value_of(x: Item) -> Value
    ensures { result ≡ value_of x }
{
    match x {
        Item::Reading(a) => Value::Reading(a),
        Item::Address(l) => Value::Address(l),
    }
}

// The process with a field's variable set, where the field is a formal.
#[tactic(auto, unfolding(crate::specs::Matching::bound_field))]
fn bound_field(p: Process, x: Item, w: Want) -> Process
    ensures { result ≡ bound_field p x w }
{
    match w {
        Want::Exactly(_) => p,
        Want::AnyReading(v) => p.with_variable(v as usize, value_of(x)),
        Want::AnyAddress(v) => p.with_variable(v as usize, value_of(x)),
    }
}

// The process with every formal bound to the field of the tuple that it met.
fn bound(p: Process, t: Tuple, e: Evaluated) -> Process
    ensures { result ≡ bound_of p t e }
{
    let mut q = p;
    for i in 0..4 {
        if i < e.count {
            q = bound_field(q, t.fields[i].item, e.wants[i].want);
        }
    }
    q
}

// What the template meets at the node: the promise that stepping rests on. Formals are bound only
// once the whole template fits.
#[tactic(auto, unfolding(crate::specs::Matching::matched_of, crate::specs::Matching::bound_at, net::specs::Records::tuple_at))]
pub fn match_template(p: Process, n: &Node, e: Evaluated) -> Matched
    ensures { result ≡ matched_of p n.now e }
{
    let found = oldest(n, e);
    let process = match found {
        Some(i) => bound(p, n.tuples[i], e),
        None => p,
    };
    Matched { found, process }
}
