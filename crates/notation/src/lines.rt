// The lines after the rows (document 01, "The planners' notation"): definitions, processes and tuples. What they say goes into
// lent tables until all are read: the words of instructions, the three tables of names, and four words of starts for
// each address.
#![tactic(auto, using(processes::proofs::Keeping::keeping), unfolding(crate::specs::Lines::definition_line, crate::specs::Lines::process_line, crate::specs::Lines::tuple_line, crate::specs::Lines::placed_line, crate::specs::Lines::located_line, crate::specs::Lines::line, text::specs::Bytes::bytes))]

ghost use Rattle.std.specs.Prelude.{◌+◌, ◌*◌, ◌<◌, ◌≤◌, ◌≡◌, List, [], true, false, get_or, set};
ghost use Rattle.net.specs.Choice.{choose};
ghost use Rattle.net.specs.Records.{place_of, node_at, starting_at, marked, with_node, with_process, with_tuple};
ghost use Rattle.linking.specs.State.{entered};
ghost use Rattle.linking.specs.NodeCounts.{Counts};
ghost use Rattle.linking.specs.Source.{Line};
ghost use Rattle.processes.specs.Progress.{Keeps};
ghost use Rattle.processes.specs.Room.{room};
ghost use Rattle.notation.specs.Lines.{definition_line, process_line, tuple_line, located_line, line, lines as all_lines};
ghost use Rattle.notation.specs.LineProgress.{scope_in, Lined, AllLined};

use fields::scope::Scope;
use fields::tuples::read_tuple;
use fields::values::read_address;
use lexemes::reader::TextReader;
use linking::names::flag_at;
use net::locality::{Locality, Place};
use net::network::Net;
use net::process::Process;
use net::tuple::Tuple;
use processes::code::Code;
use processes::names::read_name;
use processes::processes::read_process;
use readers::fault::Fault;
use terms::table::put;

// What lines are read into: the code, the bodies of names, which are defined and whether one is twice, the starts of
// processes, and the net.
#[derive(Drop)]
pub(crate) struct Lines<'c, 'a> {
    pub(crate) code: Code<'c>,
    pub(crate) bodies: &'a mut [usize],
    pub(crate) defs: &'a mut [bool],
    pub(crate) twice: bool,
    pub(crate) starts: &'a mut [usize],
    pub(crate) net: &'a mut Net,
}

impl<'c, 'a> Lines<'c, 'a> {
    // Whether name k is defined.
    fn is_defined(&self, k: usize) -> bool
        ensures { result ≡ get_or self.now.defs.now k false }
    {
        flag_at(self.defs, k)
    }

    // The word of a body, at its name: a name that is defined already keeps its first one.
    #[tactic(auto, unfolding(linking::specs::State::entered, net::specs::Choice::choose))]
    fn enter(&mut self, k: usize, w: usize)
        ensures bodies { self.new.bodies.now ≡ entered k w self.old.defs.now self.old.bodies.now }
        ensures defs { self.new.defs ≡ self.old.defs }
        ensures twice { self.new.twice ≡ choose (get_or self.old.defs.now k false) true self.old.twice }
        ensures code { self.new.code ≡ self.old.code }
        ensures starts { self.new.starts ≡ self.old.starts }
        ensures net { self.new.net ≡ self.old.net }
    {
        if self.is_defined(k) {
            self.twice = true;
        } else {
            put(self.bodies, k, w);
        }
    }

    // Name k is defined.
    fn define(&mut self, k: usize)
        ensures defs { self.new.defs.now ≡ set self.old.defs.now k true }
        ensures bodies { self.new.bodies ≡ self.old.bodies }
        ensures twice { self.new.twice ≡ self.old.twice }
        ensures code { self.new.code ≡ self.old.code }
        ensures starts { self.new.starts ≡ self.old.starts }
        ensures net { self.new.net ≡ self.old.net }
    {
        put(self.defs, k, true);
    }

    // The word of where the process of slot k of address a starts; until it is resolved the process stands at place 0.
    #[tactic(auto, unfolding(net::specs::Records::with_node, net::specs::Records::node_at, net::specs::Records::place_of))]
    fn start(&mut self, a: Locality, k: usize, w: usize)
        requires slot { k ≤ 4 }
        requires below { a.0 < 16 }
        ensures starts { self.new.starts.now ≡ set self.old.starts.now (4 * a.0 + k) w }
        ensures net { self.new.net.now ≡ with_node self.old.net.now a (with_process (node_at self.old.net.now a) k (starting_at a (place_of 0))) }
        ensures code { self.new.code ≡ self.old.code }
        ensures bodies { self.new.bodies ≡ self.old.bodies }
        ensures defs { self.new.defs ≡ self.old.defs }
        ensures twice { self.new.twice ≡ self.old.twice }
    {
        let owner = a.0 as usize;
        put(self.starts, 4 * owner + k, w);
        let node = self.net.nodes[owner];
        self.net.nodes[owner] = node.with_process(k, Process::starting(a, Place(0)));
    }

    // A tuple at address a, as the newest there; it bears that mark.
    #[tactic(auto, using(net::proofs::NodeLaws::put_or), unfolding(net::specs::Records::with_node, net::specs::Records::node_at))]
    fn add(&mut self, a: Locality, t: Tuple)
        requires { a.0 < 16 }
        ensures net { self.new.net.now ≡ with_node self.old.net.now a (with_tuple (node_at self.old.net.now a) (marked a t)) }
        ensures starts { self.new.starts ≡ self.old.starts }
        ensures code { self.new.code ≡ self.old.code }
        ensures bodies { self.new.bodies ≡ self.old.bodies }
        ensures defs { self.new.defs ≡ self.old.defs }
        ensures twice { self.new.twice ≡ self.old.twice }
    {
        let owner = a.0 as usize;
        let node = self.net.nodes[owner];
        self.net.nodes[owner] = node.put(t.marked(a)).unwrap_or(node);
    }
}

// A3 = P.
fn read_definition(r: &mut TextReader, scope: Scope, lines: &mut Lines) -> Result<(), Fault>
    ensures { Keeps r.old (definition_line scope) (Lined lines.old lines.new) result r.new }
{
    let k = read_name(r)?;
    r.word(b" = ")?;
    let start = read_process(r, scope, &mut lines.code)?;
    r.byte(b'\n')?;
    lines.enter(k, start);
    lines.define(k);
    Ok(())
}

// A process after its address a, which starts in the slot after the others there.
fn read_process_line(
    r: &mut TextReader,
    scope: Scope,
    lines: &mut Lines,
    a: Locality,
) -> Result<(), Fault>
    requires below { a.0 < 16 }
    ensures { (ls : List Line) → Counts ls lines.old.net.now → Keeps r.old (process_line scope ls a) (Lined lines.old lines.new) result r.new }
{
    let k = lines.net.nodes[a.0 as usize].process_count();
    r.require(k < 4, 22)?;
    let start = read_process(r, scope, &mut lines.code)?;
    r.byte(b'\n')?;
    lines.start(a, k, start);
    Ok(())
}

// A tuple after its address a, which is the newest there.
fn read_tuple_line(
    r: &mut TextReader,
    scope: Scope,
    lines: &mut Lines,
    a: Locality,
) -> Result<(), Fault>
    requires below { a.0 < 16 }
    ensures { (ls : List Line) → Counts ls lines.old.net.now → Keeps r.old (tuple_line scope ls a) (Lined lines.old lines.new) result r.new }
{
    r.require(lines.net.nodes[a.0 as usize].stored < 16, 22)?;
    let tuple = read_tuple(r, scope.addresses)?;
    r.byte(b'\n')?;
    lines.add(a, tuple);
    Ok(())
}

// An address, and the tuple or the process that stands there.
fn read_located(r: &mut TextReader, scope: Scope, lines: &mut Lines) -> Result<(), Fault>
    ensures { (ls : List Line) → Counts ls lines.old.net.now → Keeps r.old (located_line scope ls) (Lined lines.old lines.new) result r.new }
{
    let a = read_address(r, scope.addresses)?;
    r.word(b" :: ")?;
    if r.peek() == b'<' {
        read_tuple_line(r, scope, lines, a)
    } else {
        read_process_line(r, scope, lines, a)
    }
}

// A line.
fn read_line(r: &mut TextReader, scope: Scope, lines: &mut Lines) -> Result<(), Fault>
    ensures { (ls : List Line) → Counts ls lines.old.net.now → Keeps r.old (line scope ls) (Lined lines.old lines.new) result r.new }
{
    if r.peek() == b'A' {
        read_definition(r, scope, lines)
    } else {
        read_located(r, scope, lines)
    }
}

// All lines up to the end of the text, which has no more lines than bytes.
pub(crate) fn read_lines(r: &mut TextReader, lines: &mut Lines) -> Result<(), Fault>
    requires few { lines.old.net.now.addresses ≤ 16 }
    requires counts { Counts [] lines.old.net.now }
    requires none { lines.old.code.count ≡ 0 }
    ensures { Keeps r.old (all_lines (scope_in lines.old.net.now)) (AllLined lines.old lines.new) result r.new }
{
    let scope = Scope {
        addresses: lines.net.addresses,
        format: lines.net.format,
    };
    for i in 0..r.text.len() {
        if r.at >= r.text.len() {
            return Ok(());
        }
        read_line(r, scope, lines)?;
    }
    Ok(())
}
