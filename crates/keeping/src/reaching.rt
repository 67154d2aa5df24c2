// Reaching (document 01, "Reaching and rights"): where a process goes on from a place, and the search of the places reached.
ghost use Rattle.std.specs.Prelude.{◌≡◌, Bool};
ghost use Rattle.net.specs.Choice.{choose};
ghost use Rattle.keeping.specs.Reaching.{reached_of};
ghost use Rattle.keeping.specs.Worklist.{low_or, onward_to, good_marked, Leads, OnTop, Visited};

use net::instruction::{Action, Instruction};
use net::locality::Place;

// The places that follow an action, each below 512. Where there is no first or no second one, or none below 512,
// the place of the action itself stands for it.
#[derive(Clone, Copy, PartialEq, Eq, Debug)]
pub struct Onward {
    pub first: Place,
    pub second: Place,
}

// The place q, or p where no instruction stands at q.
#[tactic(auto, unfolding(crate::specs::Worklist::low_or, net::specs::Choice::choose))]
fn low_or(q: Place, p: Place) -> Place
    ensures { result ≡ low_or q p }
{
    if (q.0 as usize) < 512 { q } else { p }
}

// From place p on to the places q and s.
#[tactic(auto, unfolding(crate::specs::Worklist::onward_to))]
fn on_to(p: Place, q: Place, s: Place) -> Onward
    ensures { result ≡ onward_to p q s }
{
    Onward {
        first: low_or(q, p),
        second: low_or(s, p),
    }
}

// The places that follow an action at place p. The sent place of an eval does not.
fn follow(action: Action, p: Place) -> Onward
    ensures { Leads action p result }
{
    match action {
        Action::Stop => on_to(p, p, p),
        Action::Out(_, q) => on_to(p, q, p),
        Action::In(_, q) => on_to(p, q, p),
        Action::Read(_, q) => on_to(p, q, p),
        Action::Eval(_, _, q) => on_to(p, q, p),
        Action::New(_, q) => on_to(p, q, p),
        Action::Fork(q, s) => on_to(p, q, s),
        Action::OutAll(_, q) => on_to(p, q, p),
    }
}

// How many places wait more once a place with this mark is met.
pub fn waiting_more(marked: bool) -> usize
    ensures { result ≡ choose marked 0 1 }
{
    if marked { 0 } else { 1 }
}

// Visits the place on top of the `count` that wait, at which that action stands: it waits no longer, and each place that
// follows is marked, and waits where it had no mark. Gives how many wait then. A place that follows is written on top in
// either case, and counts there where it had no mark.
pub fn visit(marks: &mut [bool], waiting: &mut [u16], count: usize, action: Action) -> usize
    requires { OnTop marks.old waiting.old count }
    ensures { Visited marks.old waiting.old count action marks.new waiting.new result }
{
    let top = count - 1;
    let place = Place(waiting[top]);
    let on = follow(action, place);
    let first = on.first;
    let i = first.0 as usize;
    let next = top + waiting_more(marks[i]);
    marks[i] = true;
    waiting[top] = first.0;
    let second = on.second;
    waiting[next] = second.0;
    let j = second.0 as usize;
    let left = next + waiting_more(marks[j]);
    marks[j] = true;
    left
}

// What a search finds: the places reached, and whether each action there is good.
#[derive(Clone, Copy)]
pub(crate) struct Searched {
    pub(crate) marks: [bool; 512],
    pub(crate) good: bool,
}

// The search of the places reached from a place. Each is marked and put to wait when it is first met, so it waits once at
// most and 512 places are room enough; its action is judged when it is visited.
// Kept: a `while`: places are put to wait in the midst of the loop, so nothing is there to go over.
pub(crate) fn search<F: Fn(Action) -> bool>(
    code: &[Instruction; 512],
    p: Place,
    judge: F,
) -> Searched
    requires { F.IsAlwaysCallable judge }
    ensures marks { result.marks ≡ reached_of code.now p }
    ensures good { (g : Action → Bool) → ((x : Action) (y : Bool) → F.post judge x y → y ≡ g x) → result.good ≡ good_marked (reached_of code.now p) code.now g }
{
    let mut marks = [false; 512];
    let mut good = true;
    let start = p.0 as usize;
    if 512 <= start {
        return Searched { marks, good };
    }
    let mut waiting = [p.0; 512];
    let mut count: usize = 1;
    marks[start] = true;
    while 0 < count {
        let at = waiting[count - 1] as usize;
        let action = code[at].action;
        good = good & judge(action);
        count = visit(&mut marks, &mut waiting, count, action);
    }
    Searched { marks, good }
}

// The places reached from a place.
pub fn reached(code: &[Instruction; 512], p: Place) -> [bool; 512]
    ensures { result ≡ reached_of code.now p }
{
    search(code, p, |_| true).marks
}
