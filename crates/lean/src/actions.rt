// What each action does to the words: a is the host, k the slot, at the place of the instruction.
// Kept: no struct of the arrays: an action is lent those that it may change, so its contract is silent of the others.
// Kept: an answer is a number here and in rounds.rt, as in `Acted`, `Moved`, `Created`, `Stepped` and the buffer.
ghost use Rattle.std.specs.Prelude.{◌<◌, ◌≡◌, IfOk};
ghost use Rattle.lean.specs.Words.{with_word};
ghost use Rattle.lean.specs.Actions.{acted_with, moved_with, created_with, put_with, met_with, given_with, aimed, aim_of, removed_of, stop_of, put_of, out_to, out_of, meet_of, take_of};
ghost use Rattle.lean.specs.Actions.{read_of, start_of, fork_of, eval_of, open_alike, open_by_origin, open_of, create_of, room_in, given_at, put_below, out_to_all, out_all_of};

use lean_code::fields::{WRITTEN, bind, defined, made, met, word_from};
use lean_words::processes::{free_slot, free_words};
use lean_words::rights::{admits, gain, grants};
use lean_words::stores::close_up;
use lean_words::words::UNSET;

// The address that an action of the process with the words p concerns, or the action's answer: 6 where a variable
// lacks, 4 where the address is in a variable and the row has not the right there.
fn aim(
    p: &[usize; 16],
    a: usize,
    h: &[usize; 6],
    f: &[[usize; 4]; 4],
    rows: &[[bool; 65]; 16],
    right: usize,
) -> Result<usize, usize>
    ensures low { IfOk result (λ l. l < 16) }
    ensures value { aimed result ≡ aim_of p.now a h.now f.now rows.now right }
{
    let w = word_from(p, a, h[2], h[1]);
    let l = w % 16;
    if defined(p, f) & (w < UNSET) {
        if WRITTEN <= h[2] {
            Ok(l)
        } else if grants(&rows[p[9] % 16], l, right) {
            Ok(l)
        } else {
            Err(4)
        }
    } else {
        Err(6)
    }
}

pub(crate) fn stop(procs: &mut [[[usize; 16]; 4]; 16], a: usize, k: usize) -> usize
    ensures { acted_with result procs.new ≡ stop_of procs.old a k }
{
    procs[a % 16][k % 4] = free_words();
    1
}

// The process goes on at its next place.
fn move_on(procs: &mut [[[usize; 16]; 4]; 16], a: usize, k: usize, next: usize)
    ensures { procs.new ≡ with_word procs.old a k 8 next }
{
    procs[a % 16][k % 4][8] = next;
}

// The tuple put at l as the newest, where there is room.
fn put(
    stored: &mut [usize; 16],
    tuples: &mut [[[usize; 6]; 16]; 16],
    l: usize,
    t: [usize; 6],
) -> bool
    ensures { put_with result stored.new tuples.new ≡ put_of stored.old tuples.old l t }
{
    let at = stored[l % 16];
    if at < 16 {
        tuples[l % 16][at] = t;
        stored[l % 16] = at + 1;
        true
    } else {
        false
    }
}

// The tuple of an out put at l, where there is room, and the process moved on.
fn out_to(
    procs: &mut [[[usize; 16]; 4]; 16],
    stored: &mut [usize; 16],
    tuples: &mut [[[usize; 6]; 16]; 16],
    h: &[usize; 6],
    f: &[[usize; 4]; 4],
    a: usize,
    k: usize,
    l: usize,
) -> usize
    ensures { moved_with result procs.new stored.new tuples.new ≡ out_to l procs.old stored.old tuples.old h.now f.now a k }
{
    let t = made(&procs[a % 16][k % 4], a, f, h[5]);
    if put(stored, tuples, l, t) {
        move_on(procs, a, k, h[3]);
        0
    } else {
        3
    }
}

pub(crate) fn out(
    procs: &mut [[[usize; 16]; 4]; 16],
    stored: &mut [usize; 16],
    tuples: &mut [[[usize; 6]; 16]; 16],
    rows: &[[[bool; 65]; 16]; 16],
    h: &[usize; 6],
    f: &[[usize; 4]; 4],
    a: usize,
    k: usize,
) -> usize
    ensures { moved_with result procs.new stored.new tuples.new ≡ out_of procs.old stored.old tuples.old rows.now h.now f.now a k }
{
    match aim(&procs[a % 16][k % 4], a, h, f, &rows[a % 16], 2) {
        Ok(l) => out_to(procs, stored, tuples, h, f, a, k, l),
        Err(answer) => answer,
    }
}

// The tuple that a read or an in meets, to which its process is bound: its place, 16 where none fits.
// Kept: no `Option`: `meet_of` has the place from `oldest_in` of `lean_words`, where 16 is none; so `start` its slot.
fn meet(
    procs: &mut [[[usize; 16]; 4]; 16],
    stored: &[usize; 16],
    tuples: &[[[usize; 6]; 16]; 16],
    h: &[usize; 6],
    f: &[[usize; 4]; 4],
    a: usize,
    k: usize,
    l: usize,
) -> usize
    ensures { met_with result procs.new ≡ meet_of procs.old stored.now tuples.now h.now f.now a k l }
{
    let i = met(
        &procs[a % 16][k % 4],
        a,
        f,
        h[5],
        &tuples[l % 16],
        stored[l % 16],
    );
    if i < 16 {
        bind(&mut procs[a % 16][k % 4], f, &tuples[l % 16][i], h[3]);
    }
    i
}

// The tuple at place i of l taken.
fn remove(stored: &mut [usize; 16], tuples: &mut [[[usize; 6]; 16]; 16], l: usize, i: usize)
    ensures { given_with stored.new tuples.new ≡ removed_of stored.old tuples.old l i }
{
    close_up(&mut tuples[l % 16], i);
    let count = stored[l % 16];
    if 0 < count {
        stored[l % 16] = count - 1;
    }
}

pub(crate) fn take(
    procs: &mut [[[usize; 16]; 4]; 16],
    stored: &mut [usize; 16],
    tuples: &mut [[[usize; 6]; 16]; 16],
    rows: &[[[bool; 65]; 16]; 16],
    h: &[usize; 6],
    f: &[[usize; 4]; 4],
    a: usize,
    k: usize,
) -> usize
    ensures { moved_with result procs.new stored.new tuples.new ≡ take_of procs.old stored.old tuples.old rows.now h.now f.now a k }
{
    let l = match aim(&procs[a % 16][k % 4], a, h, f, &rows[a % 16], 0) {
        Ok(l) => l,
        Err(answer) => return answer,
    };
    let i = meet(procs, stored, tuples, h, f, a, k, l);
    if i < 16 {
        remove(stored, tuples, l, i);
        0
    } else {
        2
    }
}

pub(crate) fn read(
    procs: &mut [[[usize; 16]; 4]; 16],
    stored: &[usize; 16],
    tuples: &[[[usize; 6]; 16]; 16],
    rows: &[[[bool; 65]; 16]; 16],
    h: &[usize; 6],
    f: &[[usize; 4]; 4],
    a: usize,
    k: usize,
) -> usize
    ensures { acted_with result procs.new ≡ read_of procs.old stored.now tuples.now rows.now h.now f.now a k }
{
    let l = match aim(&procs[a % 16][k % 4], a, h, f, &rows[a % 16], 1) {
        Ok(l) => l,
        Err(answer) => return answer,
    };
    let i = meet(procs, stored, tuples, h, f, a, k, l);
    if i < 16 { 0 } else { 2 }
}

// The process goes on, and its copy starts in a slot of l, at a place and of an origin.
fn start(
    procs: &mut [[[usize; 16]; 4]; 16],
    h: &[usize; 6],
    a: usize,
    k: usize,
    l: usize,
    origin: usize,
) -> usize
    ensures { acted_with result procs.new ≡ start_of procs.old h.now a k l origin }
{
    let slot = free_slot(&procs[l % 16]);
    if slot < 4 {
        let mut copy = procs[a % 16][k % 4];
        copy[8] = h[4];
        copy[9] = origin;
        procs[a % 16][k % 4][8] = h[3];
        procs[l % 16][slot] = copy;
        0
    } else {
        3
    }
}

pub(crate) fn fork(procs: &mut [[[usize; 16]; 4]; 16], h: &[usize; 6], a: usize, k: usize) -> usize
    ensures { acted_with result procs.new ≡ fork_of procs.old h.now a k }
{
    let origin = procs[a % 16][k % 4][9];
    start(procs, h, a, k, a, origin)
}

pub(crate) fn eval(
    procs: &mut [[[usize; 16]; 4]; 16],
    rows: &[[[bool; 65]; 16]; 16],
    need: &[bool; 69],
    h: &[usize; 6],
    f: &[[usize; 4]; 4],
    a: usize,
    k: usize,
) -> usize
    ensures { acted_with result procs.new ≡ eval_of procs.old rows.now need.now h.now f.now a k }
{
    match aim(&procs[a % 16][k % 4], a, h, f, &rows[a % 16], 3) {
        Ok(l) if admits(need, &rows[l % 16][a % 16], l) => start(procs, h, a, k, l, a),
        Ok(_) => 5,
        Err(answer) => answer,
    }
}

// The rows after a new of address l, in format 1.
fn open_alike(rows: &mut [[[bool; 65]; 16]; 16], a: usize, o: usize, l: usize)
    ensures { rows.new ≡ open_alike rows.old a o l }
{
    let mut row = rows[a % 16][o % 16];
    gain(&mut row, l);
    rows[a % 16] = [row; 16];
    rows[l % 16] = [row; 16];
}

// In format 2.
fn open_by_origin(rows: &mut [[[bool; 65]; 16]; 16], a: usize, o: usize, l: usize)
    ensures { rows.new ≡ open_by_origin rows.old a o l }
{
    let mut all = rows[a % 16];
    let mut own = all[a % 16];
    gain(&mut own, l);
    all[a % 16] = own;
    all[l % 16] = own;
    rows[l % 16] = all;
    gain(&mut rows[a % 16][o % 16], l);
}

fn open(rows: &mut [[[bool; 65]; 16]; 16], format: usize, a: usize, o: usize, l: usize)
    ensures { rows.new ≡ open_of format rows.old a o l }
{
    if format == 1 {
        open_alike(rows, a, o, l);
    } else {
        open_by_origin(rows, a, o, l);
    }
}

pub(crate) fn create(
    n: &mut usize,
    procs: &mut [[[usize; 16]; 4]; 16],
    rows: &mut [[[bool; 65]; 16]; 16],
    format: usize,
    h: &[usize; 6],
    a: usize,
    k: usize,
) -> usize
    ensures { created_with result n.new procs.new rows.new ≡ create_of n.old procs.old rows.old format h.now a k }
{
    let l = *n;
    if l < 16 {
        let o = procs[a % 16][k % 4][9];
        open(rows, format, a, o, l);
        procs[a % 16][k % 4][h[4] % 16] = l;
        procs[a % 16][k % 4][8] = h[3];
        *n = l + 1;
        0
    } else {
        3
    }
}

// Whether each member of a set has room.
fn room_at_all(stored: &[usize; 16], set: &[bool; 16]) -> bool
    ensures { result ≡ room_in stored.now set.now }
{
    for l in 0..16 {
        let fits = !set[l] | (stored[l] < 16);
        if !fits {
            return false;
        }
    }
    true
}

// The tuple put at l, where that is a member.
fn put_at(
    stored: &mut [usize; 16],
    tuples: &mut [[[usize; 6]; 16]; 16],
    member: bool,
    l: usize,
    t: [usize; 6],
)
    ensures { given_with stored.new tuples.new ≡ given_at member l t (given_with stored.old tuples.old) }
{
    if member {
        put(stored, tuples, l, t);
    }
}

// The tuple put at each member.
fn put_at_all(
    stored: &mut [usize; 16],
    tuples: &mut [[[usize; 6]; 16]; 16],
    set: &[bool; 16],
    t: [usize; 6],
)
    ensures { given_with stored.new tuples.new ≡ put_below 16 stored.old tuples.old set.now t }
{
    for l in 0..16 {
        put_at(stored, tuples, set[l], l, t);
    }
}

// The tuple of an out put at each member, where each has room, and the process moved on.
fn out_to_all(
    procs: &mut [[[usize; 16]; 4]; 16],
    stored: &mut [usize; 16],
    tuples: &mut [[[usize; 6]; 16]; 16],
    set: &[bool; 16],
    h: &[usize; 6],
    f: &[[usize; 4]; 4],
    a: usize,
    k: usize,
) -> usize
    ensures { moved_with result procs.new stored.new tuples.new ≡ out_to_all procs.old stored.old tuples.old set.now h.now f.now a k }
{
    if room_at_all(stored, set) {
        let t = made(&procs[a % 16][k % 4], a, f, h[5]);
        put_at_all(stored, tuples, set, t);
        move_on(procs, a, k, h[3]);
        0
    } else {
        3
    }
}

pub(crate) fn out_all(
    procs: &mut [[[usize; 16]; 4]; 16],
    stored: &mut [usize; 16],
    tuples: &mut [[[usize; 6]; 16]; 16],
    set: &[bool; 16],
    h: &[usize; 6],
    f: &[[usize; 4]; 4],
    a: usize,
    k: usize,
) -> usize
    ensures { moved_with result procs.new stored.new tuples.new ≡ out_all_of procs.old stored.old tuples.old set.now h.now f.now a k }
{
    if defined(&procs[a % 16][k % 4], f) {
        out_to_all(procs, stored, tuples, set, h, f, a, k)
    } else {
        6
    }
}
