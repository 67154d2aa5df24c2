// One pick, and a list of picks, on the words.
ghost use Rattle.std.specs.Prelude.{◌≤◌, ◌≡◌, length};
ghost use Rattle.lean.specs.Words.{words_with};
ghost use Rattle.lean.specs.Rounds.{tables_with, stepped_with, act_of, step_words};
ghost use Rattle.lean.specs.Standing.{MadeEach};

use crate::actions::{create, eval, fork, out, out_all, read, stop, take};

// The tables of a code, by place, and its net's format.
#[derive(Clone, Copy, Drop)]
pub(crate) struct Tables<'a> {
    pub(crate) heads: &'a [[usize; 6]; 512],
    pub(crate) fields: &'a [[[usize; 4]; 4]; 512],
    pub(crate) sets: &'a [[bool; 16]; 512],
    pub(crate) needs: &'a [[bool; 69]; 512],
    pub(crate) format: usize,
}

// What the instruction at a place does, by the number of its action.
// Kept: a rule of the project (fixed memory): the number of an action is the first word of its packed head.
fn act(
    n: &mut usize,
    procs: &mut [[[usize; 16]; 4]; 16],
    stored: &mut [usize; 16],
    tuples: &mut [[[usize; 6]; 16]; 16],
    rows: &mut [[[bool; 65]; 16]; 16],
    tables: &Tables<'_>,
    a: usize,
    k: usize,
    at: usize,
) -> usize
    ensures { stepped_with result (words_with n.new procs.new stored.new tuples.new rows.new) ≡ act_of (tables_with tables.now.heads.now tables.now.fields.now tables.now.sets.now tables.now.needs.now tables.now.format) (words_with n.old procs.old stored.old tuples.old rows.old) a k at }
{
    let h = &tables.heads[at % 512];
    let f = &tables.fields[at % 512];
    match h[0] {
        0 => stop(procs, a, k),
        1 => out(procs, stored, tuples, rows, h, f, a, k),
        2 => take(procs, stored, tuples, rows, h, f, a, k),
        3 => read(procs, stored, tuples, rows, h, f, a, k),
        4 => eval(procs, rows, &tables.needs[at % 512], h, f, a, k),
        5 => create(n, procs, rows, tables.format, h, a, k),
        6 => fork(procs, h, a, k),
        _ => out_all(procs, stored, tuples, &tables.sets[at % 512], h, f, a, k),
    }
}

fn step(
    n: &mut usize,
    procs: &mut [[[usize; 16]; 4]; 16],
    stored: &mut [usize; 16],
    tuples: &mut [[[usize; 6]; 16]; 16],
    rows: &mut [[[bool; 65]; 16]; 16],
    tables: &Tables<'_>,
    b: u8,
) -> usize
    ensures { stepped_with result (words_with n.new procs.new stored.new tuples.new rows.new) ≡ step_words (tables_with tables.now.heads.now tables.now.fields.now tables.now.sets.now tables.now.needs.now tables.now.format) (words_with n.old procs.old stored.old tuples.old rows.old) b }
{
    let a = (b / 16) as usize;
    let k = (b / 4 % 4) as usize;
    if b % 4 != 0 {
        9
    } else if *n <= a {
        8
    } else {
        let at = procs[a % 16][k % 4][8];
        if 512 <= at {
            7
        } else {
            act(n, procs, stored, tuples, rows, tables, a, k, at)
        }
    }
}

pub(crate) fn make_each(
    n: &mut usize,
    procs: &mut [[[usize; 16]; 4]; 16],
    stored: &mut [usize; 16],
    tuples: &mut [[[usize; 6]; 16]; 16],
    rows: &mut [[[bool; 65]; 16]; 16],
    tables: &Tables<'_>,
    picks: &[u8],
    answers: &mut [u8],
)
    requires { length picks.now ≤ length answers.old }
    ensures { MadeEach (tables_with tables.now.heads.now tables.now.fields.now tables.now.sets.now tables.now.needs.now tables.now.format) (words_with n.old procs.old stored.old tuples.old rows.old) picks.now answers.old (words_with n.new procs.new stored.new tuples.new rows.new) answers.new }
{
    for (i, b) in picks.iter().enumerate() {
        let answer = step(n, procs, stored, tuples, rows, tables, *b);
        answers[i] = (answer % 256) as u8;
    }
}
