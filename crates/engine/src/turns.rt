// Whose turn it is. The stretches of P facts have their turns one after the other; a stretch that gave something has its turn again, so that a chain
// of rows costs no more than a walk over all rows for each fact. After the last stretch the Q facts are gone over, unless the round put many marks;
// so the round ends. Rounds go on until one puts nothing. In which order the work goes is free: it puts only what a rule gives, and the last round
// goes over every use.
ghost use Rattle.std.specs.Prelude.{◌/◌, ◌%◌, ◌<◌, ◌≤◌};
ghost use Rattle.uses.specs.Ranges.{RowsIn};
ghost use Rattle.uses.specs.Sweeping.{Kept, Did};
ghost use Rattle.uses.specs.AllUses.{RestUses};
ghost use Rattle.engine.specs.Turns.{stretch_count, NextStretch, Ends, Follows};

use crate::q_facts::q_facts;
use crate::stretches::{stretch_count, thread_and_pair};
use passes::guarantees::guarantees;
use passes::pushes_and_pops::{Push, rows_of};
use store::rows::RowLists;
use uses::sweep::Sweep;

// The number of the stretch of P facts whose turn it is; `before` is how many marks could still be put when the round began.
#[derive(Clone, Copy)]
pub struct Turn {
    pub stretch: usize,
    pub before: usize,
}

// The next stretch of P facts from i on that has a mark.
fn next_stretch(sweep: &Sweep, i: usize) -> Option<usize>
    requires { i ≤ stretch_count sweep.now.plan }
    ensures { NextStretch sweep.now.plan sweep.now.mem.now i result }
{
    let s = sweep.plan;
    for stretch in i..stretch_count(s) {
        if sweep.some(s.p + stretch * s.k, s.k) {
            return Some(stretch);
        }
    }
    None
}

// Rules 5 and 2 on stretch i of the P facts.
fn p_rest(sweep: &mut Sweep, rows: &RowLists, i: usize)
    requires { RowsIn sweep.old.plan sweep.old.plan.l sweep.old.plan.f rows.now.pushes.now rows.now.counts.pushes × (i < stretch_count sweep.old.plan) }
    ensures { Did (RestUses sweep.old.plan rows.now.counts rows.now.pushes.now (i / sweep.old.plan.k) (i % sweep.old.plan.k)) sweep.old sweep.new }
{
    let s = sweep.plan;
    let (t, a) = thread_and_pair(s, i);
    rows_of::<Push>(sweep, t, a, rows.pushes, rows.counts.pushes);
    guarantees(sweep, t, s.p_from(t, a));
}

// A round put many marks if it put more than so many for each stretch of P facts.
const MANY: usize = 16;

// The end of a round over the stretches of P facts. If it put many marks for each stretch, another begins at once, since there may be more Q facts
// by far. Else the Q facts are gone over; if the round put nothing, or none is left to put, the work ends.
fn end_of_round(sweep: &mut Sweep, rows: &RowLists, turn: Turn) -> Option<Turn>
    requires { RowsIn sweep.old.plan sweep.old.plan.f sweep.old.plan.l rows.now.pops.now rows.now.counts.pops }
    ensures kept { Kept sweep.old sweep.new }
    ensures ends { Ends sweep.old.plan rows.now.counts rows.now.pops.now sweep.old.put turn sweep.old.pass sweep.old.mem.now
        result sweep.new.pass sweep.new.mem.now }
{
    if turn.before.saturating_sub(sweep.pass.left) > stretch_count(sweep.plan) * MANY {
        return Some(Turn {
            stretch: 0,
            before: sweep.pass.left,
        });
    }
    q_facts(sweep, rows);
    let left = sweep.pass.left;
    if left == turn.before || left == 0 {
        return None;
    }
    Some(Turn {
        stretch: 0,
        before: left,
    })
}

// The turn after this one, of which rule 4 is done, or none where the work ends; before that, `had` marks could still be put.
pub fn next_turn(sweep: &mut Sweep, rows: &RowLists, turn: Turn, had: usize) -> Option<Turn>
    requires { RowsIn sweep.old.plan sweep.old.plan.l sweep.old.plan.f rows.now.pushes.now rows.now.counts.pushes
        × RowsIn sweep.old.plan sweep.old.plan.f sweep.old.plan.l rows.now.pops.now rows.now.counts.pops
        × (turn.stretch < stretch_count sweep.old.plan) }
    ensures kept { Kept sweep.old sweep.new }
    ensures follows { Follows sweep.old.plan rows.now.counts rows.now.pushes.now rows.now.pops.now sweep.old.put turn had sweep.old.pass sweep.old.mem.now
        result sweep.new.pass sweep.new.mem.now }
{
    p_rest(sweep, rows, turn.stretch);
    let left = sweep.pass.left;
    if left == 0 {
        return None;
    }
    if left != had {
        return Some(turn);
    }
    match next_stretch(sweep, turn.stretch + 1) {
        Some(stretch) => Some(Turn { stretch, ..turn }),
        None => end_of_round(sweep, rows, turn),
    }
}
