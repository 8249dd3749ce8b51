// A pass over every use on Q facts: rules 3, 6 and 7, stretch by stretch. A stretch with no mark is passed over.
ghost use Rattle.std.specs.Prelude.{◌<◌};
ghost use Rattle.uses.specs.Ranges.{RowsIn};
ghost use Rattle.uses.specs.Uses.{Upto};
ghost use Rattle.uses.specs.Sweeping.{Did};
ghost use Rattle.uses.specs.AllUses.{FrameUses, QStretches, AllQUses};
ghost use Rattle.engine.specs.Turns.{stretch_count};

use crate::stretches::{stretch_count, thread_and_pair};
use passes::calls::calls;
use passes::guarantees::guarantees;
use passes::pushes_and_pops::{Pop, rows_of};
use store::rows::RowLists;
use uses::sweep::Sweep;

// Rules 6 and 3 on the stretch of Q facts of t from pair a with frame f.
fn frame(sweep: &mut Sweep, t: usize, a: usize, f: usize)
    requires { (t < sweep.old.plan.n) × (a < sweep.old.plan.k) × (f < sweep.old.plan.f) }
    ensures { Did (FrameUses sweep.old.plan t a f) sweep.old sweep.new }
{
    let s = sweep.plan;
    let y = s.q_from(t, a) + f * s.k;
    if sweep.some(y, s.k) {
        calls(sweep, t, y);
        guarantees(sweep, t, y);
    }
}

// Rules 6 and 3 on the stretches of Q facts of t from pair a, one for each frame.
fn frames(sweep: &mut Sweep, t: usize, a: usize)
    requires { (t < sweep.old.plan.n) × (a < sweep.old.plan.k) }
    ensures { Did (Upto (FrameUses sweep.old.plan t a) sweep.old.plan.f) sweep.old sweep.new }
{
    let s = sweep.plan;
    for f in 0..s.f {
        frame(sweep, t, a, f);
    }
}

// Rules 6, 3 and 7 on the stretches of Q facts that have the thread and the pair of stretch i of the P facts. Where none of them has a mark, they
// are passed over together.
fn q_stretches(sweep: &mut Sweep, rows: &RowLists, i: usize)
    requires { RowsIn sweep.old.plan sweep.old.plan.f sweep.old.plan.l rows.now.pops.now rows.now.counts.pops × (i < stretch_count sweep.old.plan) }
    ensures { Did (QStretches sweep.old.plan rows.now.counts rows.now.pops.now i) sweep.old sweep.new }
{
    let s = sweep.plan;
    let n = s.f * s.k;
    if sweep.some(s.q + i * n, n) {
        let (t, a) = thread_and_pair(s, i);
        frames(sweep, t, a);
        rows_of::<Pop>(sweep, t, a, rows.pops, rows.counts.pops);
    }
}

// Rules 6, 3 and 7 on all Q facts. A table without frames has none.
pub fn q_facts(sweep: &mut Sweep, rows: &RowLists)
    requires { RowsIn sweep.old.plan sweep.old.plan.f sweep.old.plan.l rows.now.pops.now rows.now.counts.pops }
    ensures { Did (AllQUses sweep.old.plan rows.now.counts rows.now.pops.now) sweep.old sweep.new }
{
    let s = sweep.plan;
    if s.f == 0 {
        return;
    }
    for i in 0..stretch_count(s) {
        if sweep.pass.left == 0 {
            return;
        }
        q_stretches(sweep, rows, i);
    }
}
