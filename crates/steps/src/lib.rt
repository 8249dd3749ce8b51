// Rule 4 on the P facts of a thread t from a pair a. One walker goes over a list of step rows. It is an inner layer: its
// functions have `requires`.
#![tactic(auto)]

ghost use Rattle.std.specs.Prelude.{◌<◌, length};
ghost use Rattle.store.specs.Reading.{nth};
ghost use Rattle.uses.specs.Ranges.{RowIn, EachIn};
ghost use Rattle.uses.specs.Sweeping.{Did};
ghost use Rattle.uses.specs.RuleUses.{StepUse, StepRowUse, StepUses};

use store::rows::Row;
use uses::sweep::Sweep;

// Rule 4 for one row: the P fact that ends at the row's place gives the P fact to where it leads, and its guarantee.
fn step(sweep: &mut Sweep, t: usize, a: usize, r: Row)
    requires { (t < sweep.old.plan.n) × (a < sweep.old.plan.k) × RowIn sweep.old.plan sweep.old.plan.g sweep.old.plan.l r }
    ensures { Did (StepUse sweep.old.plan t a r) sweep.old sweep.new }
{
    let s = sweep.plan;
    let g = usize::from(r.g);
    let u = usize::from(r.u);
    let x = s.p_position(t, a, s.pair(g, usize::from(r.l)));
    let y = s.p_position(t, a, s.pair(u, usize::from(r.v)));
    let z = s.g_position(t, g, u);
    sweep.one(x, y);
    sweep.one(x, z);
}

// Rule 4 for one row, if it is a row of t.
// Beside `row` of passes, which is generic over rules of rows as bytes: its contract is of `StepRowUse`, rule 4's own words, and one function of four
// lines for both would stand in a third crate, no plainer.
fn step_row(sweep: &mut Sweep, t: usize, a: usize, r: Row)
    requires { (t < sweep.old.plan.n) × (a < sweep.old.plan.k) × RowIn sweep.old.plan sweep.old.plan.g sweep.old.plan.l r }
    ensures { Did (StepRowUse sweep.old.plan t a r) sweep.old sweep.new }
{
    if usize::from(r.t) == t {
        step(sweep, t, a, r);
    }
}

// Rule 4 for each row of a list, if it is a row of t. A loop of its own beside `passes::pushes_and_pops::rows_of`: document 01 asks that the rules walk
// the step rows as a list, and one loop over a list and over bytes would take where a row comes from as one more trait, no plainer than this `for`.
pub fn walk(sweep: &mut Sweep, t: usize, a: usize, rows: &[Row])
    requires { (t < sweep.old.plan.n) × (a < sweep.old.plan.k)
        × EachIn sweep.old.plan sweep.old.plan.g sweep.old.plan.l (nth rows.now) (length rows.now) }
    ensures { Did (StepUses sweep.old.plan t a (nth rows.now) (length rows.now)) sweep.old sweep.new }
{
    for row in rows {
        step_row(sweep, t, a, *row);
    }
}
