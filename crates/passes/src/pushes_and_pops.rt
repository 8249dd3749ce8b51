// Rules 5 and 7, the rules with a push or a pop row, on the facts of a thread t from a pair a. One loop goes over the rows of either.
ghost use Rattle.std.specs.Prelude.{ℕ, ◌<◌, ◌≤◌};
ghost use Rattle.store.specs.declared.rows.Row.{Row};
ghost use Rattle.store.specs.Reading.{row_of};
ghost use Rattle.positions.specs.Plans.{Plan};
ghost use Rattle.uses.specs.Ranges.{RowIn, RowsIn};
ghost use Rattle.uses.specs.Uses.{Uses};
ghost use Rattle.uses.specs.Sweeping.{Did};
ghost use Rattle.uses.specs.RuleUses.{PushUse, PopUse, OfRow, OfRows};

use store::rows::{Row, row_at};
use uses::sweep::Sweep;

// A rule with a row: its uses of a row, and the bounds of the row's last two numbers.
pub trait RowRule {
    ghost uses: { Plan → ℕ → ℕ → Row → Uses };

    ghost u_most: { Plan → ℕ };

    ghost v_most: { Plan → ℕ };

    // The rule for one row.
    fn row(sweep: &mut Sweep, t: usize, a: usize, r: Row)
        requires { (t < sweep.old.plan.n) × (a < sweep.old.plan.k) × RowIn sweep.old.plan (u_most sweep.old.plan) (v_most sweep.old.plan) r }
        ensures { Did (uses sweep.old.plan t a r) sweep.old sweep.new };
}

// The rule of push rows, rule 5.
#[derive(Clone, Copy)]
pub struct Push;

// The rule of pop rows, rule 7.
#[derive(Clone, Copy)]
pub struct Pop;

impl RowRule for Push {
    ghost uses = { PushUse };

    ghost u_most = { λ s. s.l };

    ghost v_most = { λ s. s.f };

    // The P fact that ends at the row's place gives the Q fact of the call and the P fact of the callee's start.
    fn row(sweep: &mut Sweep, t: usize, a: usize, r: Row) {
        let s = sweep.plan;
        let g = usize::from(r.g);
        let callee = s.pair(g, usize::from(r.u));
        let x = s.p_position(t, a, s.pair(g, usize::from(r.l)));
        let y = s.q_position(t, a, usize::from(r.v), callee);
        let z = s.p_position(t, callee, callee);
        sweep.one(x, y);
        sweep.one(x, z);
    }
}

impl RowRule for Pop {
    ghost uses = { PopUse };

    ghost u_most = { λ s. s.f };

    ghost v_most = { λ s. s.l };

    // The Q fact with the row's frame that ends at its place gives the P fact after the return.
    fn row(sweep: &mut Sweep, t: usize, a: usize, r: Row) {
        let s = sweep.plan;
        let g = usize::from(r.g);
        let x = s.q_position(t, a, usize::from(r.u), s.pair(g, usize::from(r.l)));
        let y = s.p_position(t, a, s.pair(g, usize::from(r.v)));
        sweep.one(x, y);
    }
}

// The rule for one row, if it is a row of t.
fn row<R: RowRule>(sweep: &mut Sweep, t: usize, a: usize, r: Row)
    requires { (t < sweep.old.plan.n) × (a < sweep.old.plan.k) × RowIn sweep.old.plan (R.u_most sweep.old.plan) (R.v_most sweep.old.plan) r }
    ensures { Did (OfRow t (R.uses sweep.old.plan t a) r) sweep.old sweep.new }
{
    if usize::from(r.t) == t {
        R::row(sweep, t, a, r);
    }
}

// The rule for the first n rows of a list of bytes.
pub fn rows_of<R: RowRule>(sweep: &mut Sweep, t: usize, a: usize, rows: &[u8], n: usize)
    requires { (t < sweep.old.plan.n) × (a < sweep.old.plan.k)
        × RowsIn sweep.old.plan (R.u_most sweep.old.plan) (R.v_most sweep.old.plan) rows.now n }
    ensures { Did (OfRows t (R.uses sweep.old.plan t a) (row_of rows.now) n) sweep.old sweep.new }
{
    for i in 0..n {
        row::<R>(sweep, t, a, row_at(rows, i));
    }
}
