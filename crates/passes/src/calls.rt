// Rule 6 on a stretch of Q facts of a thread t: those from one pair with one frame, which stand from y on. Each of them goes on with every P fact
// that leads from where it ends.
ghost use Rattle.std.specs.Prelude.{◌+◌, ◌<◌, ◌≤◌};
ghost use Rattle.uses.specs.Uses.{Upto};
ghost use Rattle.uses.specs.Sweeping.{Did};
ghost use Rattle.uses.specs.RuleUses.{CallUse};

use uses::sweep::Sweep;

// Rule 6 for the Q fact to pair b.
fn call(sweep: &mut Sweep, t: usize, y: usize, b: usize)
    requires { (t < sweep.old.plan.n) × (b < sweep.old.plan.k) × (y + sweep.old.plan.k ≤ sweep.old.plan.w) }
    ensures { Did (CallUse sweep.old.plan t y b) sweep.old sweep.new }
{
    let s = sweep.plan;
    if sweep.has(y + b) {
        sweep.line(s.p_from(t, b), y, s.k);
    }
}

// Rule 6 for each Q fact of the stretch.
pub fn calls(sweep: &mut Sweep, t: usize, y: usize)
    requires { (t < sweep.old.plan.n) × (y + sweep.old.plan.k ≤ sweep.old.plan.w) }
    ensures { Did (Upto (CallUse sweep.old.plan t y) sweep.old.plan.k) sweep.old sweep.new }
{
    let s = sweep.plan;
    for b in 0..s.k {
        call(sweep, t, y, b);
    }
}
