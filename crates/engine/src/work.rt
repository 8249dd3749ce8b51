// The work on a table: the check's own list of its step rows, lent to rule 4's walker in each turn.
ghost use Rattle.std.specs.Prelude.{◌≤◌};
ghost use Rattle.store.specs.Marking.{room};
ghost use Rattle.engine.specs.InRange.{Given};
ghost use Rattle.uses.specs.AllUses.{AllUses};
ghost use Rattle.uses.specs.Sweeping.{Kept};
ghost use Rattle.engine.specs.Working.{Worked};

use crate::stretches::thread_and_pair;
use crate::turns::{Turn, next_turn};
use positions::plan::Plan;
use steps::walk;
use store::rows::{RowLists, step_rows};
use uses::lines::Pass;
use uses::sweep::Sweep;

// Takes turns until the work ends.
// The rows stand beside the sweep, here and in the modules below: it is of `uses`, whose functions have no rows.
fn take_turns(sweep: &mut Sweep, rows: &RowLists)
    requires { Given sweep.old.plan rows.now.counts rows.now.steps.now rows.now.pushes.now rows.now.pops.now }
    ensures kept { Kept sweep.old sweep.new }
    ensures worked { Worked (AllUses sweep.old.plan rows.now.counts rows.now.steps.now rows.now.pushes.now rows.now.pops.now)
        sweep.old.put sweep.old.pass sweep.new.pass sweep.old.mem.now sweep.new.mem.now }
{
    let s = sweep.plan;
    let n = rows.counts.steps;
    // An array of fixed size with its number of rows: a list of n rows would be on the heap.
    let steps = step_rows(rows.steps, n);
    let mut next = Some(Turn {
        stretch: 0,
        before: sweep.pass.left,
    });
    // A loop that goes on as the turns say: a stretch may have its turn again or be passed over, so no range counts them.
    while let Some(turn) = next {
        let had = sweep.pass.left;
        let (t, a) = thread_and_pair(s, turn.stretch);
        walk(sweep, t, a, &steps[..n]);
        next = next_turn(sweep, rows, turn, had);
    }
}

// Puts marks until nothing lacks or none is left to put, or looks once over every use.
pub fn work(plan: Plan, rows: &RowLists, mem: &mut [u8], put: bool, pass: Pass) -> Pass
    requires { Given plan rows.now.counts rows.now.steps.now rows.now.pushes.now rows.now.pops.now × (plan.w ≤ room mem.old) }
    ensures { Worked (AllUses plan rows.now.counts rows.now.steps.now rows.now.pushes.now rows.now.pops.now) put pass result mem.old mem.new }
{
    let mut sweep = Sweep {
        plan,
        mem,
        put,
        pass,
    };
    take_turns(&mut sweep, rows);
    sweep.pass
}
