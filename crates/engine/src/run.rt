// The least relations of a table in lent memory, within a budget; and the smallest position that a rule gives and that has no mark.
ghost use Rattle.std.specs.Prelude.{◌≡◌, ◌<◌, ◌≤◌};
ghost use Rattle.files.specs.Table.{Table};
ghost use Rattle.store.specs.Marking.{room};
ghost use Rattle.engine.specs.Given.{RowsOf, StartOf};
ghost use Rattle.engine.specs.InRange.{StartIn};
ghost use Rattle.engine.specs.Answers.{Ran, Confirmed};
ghost use Rattle.engine.specs.StartFacts.{start_at};
ghost use Rattle.engine.specs.Starting.{begun};

use crate::work::work;
use positions::plan::Plan;
use store::marks::{clear, put_mark};
use store::rows::{RowLists, cell};
use uses::lines::Pass;

// Where the start fact of thread t stands.
// g and `locals` are two parameters, here and below: `StartIn` and `StartOf` of specs/ speak of both.
pub fn start_at(s: Plan, g: usize, locals: &[u8], t: usize) -> usize
    requires { StartIn s g locals.now × (t < s.n) }
    ensures { (result ≡ start_at s g locals.now t) × (result < s.w) }
{
    let c = s.pair(g, cell(locals, t));
    s.p_at(t, c) + c * s.k
}

// Rule 1: a mark for each thread's start fact.
fn start(s: Plan, g: usize, locals: &[u8], mem: &mut [u8])
    requires { StartIn s g locals.now × (s.w ≤ room mem.old) }
    ensures { mem.new ≡ begun s g locals.now s.n mem.old }
{
    for t in 0..s.n {
        put_mark(mem, start_at(s, g, locals, t));
    }
}

// Works the least relations out, and tells how many facts they have, or that they have more than the budget. The memory has room for exactly w
// marks; whatever it held changes nothing.
pub fn run(
    plan: Plan,
    rows: &RowLists,
    g: usize,
    locals: &[u8],
    mem: &mut [u8],
    budget: usize,
) -> Option<usize>
    requires { ((T : Table) × RowsOf T plan rows.now.counts rows.now.steps.now rows.now.pushes.now rows.now.pops.now × StartOf T g locals.now)
        × (room mem.old ≡ plan.w) }
    ensures { (T : Table) → RowsOf T plan rows.now.counts rows.now.steps.now rows.now.pushes.now rows.now.pops.now
        → StartOf T g locals.now → Ran T budget result mem.new }
{
    clear(mem);
    start(plan, g, locals, mem);
    let started = plan.n - 1;
    if budget <= started {
        clear(mem);
        return None;
    }
    // One more than the budget has left after the start facts. It comes to 0 exactly if a mark is to be put that the budget does not have: then there
    // are more facts than the budget.
    let left = budget - started;
    let end = work(plan, rows, mem, true, Pass { best: plan.w, left });
    if end.left == 0 {
        clear(mem);
        return None;
    }
    Some(budget - (end.left - 1))
}

// The smallest position that one use of rules 2 to 7 gives from marked facts and that has no mark. The memory may mark any facts, and is as before.
pub fn missing(plan: Plan, rows: &RowLists, mem: &mut [u8]) -> Option<usize>
    requires { ((T : Table) × RowsOf T plan rows.now.counts rows.now.steps.now rows.now.pushes.now rows.now.pops.now) × (plan.w ≤ room mem.old) }
    ensures found { (T : Table) → RowsOf T plan rows.now.counts rows.now.steps.now rows.now.pushes.now rows.now.pops.now
        → Confirmed T mem.old result }
    ensures kept { mem.new ≡ mem.old }
{
    let pass = Pass {
        best: plan.w,
        left: 1,
    };
    let end = work(plan, rows, mem, false, pass);
    if end.best < plan.w {
        Some(end.best)
    } else {
        None
    }
}
