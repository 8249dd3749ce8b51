// The start facts that a memory marks.
ghost use Rattle.std.specs.Prelude.{◌≡◌, ◌<◌};
ghost use Rattle.files.specs.Table.{Table, Sound};
ghost use Rattle.positions.specs.Plans.{plan_of};
ghost use Rattle.store.specs.Marking.{Has, Is};
ghost use Rattle.engine.specs.StartFacts.{start_at};
ghost use Rattle.engine.specs.InRange.{StartIn};
ghost use Rattle.engine.specs.Given.{StartOf};
ghost use Rattle.findings.specs.Found.{Started};

use engine::run::start_at;
use reaching::reach::Facts;
use store::marks::has;

// Whether thread t lacks its start fact.
// g and `locals` are two parameters, here and below: `StartIn` and `StartOf` of engine speak of both.
fn lacks_start(facts: &Facts, g: usize, locals: &[u8; 4], t: usize) -> bool
    requires { StartIn facts.now.plan g locals.now × (t < facts.now.plan.n) }
    ensures { Is (¬ Has facts.now.mem.now (start_at facts.now.plan g locals.now t)) result }
{
    !has(facts.mem, start_at(facts.plan, g, locals, t))
}

// The smallest thread that lacks its start fact.
pub fn lacking_start(facts: &Facts, g: usize, locals: &[u8; 4]) -> Option<usize>
    requires { (T : Table) × Sound T × (facts.now.plan ≡ plan_of T) × StartOf T g locals.now }
    ensures { (T : Table) → Sound T → facts.now.plan ≡ plan_of T → StartOf T g locals.now → Started T facts.now.mem.now result }
{
    let plan = facts.plan;
    (0..plan.n).find(|&t| lacks_start(facts, g, locals, t))
}
