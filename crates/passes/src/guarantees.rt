// Rules 2 and 3 on a stretch of facts of a thread t, which stand from x on: P facts from one pair, or Q facts from one pair with one frame. A
// guarantee of another thread moves those that end at its first shared store. Guarantees that several threads have from one shared store to
// another move the same facts, so they are taken together: the facts are gone over once.
ghost use Rattle.std.specs.Prelude.{◌+◌, ◌*◌, ◌<◌, ◌≤◌};
ghost use Rattle.store.specs.Marking.{Among, SomeIn, Is};
ghost use Rattle.uses.specs.Uses.{Upto};
ghost use Rattle.uses.specs.Sweeping.{Did};
ghost use Rattle.uses.specs.RuleUses.{MovedTo, MovedFrom};
ghost use Rattle.passes.specs.Acting.{Acts};

use store::marks::next_mark;
use uses::sweep::Sweep;

// Whether thread e has the guarantee from one shared store to another, and is not t.
fn acts(sweep: &Sweep, t: usize, e: usize, from: usize, to: usize) -> bool
    requires { (e < sweep.now.plan.n) × (from < sweep.now.plan.g) × (to < sweep.now.plan.g) }
    ensures { Is (Acts sweep.now.plan t sweep.now.mem.now from to e) result }
{
    e != t && sweep.has(sweep.plan.g_position(e, from, to))
}

// Whether a thread other than t has the guarantee.
fn one_acts(sweep: &Sweep, t: usize, from: usize, to: usize) -> bool
    requires { (from < sweep.now.plan.g) × (to < sweep.now.plan.g) }
    ensures { Is (Among (Acts sweep.now.plan t sweep.now.mem.now from to) sweep.now.plan.n) result }
{
    let s = sweep.plan;
    for e in 0..s.n {
        if acts(sweep, t, e, from, to) {
            return true;
        }
    }
    false
}

// Rule 2 or 3 for the guarantees from one shared store to another.
fn guarantee(sweep: &mut Sweep, t: usize, x: usize, from: usize, to: usize)
    requires { (from < sweep.old.plan.g) × (to < sweep.old.plan.g) × (x + sweep.old.plan.k ≤ sweep.old.plan.w) }
    ensures { Did (MovedTo sweep.old.plan t x from to) sweep.old sweep.new }
{
    let s = sweep.plan;
    if one_acts(sweep, t, from, to) {
        sweep.line(x + from * s.l, x + to * s.l, s.l);
    }
}

// Whether a fact of the stretch ends at shared store g. It stops at the first mark, which is near where there are many.
fn ends_at(sweep: &Sweep, x: usize, g: usize) -> bool
    requires { (g < sweep.now.plan.g) × (x + sweep.now.plan.k ≤ sweep.now.plan.w) }
    ensures { Is (SomeIn sweep.now.mem.now (x + g * sweep.now.plan.l) sweep.now.plan.l) result }
{
    let s = sweep.plan;
    let first = x + g * s.l;
    next_mark(sweep.mem, first, first + s.l).is_some()
}

// Rule 2 or 3 for the guarantees from one shared store. Where no fact of the stretch ends there, they move nothing.
fn guarantees_from(sweep: &mut Sweep, t: usize, x: usize, from: usize)
    requires { (from < sweep.old.plan.g) × (x + sweep.old.plan.k ≤ sweep.old.plan.w) }
    ensures { Did (MovedFrom sweep.old.plan t x from) sweep.old sweep.new }
{
    if !ends_at(sweep, x, from) {
        return;
    }
    let s = sweep.plan;
    for to in 0..s.g {
        guarantee(sweep, t, x, from, to);
    }
}

// Rule 2 or 3 for the guarantees from each shared store: rule 2 if the stretch is one of P facts, else rule 3.
// Inlined always: the sweep then stays in registers. By a call the plan and the pass are read and stored anew for each pair of shared stores, which takes
// a third more time where the lines are short.
#[inline(always)]
pub fn guarantees(sweep: &mut Sweep, t: usize, x: usize)
    requires { x + sweep.old.plan.k ≤ sweep.old.plan.w }
    ensures { Did (Upto (MovedFrom sweep.old.plan t x) sweep.old.plan.g) sweep.old sweep.new }
{
    let s = sweep.plan;
    for from in 0..s.g {
        guarantees_from(sweep, t, x, from);
    }
}
