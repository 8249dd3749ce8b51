// The local stores that a thread reaches at a shared store.
ghost use Rattle.std.specs.Prelude.{◌<◌, ◌≤◌};
ghost use Rattle.model.specs.Errors.{Cell};
ghost use Rattle.store.specs.Marking.{room, Is};
ghost use Rattle.reaching.specs.Reaching.{Reached, Choice, Least};

use positions::plan::Plan;
use store::marks::has;

// The facts that a memory marks, of a table with this plan.
#[derive(Clone, Copy)]
pub struct Facts<'a> {
    pub plan: Plan,
    pub mem: &'a [u8],
    ghost enough: { plan.w ≤ room mem.now },
}

impl<'a> Facts<'a> {
    // Whether thread t reaches local store l at g: some P fact of t ends there.
    pub fn reached(&self, t: usize, g: usize, l: usize) -> bool
        requires { (t < self.now.plan.n) × (g < self.now.plan.g) × (l < self.now.plan.l) }
        ensures { Is (Reached self.now.plan self.now.mem.now g t l) result }
    {
        let plan = self.plan;
        let k = plan.k;
        let x = plan.p_at(t, plan.pair(g, l));
        (0..k).any(|j| has(self.mem, x + j * k))
    }

    // Whether thread t reaches l at g, and the cell fits l.
    fn choice(&self, t: usize, g: usize, cell: usize, l: usize) -> bool
        requires { (t < self.now.plan.n) × (g < self.now.plan.g) × (l < self.now.plan.l) }
        ensures { Is (Choice (Reached self.now.plan self.now.mem.now g t) cell l) result }
    {
        cell_fits(cell, l) && self.reached(t, g, l)
    }

    // The smallest local store that thread t reaches at g and the cell fits.
    pub fn least(&self, t: usize, g: usize, cell: usize) -> Option<usize>
        requires { (t < self.now.plan.n) × (g < self.now.plan.g) }
        ensures { Least (Choice (Reached self.now.plan self.now.mem.now g t) cell) self.now.plan.l result }
    {
        let plan = self.plan;
        (0..plan.l).find(|&l| self.choice(t, g, cell, l))
    }
}

// Whether an error cell fits store k: 0 fits any, k + 1 fits k.
pub fn cell_fits(cell: usize, k: usize) -> bool
    ensures { Is (Cell cell k) result }
{
    cell == 0 || cell - 1 == k
}
