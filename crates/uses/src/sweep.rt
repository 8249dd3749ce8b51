// A pass over uses at the positions of a plan, in lent memory that has room for them.
ghost use Rattle.std.specs.Prelude.{◌+◌, ◌<◌, ◌≤◌};
ghost use Rattle.store.specs.Marking.{room, Has, SomeIn, Is};

use crate::lines::{Pass, line, one};
use positions::plan::Plan;
use store::marks::{has, some};

// The plan, the memory, whether marks are put or looked at, and what the pass carries. Its users' `requires` bound a thread t by n, a pair a by k, a
// shared store by g, a frame by f, and the k places of a stretch by w, and name the rows that are in range: these are numbers within the sizes of the sweep's own
// plan, and rows of it; a type for them would have to carry the plan too.
#[derive(Drop)]
pub struct Sweep<'a> {
    pub plan: Plan,
    pub mem: &'a mut [u8],
    pub put: bool,
    pub pass: Pass,
    ghost room: { plan.w ≤ room mem.now },
}

impl<'a> Sweep<'a> {
    ghost use Rattle.uses.specs.Uses.{Single, Upto, Line};
    ghost use Rattle.uses.specs.Sweeping.{Did};

    // Whether there is a mark at p.
    pub fn has(&self, p: usize) -> bool
        requires { p < self.now.plan.w }
        ensures { Is (Has self.now.mem.now p) result }
    {
        has(self.mem, p)
    }

    // Whether there is a mark among the n places from x on.
    pub fn some(&self, x: usize, n: usize) -> bool
        requires { x + n ≤ self.now.plan.w }
        ensures { Is (SomeIn self.now.mem.now x n) result }
    {
        some(self.mem, x, n)
    }

    // One use: x gives y.
    pub fn one(&mut self, x: usize, y: usize)
        requires { (x < self.old.plan.w) × (y < self.old.plan.w) }
        ensures { Did (Single x y) self.old self.new }
    {
        self.pass = one(self.mem, self.put, self.pass, x, y);
    }

    // A line of n uses: x + j gives y + j.
    pub fn line(&mut self, x: usize, y: usize, n: usize)
        requires { (x + n ≤ self.old.plan.w) × (y + n ≤ self.old.plan.w) }
        ensures { Did (Upto (Line x y) n) self.old self.new }
    {
        self.pass = line(self.mem, self.put, self.pass, x, y, n);
    }
}
