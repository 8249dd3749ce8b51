// The cells that a row asks of the threads at a shared store, in row 0 as in the rows of the file. Row 0 asks that some thread is in the failed
// store. One thread is picked for it, such that the smallest list with that thread there is the smallest of all.
ghost use Rattle.std.specs.Prelude.{◌≡◌, ◌+◌, ◌*◌, ◌<◌, ◌≤◌, length};
ghost use Rattle.files.specs.Table.{most_threads};
ghost use Rattle.reaching.specs.Reaching.{Reached, Picked, Aimed, row_cell, asked_cell};

use crate::reach::{Facts, cell_fits};
use store::rows::cell;

impl<'a> Facts<'a> {
    // The thread that is to be in the failed store k at g: the first whose smallest store that is; else the last that reaches it.
    fn pick(&self, g: usize, k: usize) -> Option<usize>
        requires { (g < self.now.plan.g) × (k < self.now.plan.l) }
        ensures { Picked (Reached self.now.plan self.now.mem.now g) self.now.plan.n k result }
    {
        let plan = self.plan;
        let mut last = None;
        for t in 0..plan.n {
            if self.reached(t, g, k) {
                if self.least(t, g, 0) == Some(k) {
                    return Some(t);
                }
                last = Some(t);
            }
        }
        last
    }
}

// What a table counts as errors: its failed cell, and its n error rows, five bytes a row. The cell is 0 for none or any, and k + 1 for store k: these
// are the file's numbers, which `Cell` of model speaks of. The rows stand first in memory of fixed size that is longer than they are, so n stands
// beside it, as `ErrorsOf` of verdict has it.
#[derive(Clone, Copy)]
pub struct ErrorRows<'a> {
    pub failed: usize,
    pub rows: &'a [u8],
    pub n: usize,
    ghost whole: { 5 * n ≤ length rows.now },
}

impl<'a> ErrorRows<'a> {
    // Cell j of row i, counted from 0.
    fn cell(&self, i: usize, j: usize) -> usize
        requires { (i < self.now.n) × (j < 5) }
        ensures { result ≡ row_cell self.now.rows.now i j }
    {
        cell(self.rows, 5 * i + j)
    }

    // For row 0, the thread that is to be in the failed store at g; for a row of the file, thread 0 if the row fits g.
    // Thread 0 says no more than that the row fits: `Aimed` of specs/ has it so, and `asked_cell` does not look at the thread of such a row.
    pub fn aim(&self, facts: &Facts, row: usize, g: usize) -> Option<usize>
        requires { (self.now.failed ≤ facts.now.plan.l) × (row ≤ self.now.n) × (g < facts.now.plan.g) }
        ensures { Aimed facts.now.plan self.now.failed self.now.rows.now facts.now.mem.now row g result }
    {
        if row > 0 {
            cell_fits(self.cell(row - 1, 0), g).then_some(0)
        } else {
            facts.pick(g, self.failed.checked_sub(1)?)
        }
    }

    // The cell of thread t in a row. In row 0 it is the failed store for thread u, and any store for the others.
    pub fn cell_of(&self, row: usize, u: usize, t: usize) -> usize
        requires { (row ≤ self.now.n) × (t < most_threads) }
        ensures { result ≡ asked_cell self.now.failed self.now.rows.now row u t }
    {
        if row > 0 {
            self.cell(row - 1, 1 + t)
        } else if t == u {
            self.failed
        } else {
            0
        }
    }
}
