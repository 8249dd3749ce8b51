// A table that was read, with its rows in memory: what the rules, the verdict and a search for faults ask of it.
ghost use Rattle.std.specs.Prelude.{◌≡◌, ◌≤◌, length};
ghost use Rattle.files.specs.Table.{Table, W, w_of};
ghost use Rattle.positions.specs.Plans.{Plan, plan_of};
ghost use Rattle.engine.specs.Given.{RowsOf};
ghost use Rattle.verdict.specs.ErrorRows.{ErrorsOf};
ghost use Rattle.check_call.specs.Lent.{StoredAs, LendsRows};

use files::header::{Header, w_of};
use files::table::{Counts, TableRows};
use positions::plan::Plan;
use reaching::reach::Facts;
use reaching::row_cells::ErrorRows;
use store::rows::{RowCounts, RowLists};

// The header, how many rows each list has, and the rows as the table reader leaves them. That they are some table's stands in `requires`, here of
// `plan`, `facts` and `errors`: a ghost field is a mere proposition, and `run` and `judge` ask for the table itself; the `ensures` say which it is.
#[derive(Clone, Copy)]
pub struct StoredTable<'a> {
    pub header: Header,
    pub counts: Counts,
    pub rows: &'a TableRows,
}

impl<'a> StoredTable<'a> {
    // W, the bytes of working memory that the table takes.
    pub fn w(&self) -> usize
        ensures same { result ≡ w_of self.now.header.sizes.threads self.now.header.sizes.shared self.now.header.sizes.locals
            self.now.header.sizes.frames }
        ensures of_table { (T : Table) → StoredAs T self.now → result ≡ W T }
    {
        w_of(self.header.sizes)
    }

    // Where the table's facts stand.
    pub fn plan(&self) -> Plan
        requires { (T : Table) × StoredAs T self.now }
        ensures { (T : Table) → StoredAs T self.now → result ≡ plan_of T }
    {
        Plan::of(self.header.sizes)
    }

    // The rows of the steps, pushes and pops.
    pub fn lists(&self) -> RowLists<'a>
        ensures same { LendsRows self.now result }
        ensures of_table { (T : Table) (s : Plan) → StoredAs T self.now → s ≡ plan_of T
            → RowsOf T s result.counts result.steps.now result.pushes.now result.pops.now }
    {
        let rows = self.rows;
        RowLists {
            counts: RowCounts {
                steps: self.counts.steps,
                pushes: self.counts.pushes,
                pops: self.counts.pops,
            },
            steps: &rows.steps,
            pushes: &rows.pushes,
            pops: &rows.pops,
        }
    }

    // The facts of the table that a memory marks.
    pub fn facts<'m>(&self, mem: &'m [u8]) -> Facts<'m>
        requires { (T : Table) × StoredAs T self.now × (W T ≤ length mem.now) }
        ensures plan { (T : Table) → StoredAs T self.now → result.plan ≡ plan_of T }
        ensures same { result.mem.now ≡ mem.now }
    {
        Facts {
            plan: self.plan(),
            mem,
        }
    }

    // What counts as an error.
    pub fn errors(&self) -> ErrorRows<'a>
        requires { (T : Table) × StoredAs T self.now }
        ensures same { (result.failed ≡ self.now.header.failed) × (result.rows.now ≡ self.now.rows.now.errors) × (result.n ≡ self.now.counts.errors) }
        ensures of_table { (T : Table) (s : Plan) → StoredAs T self.now → s ≡ plan_of T
            → ErrorsOf T s result.failed result.rows.now result.n }
    {
        let rows = self.rows;
        ErrorRows {
            failed: usize::from(self.header.failed),
            rows: &rows.errors,
            n: self.counts.errors,
        }
    }
}
