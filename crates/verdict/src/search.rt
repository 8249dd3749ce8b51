// The search for the smallest witness: "smallest row number, then smallest g, then the smallest list of local stores" (document 01). Rows,
// shared stores and threads are searched in ascending order, and the search is left at the first witness.
ghost use Rattle.std.specs.Prelude.{◌<◌, ◌≤◌};
ghost use Rattle.files.specs.Table.{Table};
ghost use Rattle.verdict.specs.ErrorRows.{ErrorsOf, Found, Judged};

use reaching::reach::Facts;
use reaching::row_cells::ErrorRows;

// A witness of an error: its row, its shared store, and the local stores of threads 0 to 3, with 0 for a thread that is not there. There are four
// numbers since C is told four and memory is fixed; a plan's n says how many count.
#[derive(Clone, Copy, PartialEq, Eq)]
pub struct Witness {
    pub row: usize,
    pub g: usize,
    pub locals: [usize; 4],
}

// The verdict. An enum of its own: as an Option<Witness>, None would read as "no verdict".
#[derive(Clone, Copy, PartialEq, Eq)]
pub enum Verdict {
    Safe,
    Possible(Witness),
}

// The smallest list of local stores that a row allows at g, if it allows any there.
// `facts` and `errors` are two parameters: the search for start facts has the facts without error rows.
fn smallest(facts: &Facts, errors: &ErrorRows, row: usize, g: usize) -> Option<[usize; 4]>
    requires { ((T : Table) × ErrorsOf T facts.now.plan errors.now.failed errors.now.rows.now errors.now.n) × (row ≤ errors.now.n)
        × (g < facts.now.plan.g) }
    ensures { (T : Table) → ErrorsOf T facts.now.plan errors.now.failed errors.now.rows.now errors.now.n
        → Found T facts.now.mem.now row g result }
{
    let plan = facts.plan;
    let u = errors.aim(facts, row, g)?;
    let mut locals = [0; 4];
    // A store is put by its index, for the reason at `row_through` of cells: `Found` says what the stores are.
    for t in 0..plan.n {
        let cell = errors.cell_of(row, u, t);
        locals[t] = facts.least(t, g, cell)?;
    }
    Some(locals)
}

// The verdict on the facts that a memory marks, of a table with these error rows.
pub fn judge(facts: &Facts, errors: &ErrorRows) -> Verdict
    requires { (T : Table) × ErrorsOf T facts.now.plan errors.now.failed errors.now.rows.now errors.now.n }
    ensures { (T : Table) → ErrorsOf T facts.now.plan errors.now.failed errors.now.rows.now errors.now.n
        → Judged T facts.now.mem.now result }
{
    let plan = facts.plan;
    for row in 0..errors.n + 1 {
        for g in 0..plan.g {
            if let Some(locals) = smallest(facts, errors, row, g) {
                return Verdict::Possible(Witness { row, g, locals });
            }
        }
    }
    Verdict::Safe
}
