// The check: a table's bytes, working memory and a budget in; an answer out.
ghost use Rattle.std.specs.Prelude.{◌≡◌, ◌≤◌, length, take, drop};
ghost use Rattle.files.specs.Table.{Table, W};
ghost use Rattle.engine.specs.Answers.{Ran};
ghost use Rattle.check_call.specs.Checking.{OfTable, Checked};
ghost use Rattle.check_call.specs.Lent.{StoredAs};

use crate::answer::{CheckRefusal, Done};
use crate::stored::StoredTable;
use engine::run::run;
use files::table::{TableRows, read_table};
use verdict::search::judge;

// The least relations of a table in the first w bytes of a memory, where w is the table's W; and how many facts there are, if no more than the
// budget.
// w is `table.w()`, which the caller has just compared with the memory: it is handed on, and not worked out twice.
fn run_in(table: &StoredTable, w: usize, mem: &mut [u8], budget: usize) -> Option<usize>
    requires { ((T : Table) × StoredAs T table.now × (w ≡ W T)) × (w ≤ length mem.old) }
    ensures ran { (T : Table) → StoredAs T table.now → Ran T budget result (take w mem.new) }
    ensures rest { drop w mem.new ≡ drop w mem.old }
{
    let start = usize::from(table.header.start);
    let firsts = table.header.firsts;
    run(
        table.plan(),
        &table.lists(),
        start,
        &firsts,
        &mut mem[..w],
        budget,
    )
}

// Checks a table that was read, in working memory of any length.
fn check_stored(table: &StoredTable, mem: &mut [u8], budget: usize) -> Result<Done, CheckRefusal>
    requires { (T : Table) × StoredAs T table.now }
    ensures { (T : Table) → StoredAs T table.now → OfTable T budget mem.old result mem.new }
{
    let w = table.w();
    if mem.len() < w {
        return Err(CheckRefusal::Short { w });
    }
    let Some(count) = run_in(table, w, mem, budget) else {
        return Err(CheckRefusal::Over { budget });
    };
    let verdict = judge(&table.facts(mem), &table.errors());
    Ok(Done { count, verdict })
}

// Checks a table. Its rows stand in the check's own memory.
// `check_claim` of claim_check_call begins as this does; its refusals are of another enum.
pub fn check(table: &[u8], mem: &mut [u8], budget: usize) -> Result<Done, CheckRefusal>
    ensures { Checked table.now budget mem.old result mem.new }
{
    let mut rows = TableRows::new();
    let read = read_table(table, &mut rows)?;
    let stored = StoredTable {
        header: read.header,
        counts: read.counts,
        rows: &rows,
    };
    check_stored(&stored, mem, budget)
}
