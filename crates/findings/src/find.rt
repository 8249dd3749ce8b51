// The answers 9, 10 and 11 of document 01, in this order, or none of them, on the facts that a memory marks.
ghost use Rattle.std.specs.Prelude.{◌≡◌, ◌≤◌, length};
ghost use Rattle.files.specs.Table.{Table, W};
ghost use Rattle.model.specs.Rules.{ClosedWithStarts};
ghost use Rattle.model.specs.Memory.{Marked};
ghost use Rattle.model.specs.Claims.{Finds};
ghost use Rattle.check_call.specs.Lent.{StoredAs};
ghost use Rattle.findings.specs.Found.{finding_of};

use crate::starts::lacking_start;
use check_call::stored::StoredTable;
use engine::run::missing;
use verdict::search::{Verdict, judge};

// The first of 9, 10 and 11 that there is, with its value.
#[derive(Clone, Copy)]
pub enum Fault {
    // The smallest thread that lacks its start fact.
    LacksStart { thread: usize },
    // The smallest position that a rule yields and that is not marked.
    NotClosed { position: usize },
    // The smallest row number of an error that is allowed.
    AllowsError { row: usize },
}

// What is found of facts that are a closed set with the start facts: an error that is allowed, or nothing.
fn find_error(table: &StoredTable, mem: &[u8]) -> Result<(), Fault>
    requires { (T : Table) × StoredAs T table.now × (W T ≤ length mem.now) }
    ensures { (T : Table) → StoredAs T table.now
        → ClosedWithStarts T (Marked T mem.now) → Finds T (Marked T mem.now) (finding_of result) }
{
    match judge(&table.facts(mem), &table.errors()) {
        Verdict::Safe => Ok(()),
        Verdict::Possible(witness) => Err(Fault::AllowsError { row: witness.row }),
    }
}

// What is found of the facts of a table that the first W bytes mark. Each of the three is looked for only if the one before it is not there. No byte
// is changed.
pub fn find(table: &StoredTable, mem: &mut [u8]) -> Result<(), Fault>
    requires { (T : Table) × StoredAs T table.now × (W T ≤ length mem.old) }
    ensures found { (T : Table) → StoredAs T table.now → Finds T (Marked T mem.old) (finding_of result) }
    ensures kept { mem.new ≡ mem.old }
{
    let start = usize::from(table.header.start);
    let firsts = table.header.firsts;
    if let Some(thread) = lacking_start(&table.facts(mem), start, &firsts) {
        return Err(Fault::LacksStart { thread });
    }
    let lists = table.lists();
    if let Some(position) = missing(table.plan(), &lists, mem) {
        return Err(Fault::NotClosed { position });
    }
    find_error(table, mem)
}
