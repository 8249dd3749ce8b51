// The claim check: the bytes of a table and of a claim, and working memory in; an answer out.
ghost use Rattle.std.specs.Prelude.{List, ℕ, ◌≤◌, length};
ghost use Rattle.files.specs.Table.{Table, most_facts};
ghost use Rattle.check_call.specs.Lent.{StoredAs};
ghost use Rattle.claim_reader.specs.ClaimFile.{claim_at};
ghost use Rattle.claim_reader.specs.ClaimAnswers.{IsClaim, positions_of};
ghost use Rattle.claim_check_call.specs.ClaimChecking.{OfPositions, AgainstTable, ClaimChecked};
ghost use Rattle.claim_check_call.specs.ClaimLent.{Lent, MarkedFirst};

use crate::answer::ClaimRefusal;
use check_call::stored::StoredTable;
use claim_reader::reading::{mark_claim, read_claim};
use files::table::{TableRows, read_table};
use findings::find::find;
use store::marks::clear_first;

// Marks the claimed facts in the first w bytes of a memory.
// w is a number: the `Claim` of claim_reader is private. Here and below it is what the caller has just compared with the memory.
fn mark_in(claim: &[u8], w: usize, mem: &mut [u8])
    requires { IsClaim w claim.now × (w ≤ most_facts) × (w ≤ length mem.old) }
    ensures { MarkedFirst w (positions_of (claim_at w claim.now)) mem.old mem.new }
{
    mark_claim(claim, w, &mut mem[..w]);
}

// Checks a claim that was read, of `count` facts, against a table that has room for w facts.
fn check_facts(
    table: &StoredTable,
    claim: &[u8],
    count: usize,
    w: usize,
    mem: &mut [u8],
) -> Result<usize, ClaimRefusal>
    requires { (T : Table) × (ps : List ℕ) × Lent T ps table.now claim.now count w × (w ≤ length mem.old) }
    ensures { (T : Table) (ps : List ℕ) → Lent T ps table.now claim.now count w → OfPositions T ps mem.old result mem.new }
{
    mark_in(claim, w, mem);
    match find(table, mem) {
        Ok(()) => Ok(count),
        Err(fault) => {
            clear_first(mem, w);
            Err(ClaimRefusal::Fault(fault))
        }
    }
}

// Checks a claim against a table that was read, in working memory of any length.
fn check_stored(table: &StoredTable, claim: &[u8], mem: &mut [u8]) -> Result<usize, ClaimRefusal>
    requires { (T : Table) × StoredAs T table.now }
    ensures { (T : Table) → StoredAs T table.now → AgainstTable T claim.now mem.old result mem.new }
{
    let w = table.w();
    if mem.len() < w {
        return Err(ClaimRefusal::Short { w });
    }
    let count = read_claim(claim, w).map_err(ClaimRefusal::Claim)?;
    check_facts(table, claim, count, w, mem)
}

// Checks a claim against a table. The rows of the table stand in the check's own memory.
// It begins as `check` of check_call does; the refusals are of another enum.
pub fn check_claim(table: &[u8], claim: &[u8], mem: &mut [u8]) -> Result<usize, ClaimRefusal>
    ensures { ClaimChecked table.now claim.now mem.old result mem.new }
{
    let mut rows = TableRows::new();
    let read = read_table(table, &mut rows).map_err(ClaimRefusal::Table)?;
    let stored = StoredTable {
        header: read.header,
        counts: read.counts,
        rows: &rows,
    };
    check_stored(&stored, claim, mem)
}
