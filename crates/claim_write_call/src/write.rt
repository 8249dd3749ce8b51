// Writing a claim: a table's bytes, working memory, a budget and a space in; an answer out, and the claim of the table's facts in the space.
ghost use Rattle.std.specs.Prelude.{◌≤◌, length};
ghost use Rattle.files.specs.Table.{most_facts};
ghost use Rattle.claim_write_call.specs.ClaimWriting.{ClaimWritten};
ghost use Rattle.claim_write_call.specs.WriteStages.{WOf, MarksWritten};

use crate::answer::{WriteRefusal, Written};
use check_call::answer::Done;
use check_call::check::check;
use claim_of_marks::marked::MarkedFacts;
use files::header::{read_header, w_of};
use store::marks::clear_first;

// How much room a table's facts take, by its header: W of a table that is read. Of a header that is refused nothing is said.
fn w_of_table(table: &[u8]) -> usize
    ensures { WOf table.now result }
{
    match read_header(table) {
        Ok(header) => w_of(header.value.sizes),
        Err(_) => 0,
    }
}

// Writes the claim of the facts that a finished check leaves marked in the first w bytes of a memory; or, where the space is too short for it, clears
// these bytes.
// w stands beside the memory and no `MarkedFacts` in their place: that lends the memory for reading alone, and here it may be cleared.
fn write_marked(
    mem: &mut [u8],
    w: usize,
    space: &mut [u8],
    done: Done,
) -> Result<Written, WriteRefusal>
    requires { (w ≤ most_facts) × (w ≤ length mem.old) }
    ensures { MarksWritten w done.count done.verdict mem.old space.old result mem.new space.new }
{
    let facts = MarkedFacts { mem, w };
    let needed = facts.claim_width();
    if space.len() < needed {
        clear_first(mem, w);
        return Err(WriteRefusal::NoSpace { needed });
    }
    let bytes = facts.put_claim(space);
    Ok(Written {
        count: done.count,
        verdict: done.verdict,
        bytes,
    })
}

// Checks a table and writes the claim of exactly its facts at the start of a space.
pub fn write_claim(
    table: &[u8],
    mem: &mut [u8],
    budget: usize,
    space: &mut [u8],
) -> Result<Written, WriteRefusal>
    ensures { ClaimWritten table.now budget mem.old space.old result mem.new space.new }
{
    let done = check(table, mem, budget)?;
    let w = w_of_table(table);
    write_marked(mem, w, space, done)
}
