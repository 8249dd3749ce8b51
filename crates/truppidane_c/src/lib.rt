// The static library that others link: document 01's three calls, for programs in C and in languages that call as C does. `include/truppidane.h`
// declares the exported functions. Each calls the function of its name in `truppidane`, and promises the same. A slice passes as a pointer and then a
// length, and `told` as a pointer to its eleven numbers.
#![tactic(auto)]

ghost use Rattle.truppidane.specs.Calls.{CheckTold, WriteTold, ClaimTold};

use truppidane::{NUMBERS, calls};

// Checks a table, in working memory and within a budget of facts. Tells the answer and gives its number.
#[unsafe(no_mangle)]
pub extern "C" fn truppidane_check(
    table: &[u8],
    mem: &mut [u8],
    budget: usize,
    told: &mut [usize; NUMBERS],
) -> usize
    ensures { CheckTold table.now budget mem.old result mem.new told.new }
{
    calls::truppidane_check(table, mem, budget, told)
}

// Checks a table and writes the claim of exactly its facts at the start of a space. Tells the answer and gives its number.
#[unsafe(no_mangle)]
pub extern "C" fn truppidane_write_claim(
    table: &[u8],
    mem: &mut [u8],
    budget: usize,
    space: &mut [u8],
    told: &mut [usize; NUMBERS],
) -> usize
    ensures { WriteTold table.now budget mem.old space.old result
        mem.new space.new told.new }
{
    calls::truppidane_write_claim(table, mem, budget, space, told)
}

// Checks a claim against a table, in working memory. Tells the answer and gives its number.
#[unsafe(no_mangle)]
pub extern "C" fn truppidane_check_claim(
    table: &[u8],
    claim: &[u8],
    mem: &mut [u8],
    told: &mut [usize; NUMBERS],
) -> usize
    ensures { ClaimTold table.now claim.now mem.old result mem.new told.new }
{
    calls::truppidane_check_claim(table, claim, mem, told)
}
