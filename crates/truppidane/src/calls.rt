// The three calls as the library has them. `truppidane_c` exports them under the same names. What each calls differs, so each has its
// `ensures`.
ghost use Rattle.truppidane.specs.Calls.{CheckTold, WriteTold, ClaimTold};

use crate::told::{NUMBERS, check_numbers, claim_numbers, write_numbers};
use check_call::check::check;
use claim_check_call::check::check_claim;
use claim_write_call::write::write_claim;

// Checks a table, in working memory and within a budget of facts. Tells the answer and gives its number.
pub fn truppidane_check(
    table: &[u8],
    mem: &mut [u8],
    budget: usize,
    told: &mut [usize; NUMBERS],
) -> usize
    ensures { CheckTold table.now budget mem.old result mem.new told.new }
{
    let numbers = check_numbers(check(table, mem, budget));
    *told = numbers;
    numbers[0]
}

// Checks a table and writes the claim of exactly its facts at the start of a space. Tells the answer and gives its number.
pub fn truppidane_write_claim(
    table: &[u8],
    mem: &mut [u8],
    budget: usize,
    space: &mut [u8],
    told: &mut [usize; NUMBERS],
) -> usize
    ensures { WriteTold table.now budget mem.old space.old result
        mem.new space.new told.new }
{
    let numbers = write_numbers(write_claim(table, mem, budget, space));
    *told = numbers;
    numbers[0]
}

// Checks a claim against a table, in working memory. Tells the answer and gives its number.
pub fn truppidane_check_claim(
    table: &[u8],
    claim: &[u8],
    mem: &mut [u8],
    told: &mut [usize; NUMBERS],
) -> usize
    ensures { ClaimTold table.now claim.now mem.old result mem.new told.new }
{
    let numbers = claim_numbers(check_claim(table, claim, mem));
    *told = numbers;
    numbers[0]
}
