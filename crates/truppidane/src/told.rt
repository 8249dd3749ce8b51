// An answer as eleven numbers, for callers that have no enum.
ghost use Rattle.std.specs.Prelude.{◌≡◌};
ghost use Rattle.truppidane.specs.Told.{told_numbers, verdict_numbers, check_numbers, write_numbers, claim_numbers};

use check_call::answer::{CheckRefusal, Done, Reply, reply_of};
use claim_check_call::answer::{ClaimRefusal, claim_reply_of};
use claim_write_call::answer::{WriteRefusal, Written, write_reply_of};
use verdict::search::{Verdict, Witness};

// How many numbers an answer takes.
pub const NUMBERS: usize = 11;

// A verdict as numbers: 0 where there is none, 1 for safe, 2 for possible; and its witness, which is all 0 but for possible.
#[derive(Clone, Copy)]
pub struct VerdictNumbers {
    pub verdict: usize,
    pub witness: Witness,
}

// A verdict as numbers, or that there is none.
fn verdict_numbers(verdict: Option<Verdict>) -> VerdictNumbers
    ensures { result ≡ verdict_numbers verdict }
{
    let none = Witness {
        row: 0,
        g: 0,
        locals: [0; 4],
    };
    match verdict {
        None => VerdictNumbers {
            verdict: 0,
            witness: none,
        },
        Some(Verdict::Safe) => VerdictNumbers {
            verdict: 1,
            witness: none,
        },
        Some(Verdict::Possible(witness)) => VerdictNumbers {
            verdict: 2,
            witness,
        },
    }
}

// The numbers of a reply, a verdict and the bytes written, in this order.
fn numbers_of(reply: Reply, verdict: Option<Verdict>, bytes: usize) -> [usize; NUMBERS]
    ensures { result ≡ told_numbers reply (verdict_numbers verdict) bytes }
{
    let judged = verdict_numbers(verdict);
    let Witness { row, g, locals } = judged.witness;
    // Casts of a u32: there is no From<u32> for usize.
    [
        reply.number as usize,
        reply.origin as usize,
        reply.value,
        judged.verdict,
        row,
        g,
        locals[0],
        locals[1],
        locals[2],
        locals[3],
        bytes,
    ]
}

// An answer of the check as numbers.
pub fn check_numbers(answer: Result<Done, CheckRefusal>) -> [usize; NUMBERS]
    ensures { result ≡ check_numbers answer }
{
    numbers_of(reply_of(answer), answer.ok().map(|done| done.verdict), 0)
}

// An answer of claim writing as numbers.
pub fn write_numbers(answer: Result<Written, WriteRefusal>) -> [usize; NUMBERS]
    ensures { result ≡ write_numbers answer }
{
    let (verdict, bytes) = match answer {
        Ok(written) => (Some(written.verdict), written.bytes),
        Err(_) => (None, 0),
    };
    numbers_of(write_reply_of(answer), verdict, bytes)
}

// An answer of the claim check as numbers.
pub fn claim_numbers(answer: Result<usize, ClaimRefusal>) -> [usize; NUMBERS]
    ensures { result ≡ claim_numbers answer }
{
    numbers_of(claim_reply_of(answer), None, 0)
}
