// The answers of the claim check, and document 01's number, origin and value of each.
ghost use Rattle.std.specs.Prelude.{◌≡◌};
ghost use Rattle.claim_check_call.specs.Answers.{claim_reply_of, reply_of_refusal};

use check_call::answer::Reply;
use findings::find::Fault;
use numbers::refusals::Refusal;

// Why a claim is not accepted.
#[derive(Clone, Copy)]
pub enum ClaimRefusal {
    // The table's file is refused for its first fault.
    Table(Refusal),
    // The working memory is shorter than W.
    Short { w: usize },
    // The claim's file is refused for its first fault.
    Claim(Refusal),
    // The claimed facts lack a start fact, are not closed, or allow an error.
    Fault(Fault),
}

impl From<ClaimRefusal> for Reply {
    ghost from_gives = { λ refusal reply. reply ≡ reply_of_refusal refusal };

    fn from(refusal: ClaimRefusal) -> Reply {
        match refusal {
            ClaimRefusal::Table(refusal) => Reply::told(0, refusal),
            ClaimRefusal::Short { w } => Reply::plain(7, w),
            ClaimRefusal::Claim(refusal) => Reply::told(1, refusal),
            ClaimRefusal::Fault(Fault::LacksStart { thread }) => Reply::plain(9, thread),
            ClaimRefusal::Fault(Fault::NotClosed { position }) => Reply::plain(10, position),
            ClaimRefusal::Fault(Fault::AllowsError { row }) => Reply::plain(11, row),
        }
    }
}

// The number, the origin and the value of an answer, which is how many facts are claimed where the claim is accepted.
// A function and no `From`: neither `Reply` nor `Result` is a type of this crate.
pub fn claim_reply_of(answer: Result<usize, ClaimRefusal>) -> Reply
    ensures { result ≡ claim_reply_of answer }
{
    match answer {
        Ok(count) => Reply::plain(0, count),
        Err(refusal) => Reply::from(refusal),
    }
}
