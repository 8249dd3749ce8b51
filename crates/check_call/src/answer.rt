// The answers of the check, and document 01's number, origin and value of each.
ghost use Rattle.std.specs.Prelude.{◌≡◌};
ghost use Rattle.check_call.specs.declared.answer.CheckRefusal.TheVariants.{File};
ghost use Rattle.check_call.specs.Answers.{plain, told, reply_of_refusal, reply_of};

use numbers::refusals::{Refusal, Told};
use verdict::search::Verdict;

// A finished check: how many facts there are, and the verdict.
#[derive(Clone, Copy)]
pub struct Done {
    pub count: usize,
    pub verdict: Verdict,
}

// Why a check is not finished.
#[derive(Clone, Copy)]
pub enum CheckRefusal {
    // The table's file is refused for its first fault.
    File(Refusal),
    // The working memory is shorter than W.
    Short { w: usize },
    // There are more facts than the budget.
    Over { budget: usize },
}

impl From<Refusal> for CheckRefusal {
    ghost from_gives = { λ refusal answer. answer ≡ File refusal };

    fn from(refusal: Refusal) -> CheckRefusal {
        CheckRefusal::File(refusal)
    }
}

// Document 01's number, origin and value of an answer. They are numbers and no enum: document 01 gives them, and C and the printed lines tell them so.
#[derive(Clone, Copy)]
pub struct Reply {
    pub number: u32,
    pub origin: u32,
    pub value: usize,
}

impl Reply {
    // The reply that is no reader's refusal.
    pub fn plain(number: u32, value: usize) -> Reply
        ensures { result ≡ plain number value }
    {
        Reply {
            number,
            origin: 0,
            value,
        }
    }

    // The reply that tells a reader's refusal.
    pub fn told(origin: u32, refusal: Refusal) -> Reply
        ensures { result ≡ told origin refusal }
    {
        let says = Told::from(refusal);
        Reply {
            number: says.number,
            origin,
            value: says.value,
        }
    }
}

impl From<CheckRefusal> for Reply {
    ghost from_gives = { λ refusal reply. reply ≡ reply_of_refusal refusal };

    fn from(refusal: CheckRefusal) -> Reply {
        match refusal {
            CheckRefusal::File(refusal) => Reply::told(0, refusal),
            CheckRefusal::Short { w } => Reply::plain(7, w),
            CheckRefusal::Over { budget } => Reply::plain(8, budget),
        }
    }
}

// The number, the origin and the value of an answer.
// A function as its sisters `claim_reply_of` and `write_reply_of` are, which cannot be `From`. One for each call: the answers differ in type.
pub fn reply_of(answer: Result<Done, CheckRefusal>) -> Reply
    ensures { result ≡ reply_of answer }
{
    match answer {
        Ok(done) => Reply::plain(0, done.count),
        Err(refusal) => Reply::from(refusal),
    }
}
