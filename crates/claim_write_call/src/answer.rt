// The answers of claim writing, and document 01's number, origin and value of each.
ghost use Rattle.std.specs.Prelude.{◌≡◌};
ghost use Rattle.claim_write_call.specs.Answers.{write_reply_of, reply_of_refusal};
ghost use Rattle.claim_write_call.specs.declared.answer.WriteRefusal.TheVariants as refusal;

use check_call::answer::{CheckRefusal, Reply};
use verdict::search::Verdict;

// A claim that is written: how many facts there are, the verdict, and how many bytes the claim takes. The first two are those of `Done`, and stand
// here again: `Written count verdict bytes` of specs/ names the three side by side.
#[derive(Clone, Copy)]
pub struct Written {
    pub count: usize,
    pub verdict: Verdict,
    pub bytes: usize,
}

// Why no claim is written.
#[derive(Clone, Copy)]
pub enum WriteRefusal {
    // The check is not finished.
    Check(CheckRefusal),
    // The space is shorter than the claim.
    NoSpace { needed: usize },
}

impl From<CheckRefusal> for WriteRefusal {
    ghost from_gives = { λ check refused. refused ≡ refusal.Check check };

    fn from(refusal: CheckRefusal) -> WriteRefusal {
        WriteRefusal::Check(refusal)
    }
}

impl From<WriteRefusal> for Reply {
    ghost from_gives = { λ refusal reply. reply ≡ reply_of_refusal refusal };

    fn from(refusal: WriteRefusal) -> Reply {
        match refusal {
            WriteRefusal::Check(refusal) => Reply::from(refusal),
            WriteRefusal::NoSpace { needed } => Reply::plain(12, needed),
        }
    }
}

// The number, the origin and the value of an answer.
// A function and no `From`: neither `Reply` nor `Result` is a type of this crate.
pub fn write_reply_of(answer: Result<Written, WriteRefusal>) -> Reply
    ensures { result ≡ write_reply_of answer }
{
    match answer {
        Ok(written) => Reply::plain(0, written.count),
        Err(refusal) => Reply::from(refusal),
    }
}
