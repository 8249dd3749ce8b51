// The line of an answer of the claim check.
ghost use Rattle.std.specs.Prelude.{◌≡◌};
ghost use Rattle.claim_check_call.specs.Answers.{claim_reply_of};
ghost use Rattle.claim_report.specs.ClaimLines.{line_of_claim_reply};

use claim_check_call::answer::{ClaimRefusal, claim_reply_of};
use text::line::Line;
use text::lines::{accepted_line, claim_refused_line};

// The line of an answer: the number of facts that an accepted claim claims, or the refusal.
pub fn checked_line(answer: Result<usize, ClaimRefusal>) -> Line
    ensures { result ≡ line_of_claim_reply (claim_reply_of answer) }
{
    let reply = claim_reply_of(answer);
    // A cast, here and below: no `From` leads from u32 to usize.
    let origin = reply.origin as usize;
    match reply.number {
        0 => accepted_line(reply.value),
        number => claim_refused_line(number as usize, reply.value, origin),
    }
}
