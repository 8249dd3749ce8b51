// The lines of an answer of claim writing: the first for any answer, and two more where a claim is written.
ghost use Rattle.std.specs.Prelude.{◌≡◌};
ghost use Rattle.claim_write_call.specs.Answers.{write_reply_of};
ghost use Rattle.report.specs.Answers.{threads_of, line_of_reply};
ghost use Rattle.claim_report.specs.ClaimLines.{written_verdict_line, bytes_line_of};

use claim_write_call::answer::{WriteRefusal, Written, write_reply_of};
use report::answers::{line_of_reply, line_of_verdict};
use text::line::Line;

// The first line of an answer: the number of facts, or the refusal.
// As in `report`, for another answer, and so is `verdict_line`: what they share is `line_of_reply` and `line_of_verdict`.
pub fn first_line(answer: Result<Written, WriteRefusal>) -> Line
    ensures { result ≡ line_of_reply (write_reply_of answer) }
{
    line_of_reply(write_reply_of(answer))
}

// The line of an answer's verdict. An answer without a verdict has none.
pub fn verdict_line(table: &[u8], answer: Result<Written, WriteRefusal>) -> Option<Line>
    ensures { result ≡ written_verdict_line (threads_of table.now) answer }
{
    let written = answer.ok()?;
    Some(line_of_verdict(table, written.verdict))
}

// The line of the number of bytes that the claim takes. An answer without a claim has none.
pub fn bytes_line(answer: Result<Written, WriteRefusal>) -> Option<Line>
    ensures { result ≡ bytes_line_of answer }
{
    let written = answer.ok()?;
    Some(text::lines::bytes_line(written.bytes))
}
