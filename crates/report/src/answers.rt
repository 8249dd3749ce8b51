// The lines of an answer of the check: the first for any answer, the second for one that has a verdict. And what a refusal of any call says.
ghost use Rattle.std.specs.Prelude.{◌≡◌};
ghost use Rattle.check_call.specs.Answers.{reply_of};
ghost use Rattle.report.specs.Answers.{threads_of, line_of_reply, line_of_verdict, verdict_line, reason_of_reply};

use check_call::answer::{CheckRefusal, Done, Reply, reply_of};
use files::header::read_header;
use text::line::Line;
use text::lines::{facts_line, possible_line, refused_line, safe_line};
use text::reasons::reason_line;
use verdict::search::Verdict;

// How many threads a table has, by its header; 0 if that is refused, since the line of a verdict is promised for every table.
fn threads_of(table: &[u8]) -> usize
    ensures { result ≡ threads_of table.now }
{
    read_header(table).map_or(0, |read| usize::from(read.value.sizes.threads))
}

// The first line of an answer of the check or of claim writing, by its reply: the number of facts, or the refusal.
pub fn line_of_reply(reply: Reply) -> Line
    ensures { result ≡ line_of_reply reply }
{
    match reply.number {
        0 => facts_line(reply.value),
        // A cast, here and below: no `From` leads from u32 to usize.
        number => refused_line(number as usize, reply.value),
    }
}

// The first line of an answer: the number of facts, or the refusal.
// `claim_report` has this and `verdict_line` for another answer: what they share is `line_of_reply` and `line_of_verdict`.
pub fn first_line(answer: Result<Done, CheckRefusal>) -> Line
    ensures { result ≡ line_of_reply (reply_of answer) }
{
    line_of_reply(reply_of(answer))
}

// The line of a verdict on a table.
pub fn line_of_verdict(table: &[u8], verdict: Verdict) -> Line
    ensures { result ≡ line_of_verdict (threads_of table.now) verdict }
{
    match verdict {
        Verdict::Safe => safe_line(),
        Verdict::Possible(witness) => {
            let locals = witness.locals;
            possible_line(witness.row, witness.g, locals, threads_of(table))
        }
    }
}

// The line of an answer's verdict. An answer without a verdict has none.
pub fn verdict_line(table: &[u8], answer: Result<Done, CheckRefusal>) -> Option<Line>
    ensures { result ≡ verdict_line (threads_of table.now) answer }
{
    let done = answer.ok()?;
    Some(line_of_verdict(table, done.verdict))
}

// What a call is refused for, in words, by the reply that it makes. A call that is done has no such line.
pub fn reason_of_reply(reply: Reply) -> Option<Line>
    ensures { result ≡ reason_of_reply reply }
{
    let number = reply.number as usize;
    let origin = reply.origin as usize;
    reason_line(number, reply.value, origin)
}
