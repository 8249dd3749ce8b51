// What a refusal says in words, for the person who has to mend the file or the call.
ghost use Rattle.std.specs.Prelude.{◌≡◌};
ghost use Rattle.text.specs.Reasons.{reason_line, byte_of};

use crate::line::Line;

// The file whose byte a reader's refusal names, by its origin.
fn byte_of(origin: usize) -> &'static [u8]
    ensures { result.now ≡ byte_of origin }
{
    if origin == 1 { b"claim byte" } else { b"byte" }
}

// What a refusal says, by its number, value and origin. 0 and a number above 12 are no refusal, and have no line. The numbers are the document's, and
// any number may be asked for: so it takes no enum.
#[tactic(auto, unfolding(crate::specs::Reasons::reasons))]
pub fn reason_line(number: usize, value: usize, origin: usize) -> Option<Line>
    ensures { result ≡ reason_line number value origin }
{
    let byte = byte_of(origin);
    let line = match number {
        1 => Line::note(byte, value, b": the file ends here, and more is due"),
        2 => Line::note(
            byte,
            value,
            b": a number too long or not in its shortest form",
        ),
        3 => Line::note(byte, value, b": the version is not 1"),
        4 => Line::note(byte, value, b": outside its column's range"),
        5 => Line::note(byte, value, b": this row is not above the one before it"),
        6 => Line::note(byte, value, b": bytes after the end"),
        7 => Line::note(
            b"bytes",
            value,
            b": the working memory is shorter than this",
        ),
        8 => Line::note(b"budget", value, b": there are more facts than this"),
        9 => Line::note(b"thread", value, b": the claim lacks its start fact"),
        10 => Line::note(
            b"position",
            value,
            b": a rule gives this fact, and the claim lacks it",
        ),
        11 => Line::note(b"row", value, b": the claim allows this error"),
        12 => Line::note(
            b"bytes",
            value,
            b": the space for the claim is shorter than this",
        ),
        _ => return None,
    };
    Some(line)
}
