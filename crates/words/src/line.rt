// A line: a word, numbers with a blank before each, and a line feed. A note: a line of one number with the rest of a sentence after it. Each function
// gives the length of what it writes: the memory is lent, so that no size is fixed, and it is `Line` of text that owns a line.
ghost use Rattle.std.specs.Prelude.{◌+◌, ◌*◌, ◌≤◌, length};
ghost use Rattle.words.specs.Text.{line, note, Written};
ghost use Rattle.words.specs.Room.{field_room};

use crate::writer::Writer;

// Writes a word, the numbers and a line feed.
pub fn put_line(out: &mut [u8], word: &[u8], numbers: &[usize]) -> usize
    requires { length word.now + field_room * length numbers.now + 1 ≤ length out.old }
    ensures { Written (line word.now numbers.now) out.old out.new result }
{
    let mut line = Writer { out, at: 0 };
    line.word(word);
    for &number in numbers {
        line.field(number);
    }
    line.byte(b'\n');
    line.at
}

// Writes a word, a number, the rest of the sentence and a line feed.
pub fn put_note(out: &mut [u8], word: &[u8], number: usize, rest: &[u8]) -> usize
    requires { length word.now + field_room + length rest.now + 1 ≤ length out.old }
    ensures { Written (note word.now number rest.now) out.old out.new result }
{
    let mut note = Writer { out, at: 0 };
    note.word(word);
    note.field(number);
    note.word(rest);
    note.byte(b'\n');
    note.at
}
