// A reader keeps a file and its place together as one thing, and moves on only past whole numbers (document 01, "Numbers").
// Its methods are thin: each calls a function on the bytes and the place. Whoever has bytes and a place calls `number_at` and `end_at`, which make a
// reader and read through it. Above, `row_through` of cells alone is lent a reader: the others take bytes and a place, as `row_at` and `list_at` of
// their specs/ do.
#![tactic(auto)]

ghost use Rattle.std.specs.Prelude.{◌≡◌};
ghost use Rattle.numbers.specs.Reading.{number_at, part_of};
ghost use Rattle.reader.specs.Places.{left_from};
ghost use Rattle.reader.specs.Ends.{at_end, end_of};

use crate::ends::ended;
use numbers::reading::{Part, number};
use numbers::refusals::Refusal;

pub mod ends;
pub mod fields;

// A file's bytes and the place of the next number.
#[derive(Clone, Copy)]
pub struct Reader<'a> {
    pub src: &'a [u8],
    pub at: usize,
}

impl<'a> Reader<'a> {
    ghost use Rattle.reader.specs.Readers.{moved_on};

    // A reader that stands at `at`.
    pub fn new(src: &'a [u8], at: usize) -> Reader<'a>
        ensures { (result.src ≡ src.entry) × (result.at ≡ at) }
    {
        Reader { src, at }
    }

    // Where the reader stands.
    pub fn place(self) -> usize
        ensures { result ≡ self.entry.at }
    {
        self.at
    }

    // How many bytes are left from where the reader stands; none where it stands at the end or past it.
    pub fn left(self) -> usize
        ensures { result ≡ left_from self.entry.src.now self.entry.at }
    {
        self.src.len().saturating_sub(self.at)
    }

    // The number where the reader stands. The reader moves on past it; where it is refused, the reader stays.
    pub fn next(&mut self) -> Result<Part<u32>, Refusal>
        ensures { (result ≡ part_of (number_at self.old.src.now self.old.at)) × (self.new ≡ moved_on self.old) }
    {
        let read = number(self.src, self.at)?;
        self.at = read.next;
        Ok(read)
    }
}

// The number at `at`, read through a reader.
pub fn number_at(src: &[u8], at: usize) -> Result<Part<u32>, Refusal>
    ensures { result ≡ part_of (number_at src.now at) }
{
    Reader::new(src, at).next()
}

// The end of the file, which is to be at `at`: bytes that are left there are refused.
pub fn end_at(src: &[u8], at: usize) -> Result<usize, Refusal>
    ensures { result ≡ end_of (at_end (tt {0}) src.now at) }
{
    let r = Reader::new(src, at);
    ended(r.left(), r.place())
}
