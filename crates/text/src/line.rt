// A line of text.
ghost use Rattle.std.specs.Prelude.{List, ℕ, ◌≡◌, ◌+◌, ◌-◌, ◌*◌, ◌≤◌, ◌++◌, length, take, drop, replicate};
ghost use Rattle.std.proofs.Common.{length-take-le, take-append-drop};
ghost use Rattle.words.specs.Text.{line, note};
ghost use Rattle.words.specs.Room.{field_room};
ghost use Rattle.text.specs.declared.line.TheConstants.{ROOM};

use std::marker::Model;
use words::line::{put_line, put_note};

// The room for a line. The longest has a word of 16 bytes, six numbers of at most 20 digits with a blank before each, and the line feed.
pub const ROOM: usize = 160;

// A line, in memory of its own. What contracts see of it is its text. The memory and its length stand here by hand: std has no list of fixed capacity,
// its `Vec` is on the heap, and no crate beside std is trusted here (docs/TRUST.md), which the toolchain's `arrayvec` would be.
#[derive(Clone, Copy)]
pub struct Line {
    memory: [u8; ROOM],
    len: usize,
}

impl Model for Line {
    ghost Value = { List ℕ };

    ghost view = { λ a. take a.len a.memory };

    // Past the text the memory holds zeros, so the text fixes all fields, as a copy asks (`inverse`).
    ghost invariant = { λ a. (a.len ≤ length a.memory) × (drop a.len a.memory ≡ replicate (ROOM - a.len) 0) };

    ghost inverse = { λ text. record { memory = text ++ replicate (ROOM - length text) 0; len = length text } };

    ghost inverse_ok = { λ a h.
        let count = length-take-le a.len a.memory h.0 in
        let whole : take a.len a.memory ++ replicate (ROOM - length (take a.len a.memory)) 0 ≡ a.memory = rw (count, ← h.1) (take-append-drop a.len a.memory) in
        λ i. record { memory = whole i; len = count i } };
}

impl Line {
    // A word, numbers with a blank before each, and a line feed.
    pub fn new(word: &[u8], numbers: &[usize]) -> Line
        requires { length word.now + field_room * length numbers.now + 1 ≤ ROOM }
        ensures { result ≡ line word.now numbers.now }
    {
        let mut memory = [0u8; ROOM];
        let len = put_line(&mut memory, word, numbers);
        Line { memory, len }
    }

    // A word, a number, the rest of the sentence and a line feed.
    pub fn note(word: &[u8], number: usize, rest: &[u8]) -> Line
        requires { length word.now + field_room + length rest.now + 1 ≤ ROOM }
        ensures { result ≡ note word.now number rest.now }
    {
        let mut memory = [0u8; ROOM];
        let len = put_note(&mut memory, word, number, rest);
        Line { memory, len }
    }

    // The bytes of its text.
    pub fn as_bytes(&self) -> &[u8]
        ensures text { result.now ≡ self.now }
        ensures room { length result.now ≤ ROOM }
    {
        &self.memory[..self.len]
    }
}
