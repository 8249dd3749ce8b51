// The marked positions as a claim has them: each as its distance from the one before.
ghost use Rattle.std.specs.Prelude.{◌≡◌};
ghost use Rattle.claim_reader.specs.ClaimFile.{distances_from};
ghost use Rattle.claim_reader.specs.Marks.{positions_in};

use crate::marked::MarkedFacts;
use std::marker::Model;
use store::marks::next_mark;

// The distances that are still to come, of the positions that are marked: those from `from` on, which come after position `last`.
#[derive(Drop)]
pub struct Distances<'a> {
    marked: MarkedFacts<'a>,
    from: usize,
    last: usize,
}

impl<'a> Model for Distances<'a> {
    ghost use Rattle.std.specs.Prelude.{List, ℕ, ◌-◌, ◌≤◌};
    ghost use Rattle.claim_reader.specs.ClaimFile.{distances_from};
    ghost use Rattle.claim_reader.specs.Marks.{marked_from};

    ghost Value = { List ℕ };

    ghost view = { λ d. distances_from d.last (marked_from d.marked.mem.now d.from (d.marked.w - d.from)) };

    ghost invariant = { λ d. (d.last ≤ d.from) × (d.from ≤ d.marked.w) };
}

impl<'a> Distances<'a> {
    // All of them.
    pub fn new(marked: MarkedFacts<'a>) -> Self
        ensures { result ≡ distances_from 0 (positions_in marked.entry.w marked.entry.mem.now) }
    {
        Distances {
            marked,
            from: 0,
            last: 0,
        }
    }
}

// The next distance leads to the next mark.
impl<'a> Iterator for Distances<'a> {
    type Item = u32;

    ghost use Rattle.std.specs.Iterator.{item_count};
    ghost use Rattle.claim_of_marks.specs.Stages.{Takes};

    ghost next_gives = { Takes };

    ghost remaining = { item_count (λ d. d) };

    fn next(&mut self) -> Option<u32> {
        let p = next_mark(self.marked.mem, self.from, self.marked.w)?;
        let distance = p - self.last;
        self.last = p;
        self.from = p + 1;
        // A cast: no `From` leads from usize to u32, and the proof shows that it fits.
        Some(distance as u32)
    }
}
