// Writing the claim of the facts that are marked. Its count stands before its positions, so the memory is gone through twice: once for the count
// and the width, and once for the positions.
ghost use Rattle.std.specs.Prelude.{◌≡◌, ◌+◌, ◌≤◌, length};
ghost use Rattle.numbers.specs.Writing.{bytes_of};
ghost use Rattle.numbers.specs.Putting.{Put};
ghost use Rattle.files.specs.Table.{most_facts};
ghost use Rattle.claim_reader.specs.ClaimFile.{claim_bytes};
ghost use Rattle.claim_of_marks.specs.Writing.{ClaimPut};
ghost use Rattle.claim_reader.specs.Marks.{positions_in};
ghost use Rattle.claim_reader.specs.Stages.{position_bytes};

use crate::distances::Distances;
use crate::marked::MarkedFacts;
use numbers::writing::{put_number, width};

// The number that every claim begins with.
const VERSION: u32 = 1;

// How many positions a claim has, and how many bytes they take.
#[derive(Clone, Copy)]
struct Totals {
    count: u32,
    width: usize,
}

// Puts a number at `at`, where it has room, and gives the place past it. It is put_number, whose clauses tell of numbers without room too: what they say
// of one with room stands here once for its three calls.
fn put(space: &mut [u8], at: usize, value: u32) -> usize
    requires { (value ≤ most_facts) × (at + length (bytes_of value) ≤ length space.old) }
    ensures { Put (bytes_of value) at space.old space.new result }
{
    put_number(space, at, value)
}

impl<'a> MarkedFacts<'a> {
    ghost use Rattle.claim_of_marks.specs.Stages.{totals_of};

    // How many facts there are, and how many bytes their positions take in a claim.
    fn totals(&self) -> Totals
        ensures { result ≡ totals_of (positions_in self.now.w self.now.mem.now) }
    {
        let mut totals = Totals { count: 0, width: 0 };
        for distance in Distances::new(*self) {
            totals.count += 1;
            totals.width += width(distance);
        }
        totals
    }

    // How many bytes the claim of these facts takes.
    pub fn claim_width(&self) -> usize
        ensures { result ≡ length (claim_bytes (positions_in self.now.w self.now.mem.now)) }
    {
        let totals = self.totals();
        width(VERSION) + width(totals.count) + totals.width
    }

    // Puts the positions from `at` on, each as its distance from the one before, and gives the place past them.
    fn put_positions(&self, space: &mut [u8], at: usize) -> usize
        requires { at + length (position_bytes 0 (positions_in self.now.w self.now.mem.now)) ≤ length space.old }
        ensures { Put (position_bytes 0 (positions_in self.now.w self.now.mem.now)) at space.old space.new result }
    {
        let mut next = at;
        for distance in Distances::new(*self) {
            next = put(space, next, distance);
        }
        next
    }

    // Writes the claim of these facts at the start of a space that has room for it, and gives how many bytes it takes.
    pub fn put_claim(&self, space: &mut [u8]) -> usize
        requires { length (claim_bytes (positions_in self.now.w self.now.mem.now)) ≤ length space.old }
        ensures { ClaimPut (positions_in self.now.w self.now.mem.now) space.old space.new result }
    {
        let totals = self.totals();
        let second = put(space, 0, VERSION);
        let third = put(space, second, totals.count);
        self.put_positions(space, third)
    }
}
