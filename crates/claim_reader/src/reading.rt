// Reading a claim: the version, the count and the positions, from left to right; the first fault wins. A claim is read twice: once to learn
// whether it is one, which touches no memory, and once to mark its positions.
ghost use Rattle.std.specs.Prelude.{◌≡◌, List, ℕ, ◌≤◌};
ghost use Rattle.numbers.specs.Reading.{got, part_of};
ghost use Rattle.reader.specs.Ends.{end_of};
ghost use Rattle.files.specs.Table.{most_facts};
ghost use Rattle.store.specs.Marking.{room};
ghost use Rattle.claim_reader.specs.ClaimFile.{count_at, claim_at};
ghost use Rattle.claim_reader.specs.ClaimAnswers.{IsClaim, claimed_of, positions_of};
ghost use Rattle.claim_reader.specs.Marks.{Marks};

use numbers::reading::Part;
use numbers::refusals::Refusal;
use reader::ends::end_after;
use reader::fields::{field, version};
use store::marks::{clear_first, put_mark};

// How far a position is at least from the one before.
const LEAST: u32 = 1;

// The bytes of a claim, for a room of w facts.
#[derive(Clone, Copy)]
struct Claim<'a> {
    src: &'a [u8],
    w: u32,
    ghost few: { w ≤ most_facts },
}

// A walk over the positions of a claim: the place of the next one, and the last one with how far the next is at least from it. Before the first one
// both are 0, and no Option: so the first is read as the others are, as `positions_at` of specs/ has it.
#[derive(Clone, Copy)]
struct Walk<'a> {
    claim: Claim<'a>,
    at: usize,
    least: u32,
    last: u32,
}

impl<'a> Walk<'a> {
    ghost use Rattle.numbers.specs.Reading.{value_of};
    ghost use Rattle.claim_reader.specs.Stages.{next_in, walked};

    // A walk that begins at `at`: the first position may be 0.
    fn new(claim: Claim<'a>, at: usize) -> Walk<'a>
        ensures { (result.claim ≡ claim.entry) × (result.at ≡ at) × (result.least ≡ 0) × (result.last ≡ 0) }
    {
        Walk {
            claim,
            at,
            least: 0,
            last: 0,
        }
    }

    // The next position, below w: its distance from the last one stands at the walk's place. The walk goes on past it; where it is refused, the walk
    // stays.
    fn next(&mut self) -> Result<u32, Refusal>
        requires { self.old.last ≤ self.old.claim.w }
        ensures { (result ≡ value_of (next_in self.old)) × (self.new ≡ walked (next_in self.old) self.old) }
    {
        let distance = field(
            self.claim.src,
            self.at,
            self.least,
            self.claim.w - self.last,
        )?;
        self.at = distance.next;
        self.least = LEAST;
        self.last += distance.value;
        Ok(self.last)
    }
}

impl<'a> Claim<'a> {
    ghost use Rattle.claim_reader.specs.Stages.{listed, marked_all};

    // How many positions there are, with the place past that. The count stands after the version and is at most w.
    fn count(self) -> Result<Part<u32>, Refusal>
        ensures { result ≡ part_of (count_at self.entry.w self.entry.src.now) }
    {
        let version = version(self.src)?;
        field(self.src, version.next, 0, self.w + 1)
    }

    // Where the positions after the count end.
    fn positions(self, count: Part<u32>) -> Result<usize, Refusal>
        ensures { result ≡ end_of (listed self.entry count) }
    {
        let mut walk = Walk::new(self, count.next);
        for _i in 0..count.value {
            walk.next()?;
        }
        Ok(walk.at)
    }

    // Marks the positions after the count. They read well, so none of them is refused.
    fn mark_positions(self, count: Part<u32>, mem: &mut [u8])
        requires { ((ps : List ℕ) × (next : ℕ) × (listed self count ≡ got ps next)) × (room mem.old ≡ self.w) }
        ensures { mem.new ≡ marked_all mem.old (positions_of (listed self.entry count)) }
    {
        let mut walk = Walk::new(self, count.next);
        for _i in 0..count.value {
            let position = walk.next().unwrap();
            // A cast, here and below: no `From` leads from u32 to usize.
            put_mark(mem, position as usize);
        }
    }
}

// Reads a claim, for a room of w facts: how many positions it has, or the refusal.
// w is a number, here and below, and no `Claim`: that is private, and who calls has the W of the table.
pub fn read_claim(src: &[u8], w: usize) -> Result<usize, Refusal>
    requires { w ≤ most_facts }
    ensures { result ≡ claimed_of (claim_at w src.now) }
{
    // A cast, here and below: no `From` leads from usize to u32, and the proof shows that it fits.
    let claim = Claim { src, w: w as u32 };
    let count = claim.count()?;
    let end = claim.positions(count)?;
    end_after(src, Ok(end))?;
    Ok(count.value as usize)
}

// Marks the positions of a claim that reads well, in a memory of w bytes: afterwards a byte is 1 if its position is claimed, else 0, whatever it
// was before.
// w stands beside the memory, whose length it is: the function is public, and its contract is of the w of `read_claim`, by `IsClaim w` and `Marks w`.
pub fn mark_claim(src: &[u8], w: usize, mem: &mut [u8])
    requires { IsClaim w src.now × (w ≤ most_facts) × (room mem.old ≡ w) }
    ensures { Marks w (positions_of (claim_at w src.now)) mem.new }
{
    clear_first(mem, w);
    let claim = Claim { src, w: w as u32 };
    let count = claim.count().unwrap();
    claim.mark_positions(count, mem);
}
