// The end of a file.
ghost use Rattle.std.specs.Prelude.{◌≡◌};
ghost use Rattle.reader.specs.Ends.{end_after};
ghost use Rattle.reader.specs.Ended.{ended_of};

use numbers::refusals::Refusal;

// The end of a file at `place`, where `left` bytes are left: it is there if none are.
pub(crate) fn ended(left: usize, place: usize) -> Result<usize, Refusal>
    ensures { result ≡ ended_of left place }
{
    if left == 0 {
        Ok(place)
    } else {
        Err(Refusal::After { at: place })
    }
}

// The end of the file, which is to follow a part of it: the place past that, or why it was refused.
pub fn end_after(src: &[u8], before: Result<usize, Refusal>) -> Result<usize, Refusal>
    ensures { result ≡ end_after before src.now }
{
    crate::end_at(src, before?)
}
