// Reading numbers: the number at a place of the bytes, with the place past it; the first fault wins.
ghost use Rattle.std.specs.Prelude.{◌≡◌, ◌≤◌};
ghost use Rattle.numbers.specs.Reading.{groups_at, number_at, part_of};

use crate::refusals::Refusal;

// What was read of a file, with the place past it.
#[derive(Clone, Copy)]
pub struct Part<T> {
    pub value: T,
    pub next: usize,
}

// Why bytes are no number: they end inside it, or it is too long or not shortest.
#[derive(Clone, Copy)]
enum Flaw {
    Cut,
    Long,
}

// The rest of a number from `at` on, of which at most `left` bytes may still come. Its last byte is at least `least`.
fn groups(src: &[u8], at: usize, left: u32, least: u32) -> Result<Part<u32>, Flaw>
    requires { left ≤ 4 }
    ensures { result ≡ groups_at left least src.now at }
{
    if left == 0 {
        return Err(Flaw::Long);
    }
    if src.len() <= at {
        return Err(Flaw::Cut);
    }
    let b = u32::from(src[at]);
    if 128 <= b {
        let above = groups(src, at + 1, left - 1, 1)?;
        let value = b % 128 + 128 * above.value;
        return Ok(Part {
            value,
            next: above.next,
        });
    }
    if b < least {
        return Err(Flaw::Long);
    }
    Ok(Part {
        value: b,
        next: at + 1,
    })
}

// The number that stands at `at`. A byte below 128 is a number by itself, and most numbers of a table are such: they are told first.
pub fn number(src: &[u8], at: usize) -> Result<Part<u32>, Refusal>
    ensures { result ≡ part_of (number_at src.now at) }
{
    if at < src.len() {
        let b = u32::from(src[at]);
        if b < 128 {
            let next = at + 1;
            return Ok(Part { value: b, next });
        }
    }
    match groups(src, at, 4, 0) {
        Ok(number) => Ok(number),
        Err(Flaw::Cut) => Err(Refusal::Cut { length: src.len() }),
        Err(Flaw::Long) => Err(Refusal::Long { at }),
    }
}
