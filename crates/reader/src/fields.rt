// Numbers with a range, read through a reader.
ghost use Rattle.std.specs.Prelude.{◌≡◌};
ghost use Rattle.numbers.specs.Reading.{field_at, version_at, part_of};
ghost use Rattle.reader.specs.Ranges.{ranged_of};

use numbers::reading::Part;
use numbers::refusals::Refusal;

// The one version of a file.
const VERSION: u32 = 1;

// A number that was read at `at`, which is to be at least `low` and below `end`.
pub fn ranged(
    at: usize,
    read: Result<Part<u32>, Refusal>,
    low: u32,
    end: u32,
) -> Result<Part<u32>, Refusal>
    ensures { result ≡ ranged_of at low end read }
{
    let number = read?;
    if number.value < low || end <= number.value {
        return Err(Refusal::Outside { at });
    }
    Ok(number)
}

// The number at `at`, which is to be at least `low` and below `end`.
pub fn field(src: &[u8], at: usize, low: u32, end: u32) -> Result<Part<u32>, Refusal>
    ensures { result ≡ part_of (field_at src.now at low end) }
{
    ranged(at, crate::number_at(src, at), low, end)
}

// The version that a file begins with, which is to be 1.
pub fn version(src: &[u8]) -> Result<Part<u32>, Refusal>
    ensures { result ≡ part_of (version_at src.now) }
{
    let version = crate::number_at(src, 0)?;
    if version.value != VERSION {
        return Err(Refusal::Version);
    }
    Ok(version)
}
