// Writing numbers, in their shortest form.
ghost use Rattle.std.specs.Prelude.{◌≡◌, ◌+◌, ◌≤◌, ◌<◌, length};
ghost use Rattle.std.proofs.lemmas.List.Edits.{sets};
ghost use Rattle.numbers.specs.Writing.{bytes_of, put_next, put_into};

// How many bytes a value takes; four for one that is no number.
pub fn width(value: u32) -> usize
    ensures { result ≡ length (bytes_of value) }
{
    if value < 128 {
        1
    } else if value < 16384 {
        2
    } else if value < 2097152 {
        3
    } else {
        4
    }
}

// The bytes of a number from `at` on, where they have room.
fn put(dst: &mut [u8], at: usize, value: u32)
    requires { (value < 268435456) × (at + length (bytes_of value) ≤ length dst.old) }
    ensures { dst.new ≡ sets dst.old at (bytes_of value) }
{
    if 128 <= value {
        // A cast, here and below: no `From` leads from u32 to u8, and the proof shows that it fits.
        dst[at] = (value % 128 + 128) as u8;
        put(dst, at + 1, value / 128);
    } else {
        dst[at] = value as u8;
    }
}

// Writes a number at `at` and gives the place past it. Where it is no number or has no room, nothing is written and the place is `at`.
// The place `at` itself says so, and no `Option` does: the function could never fail, and `put_next` promises this place.
pub fn put_number(dst: &mut [u8], at: usize, value: u32) -> usize
    ensures { (result ≡ put_next dst.old at value) × (dst.new ≡ put_into dst.old at value) }
{
    if 268435456 <= value {
        return at;
    }
    let n = width(value);
    if dst.len().saturating_sub(at) < n {
        return at;
    }
    put(dst, at, value);
    at + n
}
