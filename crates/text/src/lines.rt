// The lines of the listing, and those of the programs on claims. Each line has a function and a contract of its own; they share `Line::new`.
ghost use Rattle.std.specs.Prelude.{◌≡◌, take};
ghost use Rattle.text.specs.Listing.{facts_line, safe_line, possible_line, refused_line, bytes_line, accepted_line, claim_refused_line};

use crate::line::Line;

// The line of the number of facts.
pub fn facts_line(count: usize) -> Line
    ensures { result ≡ facts_line count }
{
    Line::new(b"facts", &[count])
}

// The line of the verdict "safe".
pub fn safe_line() -> Line
    ensures { result ≡ safe_line }
{
    Line::new(b"verdict safe", &[])
}

// The line of the verdict "possible", with the witness: its row, its shared store, and the local stores of the first n threads. The stores and a
// number beside them stay, and no slice: the promise holds for every n, one above 4 too.
pub fn possible_line(row: usize, g: usize, locals: [usize; 4], n: usize) -> Line
    ensures { result ≡ possible_line row g (take n locals) }
{
    let mut numbers = [row, g, 0, 0, 0, 0];
    numbers[2..].copy_from_slice(&locals);
    let count = 2 + n.min(4);
    Line::new(b"verdict possible", &numbers[..count])
}

// The line of a refusal, with its number and its value.
pub fn refused_line(number: usize, value: usize) -> Line
    ensures { result ≡ refused_line number value }
{
    Line::new(b"refused", &[number, value])
}

// The line of the number of bytes that a written claim takes.
pub fn bytes_line(count: usize) -> Line
    ensures { result ≡ bytes_line count }
{
    Line::new(b"bytes", &[count])
}

// The line of a claim that is accepted, with the number of facts that it claims.
pub fn accepted_line(count: usize) -> Line
    ensures { result ≡ accepted_line count }
{
    Line::new(b"accepted", &[count])
}

// The line of a claim check's refusal, with its number, its value and its origin.
pub fn claim_refused_line(number: usize, value: usize, origin: usize) -> Line
    ensures { result ≡ claim_refused_line number value origin }
{
    Line::new(b"refused", &[number, value, origin])
}
