// A row of numbers: one reader for the rows of the four lists and for the parts of the header.
ghost use Rattle.std.specs.Prelude.{◌≡◌};
ghost use Rattle.numbers.specs.Reading.{bad, part_of, value_of};
ghost use Rattle.cells.specs.Rows.{cell_at, row_at};
ghost use Rattle.cells.specs.Passing.{past_cell, past_row};
ghost use Rattle.reader.specs.Ends.{after};

use crate::columns::Column;
use numbers::reading::Part;
use numbers::refusals::Refusal;
use reader::Reader;
use reader::fields::ranged;

// A row that is refused.
pub fn no_row(refusal: Refusal) -> Result<Part<[u8; 5]>, Refusal>
    ensures { result ≡ part_of (bad refusal) }
{
    Err(refusal)
}

// The cell where a reader stands, read through it: a number in its column's range. The cell of a column that is not there is 0, and takes no bytes.
fn read_cell(r: &mut Reader, column: Column) -> Result<u8, Refusal>
    ensures { (result ≡ value_of (cell_at column r.old.src.now r.old.at)) × (r.new ≡ past_cell column r.old) }
{
    match column.range() {
        Some((low, end)) => {
            let at = r.place();
            let read = r.next();
            let number = ranged(at, read, low, end)?;
            // A cast: no `From` leads from u32 to u8, and the proof shows that it fits.
            Ok(number.value as u8)
        }
        None => Ok(0),
    }
}

// The row where a reader stands, read through it: a cell for each column. The reader moves on past each whole number that a column asks for, up to the
// first cell that is refused.
pub fn row_through(r: &mut Reader, columns: [Column; 5]) -> Result<Part<[u8; 5]>, Refusal>
    ensures { (result ≡ part_of (row_at columns r.old.src.now r.old.at))
        × (r.new ≡ past_row columns r.old) }
{
    let mut cells = [0; 5];
    // A cell is stored by its index: once the borrow of `iter_mut` is over, a proof knows how many cells there are, and not what they are.
    for (i, column) in columns.iter().enumerate() {
        cells[i] = read_cell(r, *column)?;
    }
    Ok(Part {
        value: cells,
        next: r.place(),
    })
}

// The row at `at`, read through a reader.
pub fn row(src: &[u8], at: usize, columns: [Column; 5]) -> Result<Part<[u8; 5]>, Refusal>
    ensures { result ≡ part_of (row_at columns src.now at) }
{
    let mut r = Reader::new(src, at);
    row_through(&mut r, columns)
}

// The row after a part of the file: where that was refused, so is the row.
pub fn row_after(
    src: &[u8],
    before: Result<usize, Refusal>,
    columns: [Column; 5],
) -> Result<Part<[u8; 5]>, Refusal>
    ensures { result ≡ part_of (after before (row_at columns src.now)) }
{
    row(src, before?, columns)
}
