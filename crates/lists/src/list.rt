// Lists of rows: one reader for the four lists. A list is found first, with nothing stored, and then kept in memory.
ghost use Rattle.std.specs.Prelude.{◌≡◌, [], ◌+◌, ◌*◌, ◌≤◌, ◌<◌, length};
ghost use Rattle.numbers.specs.Reading.{number_at, part_of};
ghost use Rattle.reader.specs.Ends.{end_of};
ghost use Rattle.cells.specs.Rows.{cell_at, row_at};
ghost use Rattle.lists.specs.Lists.{next_row, rows_at, list_at};
ghost use Rattle.lists.specs.ListAnswers.{list_of, list_after};
ghost use Rattle.lists.specs.Keeping.{Found, FoundByte, CellKept, RowKept, list_held};
ghost use Rattle.lists.specs.Stages.{old_of};

use cells::columns::Column;
use cells::row::{no_row, row};
use numbers::reading::Part;
use numbers::refusals::Refusal;
use reader::fields::field;

// The row at `at`, which is to be above the one before it, where there is one.
fn next_row(
    src: &[u8],
    at: usize,
    columns: [Column; 5],
    before: Option<[u8; 5]>,
) -> Result<Part<[u8; 5]>, Refusal>
    ensures { result ≡ part_of (next_row (old_of before) columns src.now at) }
{
    let row = row(src, at, columns)?;
    match before {
        Some(old) if row.value <= old => no_row(Refusal::NotAbove { at }),
        _ => Ok(row),
    }
}

// ---- finding a list

// The place past `count` rows from `at` on, each above the one before.
fn find_rows(src: &[u8], at: usize, count: usize, columns: [Column; 5]) -> Result<usize, Refusal>
    ensures { result ≡ end_of (rows_at count [] columns src.now at) }
{
    let mut before = None;
    let mut next = at;
    for _i in 0..count {
        let row = next_row(src, next, columns, before)?;
        before = Some(row.value);
        next = row.next;
    }
    Ok(next)
}

// How many rows the list of at most `most` rows at `at` has, and the place past it: the count stands first, then the rows.
// `most` and `columns` are two parameters here and below: who calls has both in one call, a constant and what a method gives. A struct is no plainer.
pub fn find_at(
    src: &[u8],
    at: usize,
    most: u16,
    columns: [Column; 5],
) -> Result<Part<usize>, Refusal>
    ensures { result ≡ list_of (list_at most columns src.now at) }
{
    let number = field(src, at, 0, u32::from(most) + 1)?;
    // A cast, here and below: no `From` leads from u32 to usize.
    let count = number.value as usize;
    let next = find_rows(src, number.next, count, columns)?;
    Ok(Part { value: count, next })
}

// The list of at most `most` rows after a part of the file: where that was refused, so is the list.
pub fn find_list(
    src: &[u8],
    before: Result<usize, Refusal>,
    most: u16,
    columns: [Column; 5],
) -> Result<Part<usize>, Refusal>
    ensures { result ≡ list_of (list_after before most columns src.now) }
{
    find_at(src, before?, most, columns)
}

// ---- keeping a list that was found

// The number at `at`, which was found and fits a byte, into dst at `to`. Gives the place past it. Such a number is its first byte, and has a second one,
// which is 1, where the first is at least 128.
// dst and `to` are two parameters, here and below: `CellKept` and `RowKept` of specs/ are of the memory and the place in it.
fn keep_number(src: &[u8], at: usize, dst: &mut [u8], to: usize) -> usize
    requires { FoundByte (number_at src.now at) × (to < length dst.old) }
    ensures { CellKept (number_at src.now at) to dst.old dst.new result }
{
    let b = src[at];
    dst[to] = b;
    at + 1 + usize::from(b / 128)
}

// The cell of a column at `at`, which was found, into dst at `to`: the number there, with no range asked again; 0 for a column that is not there. Gives
// the place past it.
fn keep_cell(src: &[u8], at: usize, column: Column, dst: &mut [u8], to: usize) -> usize
    requires { Found (cell_at column src.now at) × (to < length dst.old) }
    ensures { CellKept (cell_at column src.now at) to dst.old dst.new result }
{
    match column.range() {
        Some(_) => keep_number(src, at, dst, to),
        None => {
            dst[to] = 0;
            at
        }
    }
}

// The row at `at`, which was found, into dst from `base` on. Gives the place past it.
fn keep_row(src: &[u8], at: usize, columns: [Column; 5], dst: &mut [u8], base: usize) -> usize
    requires { Found (row_at columns src.now at) × (base + 5 ≤ length dst.old) }
    ensures { RowKept (row_at columns src.now at) base dst.old dst.new result }
{
    let mut next = at;
    // A cell is kept by its place, for the reason at `row_through` of cells: `RowKept` says what dst has.
    for (j, column) in columns.iter().enumerate() {
        next = keep_cell(src, next, *column, dst, base + j);
    }
    next
}

// `count` rows from `at` on, which were found, into dst, five bytes a row. So no row is compared.
fn keep_rows(src: &[u8], at: usize, count: usize, columns: [Column; 5], dst: &mut [u8])
    requires { Found (rows_at count [] columns src.now at) × (5 * count ≤ length dst.old) }
    ensures { dst.new ≡ list_held (rows_at count [] columns src.now at) dst.old }
{
    let mut next = at;
    // Rows are stored by their place: once the borrow of `chunks_mut` is over, a proof knows how long dst is, and not what it has.
    for i in 0..count {
        next = keep_row(src, next, columns, dst, 5 * i);
    }
}

// The list of at most `most` rows at `at`, which was found, into dst.
pub fn keep_at(src: &[u8], at: usize, most: u16, columns: [Column; 5], dst: &mut [u8])
    requires { Found (list_at most columns src.now at) × (5 * most ≤ length dst.old) }
    ensures { dst.new ≡ list_held (list_at most columns src.now at) dst.old }
{
    if let Ok(count) = field(src, at, 0, u32::from(most) + 1) {
        keep_rows(src, count.next, count.value as usize, columns, dst);
    }
}

// The list after a part of the file, which was found, into dst: its rows from the start on, five bytes a row.
pub fn keep_list(
    src: &[u8],
    before: Result<usize, Refusal>,
    most: u16,
    columns: [Column; 5],
    dst: &mut [u8],
)
    requires { Found (list_after before most columns src.now) × (5 * most ≤ length dst.old) }
    ensures { dst.new ≡ list_held (list_after before most columns src.now) dst.old }
{
    if let Ok(at) = before {
        keep_at(src, at, most, columns, dst);
    }
}
