// The rows of a table as they are lent: a slice of bytes for each kind, five bytes a row; and a list of row structs.
ghost use Rattle.std.specs.Prelude.{◌≡◌, ◌+◌, ◌*◌, ◌<◌, ◌≤◌, length, get_or};
ghost use Rattle.files.specs.Table.{most_steps};
ghost use Rattle.store.specs.Reading.{row_of, Unpacked};

use files::table::STEP_ROWS;

// A row of five numbers: its thread, its place g, l, and two more. These are g', l' of a step row; l', f of a push row; f, l' of a pop row.
#[derive(Clone, Copy)]
pub struct Row {
    pub t: u8,
    pub g: u8,
    pub l: u8,
    pub u: u8,
    pub v: u8,
}

// How many rows of each kind there are. It is `Counts` of files without the error rows: no rule asks for them, and `RowsOf` of engine has three.
#[derive(Clone, Copy)]
pub struct RowCounts {
    pub steps: usize,
    pub pushes: usize,
    pub pops: usize,
}

// A table's rows, lent: how many there are of each kind, and their bytes. The numbers stand beside the slices: the lent memory is of fixed size, however
// many rows there are, and `RowsOf` of engine speaks of both; as a length over five a number is no plainer. The rows stay bytes; step rows alone are
// unpacked beforehand, into a list, as document 01 asks of them.
#[derive(Clone, Copy)]
pub struct RowLists<'a> {
    pub counts: RowCounts,
    pub steps: &'a [u8],
    pub pushes: &'a [u8],
    pub pops: &'a [u8],
}

// The byte at i of lent rows, as a number that positions are worked out with.
pub fn cell(rows: &[u8], i: usize) -> usize
    requires { i < length rows.now }
    ensures { result ≡ get_or rows.now i 0 }
{
    usize::from(rows[i])
}

// Row i of lent rows: the five bytes from 5 * i on.
pub fn row_at(rows: &[u8], i: usize) -> Row
    requires { i * 5 + 4 < length rows.now }
    ensures { result ≡ row_of rows.now i }
{
    let a = i * 5;
    Row {
        t: rows[a],
        g: rows[a + 1],
        l: rows[a + 2],
        u: rows[a + 3],
        v: rows[a + 4],
    }
}

// The first n step rows as a list of structs, and rows of zeros after them.
// They are an array of fixed size, beside n: a list of n rows would be on the heap.
pub fn step_rows(steps: &[u8], n: usize) -> [Row; STEP_ROWS]
    requires { (n ≤ most_steps) × (n * 5 ≤ length steps.now) }
    ensures { Unpacked steps.now n result }
{
    let zeros = Row {
        t: 0,
        g: 0,
        l: 0,
        u: 0,
        v: 0,
    };
    let mut rows = [zeros; STEP_ROWS];
    // A row is stored by its index, for the reason at `row_through` of cells: `Unpacked` says what the rows are.
    for i in 0..n {
        rows[i] = row_at(steps, i);
    }
    rows
}
