// The whole table file, into memory of the caller's: five bytes a row, each list in a memory of its own. A file is found to be a table first, and
// only then is a byte stored.
ghost use Rattle.std.specs.Prelude.{◌≡◌, ℕ};
ghost use Rattle.numbers.specs.Reading.{got, value_of};
ghost use Rattle.files.specs.File.{TableIs};
ghost use Rattle.files.specs.Stages.{parts_at, PartsKept};

use crate::header::{Header, read_header};
use lists::list::{find_list, keep_list};
use numbers::refusals::Refusal;
use reader::ends::end_after;

// How many rows each list may have.
const MOST_STEPS: u16 = 1024;

const MOST_PUSHES: u16 = 256;

const MOST_POPS: u16 = 256;

const MOST_ERRORS: u16 = 64;

// A cast, here and below: a constant calls no `From`.
pub const STEP_ROWS: usize = MOST_STEPS as usize;

// The memory that the rows of each list take at most: five bytes a row.
pub const STEP_BYTES: usize = 5 * STEP_ROWS;

pub const PUSH_BYTES: usize = 5 * MOST_PUSHES as usize;

pub const POP_BYTES: usize = 5 * MOST_POPS as usize;

pub const ERROR_BYTES: usize = 5 * MOST_ERRORS as usize;

// How many rows each list has.
#[derive(Clone, Copy, Debug, PartialEq, Eq)]
pub struct Counts {
    pub steps: usize,
    pub pushes: usize,
    pub pops: usize,
    pub errors: usize,
}

// The memory for the rows of a table, five bytes a row. Four fields and no array: each list has its own limit, so its memory its own type. The counts
// and the places of the lists have the same four fields.
#[derive(Drop)]
pub struct TableRows {
    pub steps: [u8; STEP_BYTES],
    pub pushes: [u8; PUSH_BYTES],
    pub pops: [u8; POP_BYTES],
    pub errors: [u8; ERROR_BYTES],
}

impl TableRows {
    ghost use Rattle.files.specs.File.{no_rows};

    // A memory with no rows: all zeros.
    pub fn new() -> TableRows
        ensures { result ≡ no_rows }
    {
        TableRows {
            steps: [0; STEP_BYTES],
            pushes: [0; PUSH_BYTES],
            pops: [0; POP_BYTES],
            errors: [0; ERROR_BYTES],
        }
    }
}

// A table that was read: its header, and how many rows of each list stand in memory.
#[derive(Clone, Copy, Debug, PartialEq, Eq)]
pub struct TableRead {
    pub header: Header,
    pub counts: Counts,
}

// The parts of a table file: the header, how many rows each list has, and the place where each list begins.
#[derive(Clone, Copy)]
struct Parts {
    header: Header,
    counts: Counts,
    steps: usize,
    pushes: usize,
    pops: usize,
    errors: usize,
}

// The parts of a file that is a table, found one after the other.
fn find_parts(src: &[u8]) -> Result<Parts, Refusal>
    ensures { result ≡ value_of (parts_at src.now) }
{
    let top = read_header(src)?;
    let sizes = top.value.sizes;
    let steps = find_list(src, Ok(top.next), MOST_STEPS, sizes.step_columns())?;
    let pushes = find_list(src, Ok(steps.next), MOST_PUSHES, sizes.push_columns())?;
    let pops = find_list(src, Ok(pushes.next), MOST_POPS, sizes.pop_columns())?;
    let errors = find_list(src, Ok(pops.next), MOST_ERRORS, sizes.error_columns())?;
    end_after(src, Ok(errors.next))?;
    let counts = Counts {
        steps: steps.value,
        pushes: pushes.value,
        pops: pops.value,
        errors: errors.value,
    };
    Ok(Parts {
        header: top.value,
        counts,
        steps: top.next,
        pushes: steps.next,
        pops: pushes.next,
        errors: pops.next,
    })
}

// The rows of a table that was found, into memory.
fn keep_parts(src: &[u8], parts: Parts, rows: &mut TableRows)
    requires { (end : ℕ) × (parts_at src.now ≡ got parts end) }
    ensures { PartsKept src.now parts rows.old rows.new }
{
    let sizes = parts.header.sizes;
    keep_list(
        src,
        Ok(parts.steps),
        MOST_STEPS,
        sizes.step_columns(),
        &mut rows.steps,
    );
    keep_list(
        src,
        Ok(parts.pushes),
        MOST_PUSHES,
        sizes.push_columns(),
        &mut rows.pushes,
    );
    keep_list(
        src,
        Ok(parts.pops),
        MOST_POPS,
        sizes.pop_columns(),
        &mut rows.pops,
    );
    keep_list(
        src,
        Ok(parts.errors),
        MOST_ERRORS,
        sizes.error_columns(),
        &mut rows.errors,
    );
}

// The table that a file holds, or the refusal. The rows go into memory, five bytes a row; a refusal changes nothing.
pub fn read_table(src: &[u8], rows: &mut TableRows) -> Result<TableRead, Refusal>
    ensures { TableIs src.now result rows.old rows.new }
{
    let parts = find_parts(src)?;
    keep_parts(src, parts, rows);
    Ok(TableRead {
        header: parts.header,
        counts: parts.counts,
    })
}
