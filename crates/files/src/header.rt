// The header of a table file: all that stands before the count of step rows.
ghost use Rattle.std.specs.Prelude.{◌≡◌};
ghost use Rattle.numbers.specs.Reading.{part_of};
ghost use Rattle.files.specs.Table.{w_of};
ghost use Rattle.files.specs.Header.{size_columns, place_columns, local_columns, header_at, sizes_of};

use cells::columns::{Column, Sizes};
use cells::row::row_after;
use numbers::reading::Part;
use numbers::refusals::Refusal;
use reader::fields::version;

// How many threads, shared stores, local stores and frames there may be.
const MOST_THREADS: u8 = 4;

const MOST_SHARED: u8 = 16;

const MOST_LOCALS: u8 = 16;

const MOST_FRAMES: u8 = 8;

// W of the largest table that the limits allow: no table has more facts.
pub const MOST_FACTS: usize = 2360320;

// What the header says. `failed` is 0 for no failed store and k + 1 for local store k; `start` is the initial shared store;
// `firsts` has each thread's initial local store, and 0 for the threads that are not there. The zeros are those of the row's absent columns:
// `header_in` of specs/ has them too.
// `failed` is the file's own number and no Option: `header_in` of specs/ promises that it is the `failed` of the table.
#[derive(Clone, Copy, Debug, PartialEq, Eq)]
pub struct Header {
    pub sizes: Sizes,
    pub failed: u8,
    pub start: u8,
    pub firsts: [u8; 4],
}

// W of a table of these sizes: how many facts it may have, and so how many bytes of working memory it takes.
pub fn w_of(sizes: Sizes) -> usize
    ensures { result ≡ w_of sizes.threads sizes.shared sizes.locals sizes.frames }
{
    let n = usize::from(sizes.threads);
    let shared = usize::from(sizes.shared);
    let locals = usize::from(sizes.locals);
    let frames = usize::from(sizes.frames);
    n * (shared * shared) * (1 + locals * locals * (1 + frames))
}

// The sizes of a table.
fn size_columns() -> [Column; 5]
    ensures { result ≡ size_columns }
{
    [
        Column::Within {
            low: 1,
            most: MOST_THREADS,
        },
        Column::Within {
            low: 1,
            most: MOST_SHARED,
        },
        Column::Within {
            low: 1,
            most: MOST_LOCALS,
        },
        Column::Within {
            low: 0,
            most: MOST_FRAMES,
        },
        Column::Absent,
    ]
}

// The failed store and the initial shared store.
fn place_columns(z: Sizes) -> [Column; 5]
    ensures { result ≡ place_columns z }
{
    let failed = Column::Within {
        low: 0,
        most: z.locals,
    };
    let shared = Column::Below { end: z.shared };
    [
        failed,
        shared,
        Column::Absent,
        Column::Absent,
        Column::Absent,
    ]
}

// Each thread's initial local store.
fn local_columns(z: Sizes) -> [Column; 5]
    ensures { result ≡ local_columns z }
{
    let local = Column::Below { end: z.locals };
    let [first, second, third, fourth] = local.per_thread(z.threads);
    [first, second, third, fourth, Column::Absent]
}

// The sizes in the first four cells of a row.
// A function and no `From`: neither `Sizes` nor an array is a type of this crate.
fn sizes_of(cells: [u8; 5]) -> Sizes
    ensures { result ≡ sizes_of cells }
{
    let [threads, shared, locals, frames, _] = cells;
    Sizes {
        threads,
        shared,
        locals,
        frames,
    }
}

// The header at the start of a file.
pub fn read_header(src: &[u8]) -> Result<Part<Header>, Refusal>
    ensures { result ≡ part_of (header_at src.now) }
{
    let version = version(src)?;
    let first = row_after(src, Ok(version.next), size_columns())?;
    let sizes = sizes_of(first.value);
    let second = row_after(src, Ok(first.next), place_columns(sizes))?;
    let third = row_after(src, Ok(second.next), local_columns(sizes))?;
    let [failed, start, _, _, _] = second.value;
    let [a, b, c, d, _] = third.value;
    let header = Header {
        sizes,
        failed,
        start,
        firsts: [a, b, c, d],
    };
    Ok(Part {
        value: header,
        next: third.next,
    })
}
