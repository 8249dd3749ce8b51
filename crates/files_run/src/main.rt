// Runs the table reader on the files that standard input writes out, on the training table and on tables at the limits of document 01. Each
// file gets a line that says what comes back.
#![tactic(auto)]

ghost use Rattle.std.specs.Prelude.{◌≤◌, ◌<◌, length, IfOk, IfSome};

use files::header::{Header, w_of};
use files::table::{
    ERROR_BYTES, POP_BYTES, PUSH_BYTES, STEP_BYTES, TableRead, TableRows, read_table,
};
use numbers::refusals::{Refusal, Told};
use numbers::writing::put_number;
use std::io;
use std::io::Read;

// ---- standard output

// Prints bytes, as in `claim_calls_run`: the programs share no crate for it.
fn text(rt: &impl Print, bytes: &[u8]) -> io::Result<()> {
    rt.write_all(bytes)
}

// Cells, each with a blank before it.
fn cells(rt: &impl Print, values: &[u8]) -> io::Result<()> {
    for value in values {
        print!(rt; " {value}")?;
    }
    Ok(())
}

// ---- files that are put together

// Room for a file: a table at the limits takes 8,018 bytes, and here one has a row more.
const ROOM: usize = 8192;

// A file, from its start on. What has no room is left out. Memory and its length by hand, for the reason at `Line` of text.
#[derive(Drop)]
struct File {
    bytes: [u8; ROOM],
    len: usize,
    ghost within: { len ≤ length bytes },
}

impl File {
    // A file with no bytes.
    fn new() -> File {
        File {
            bytes: [0; ROOM],
            len: 0,
        }
    }

    // The file's bytes.
    fn as_slice(&self) -> &[u8] {
        &self.bytes[..self.len]
    }

    // Puts a byte at the end.
    fn put_byte(&mut self, byte: u8) {
        if self.len < ROOM {
            self.bytes[self.len] = byte;
            self.len += 1;
        }
    }

    // Puts a number at the end.
    fn put_number(&mut self, number: u32) {
        self.len = put_number(&mut self.bytes, self.len, number);
    }

    // Puts numbers at the end.
    fn put_numbers(&mut self, numbers: &[u32]) {
        for number in numbers {
            self.put_number(*number);
        }
    }

    // Puts the bytes that are written out, two digits each.
    fn put_written(&mut self, written: &[u8]) {
        for (high, low) in written.iter().zip(written.iter().skip(1)) {
            if let (Some(high), Some(low)) = (digit(*high), digit(*low)) {
                self.put_byte(16 * high + low);
            }
        }
    }

    // Puts the row whose first three numbers are the digits of k, up to 1023, in base 16, and whose last two are given.
    fn put_row(&mut self, k: u32, fourth: u32, fifth: u32) {
        self.put_numbers(&[k / 256, k / 16 % 16, k % 16, fourth, fifth]);
    }

    // Puts a count, and that many ascending rows: of 0, of `pace`, of twice `pace`, and so on.
    fn put_list(&mut self, count: u32, pace: u32, fourth: u32, fifth: u32) {
        self.put_number(count);
        for i in 0..count {
            self.put_row(i.wrapping_mul(pace), fourth, fifth);
        }
    }
}

// ---- what comes back

// What each byte of the memories is before a file is read. No cell of a row is so large.
const FILL: u8 = 170;

// A list's count and the first rows of its memory, at most three, each after a bar.
fn write_list(rt: &impl Print, name: &str, count: usize, memory: &[u8]) -> io::Result<()> {
    print!(rt; ", {name} {count}")?;
    for row in memory.chunks_exact(5).take(count.min(3)) {
        text(rt, b" |")?;
        cells(rt, row)?;
    }
    Ok(())
}

// How many bytes of a memory are as they were before.
fn kept_in(memory: &[u8]) -> usize
    ensures { result ≤ length memory.now }
{
    memory.iter().filter(|byte| **byte == FILL).count()
}

// How many bytes of the four memories are as they were before.
fn kept(rows: &TableRows) -> usize {
    kept_in(&rows.steps) + kept_in(&rows.pushes) + kept_in(&rows.pops) + kept_in(&rows.errors)
}

// A checksum, after the bytes of one memory more.
fn mixed(sum: usize, memory: &[u8]) -> usize {
    memory
        .iter()
        .fold(sum, |sum, byte| 31 * (sum % 65521) + usize::from(*byte))
}

// A number that tells what the memories hold from other contents.
fn checksum(rows: &TableRows) -> usize {
    let steps = mixed(0, &rows.steps);
    let pushes = mixed(steps, &rows.pushes);
    let pops = mixed(pushes, &rows.pops);
    mixed(pops, &rows.errors)
}

// The numbers of the header, and W.
fn write_header(rt: &impl Print, header: Header) -> io::Result<()> {
    let sizes = header.sizes;
    cells(
        rt,
        &[sizes.threads, sizes.shared, sizes.locals, sizes.frames],
    )?;
    cells(rt, &[header.failed, header.start])?;
    cells(rt, &header.firsts)?;
    let w = w_of(sizes);
    print!(rt; ", W {w}")
}

// What is said of a table that is accepted.
fn write_accepted(rt: &impl Print, table: TableRead, rows: &TableRows) -> io::Result<()> {
    let counts = table.counts;
    text(rt, b": accepted")?;
    write_header(rt, table.header)?;
    write_list(rt, "steps", counts.steps, &rows.steps)?;
    write_list(rt, "pushes", counts.pushes, &rows.pushes)?;
    write_list(rt, "pops", counts.pops, &rows.pops)?;
    write_list(rt, "errors", counts.errors, &rows.errors)?;
    let kept = kept(rows);
    let checksum = checksum(rows);
    print!(rt; ", kept {kept}, checksum {checksum}")
}

// What is said of a refusal.
fn write_refused(rt: &impl Print, refusal: Refusal, rows: &TableRows) -> io::Result<()> {
    let Told { number, value } = Told::from(refusal);
    let kept = kept(rows);
    print!(rt; ": refused {number} {value}, kept {kept}")
}

// Runs the table reader on a file and ends a line with what comes back, as
//
//     : accepted 1 2 2 1 0 0 0 0 0 0, W 36, steps 1 | 0 0 0 1 1, pushes 0, pops 0, errors 1 | 2 1 0 0 0, kept 7990, checksum 12345
//     : refused 4 1, kept 8000
//
// The numbers after `accepted` are n, G, L, F, failed, the initial shared store and four initial local stores. Each list has its count
// and the first rows of its memory, at most three. The four memories have 8,000 bytes, which are all 170 before: `kept` counts those
// that still are. No cell is 170, so after a refusal all 8,000 are kept.
fn show(rt: &impl Print, file: &[u8]) -> io::Result<()> {
    let mut rows = TableRows {
        steps: [FILL; STEP_BYTES],
        pushes: [FILL; PUSH_BYTES],
        pops: [FILL; POP_BYTES],
        errors: [FILL; ERROR_BYTES],
    };
    match read_table(file, &mut rows) {
        Ok(table) => write_accepted(rt, table, &rows)?,
        Err(refusal) => write_refused(rt, refusal, &rows)?,
    }
    text(rt, b"\n")
}

// ---- files that are written out

// Files written out as in document 01, two hexadecimal digits a byte, with blanks, bars and commas between the bytes. A line of the input
// is a label, a colon and a file; one with no colon is a heading.

// The value of a hexadecimal digit.
fn digit(byte: u8) -> Option<u8>
    ensures { IfSome result (λ value. value < 16) }
{
    match byte {
        b'0'..=b'9' => Some(byte - b'0'),
        b'A'..=b'F' => Some(byte - b'A' + 10),
        _ => None,
    }
}

// A heading is written as it stands, a label with what comes back for its file.
fn run_line(rt: &impl Print, line: &[u8]) -> io::Result<()> {
    match line.iter().position(|byte| *byte == b':') {
        Some(colon) => {
            text(rt, &line[..colon])?;
            let mut file = File::new();
            file.put_written(&line[colon..]);
            show(rt, file.as_slice())
        }
        None => {
            text(rt, line)?;
            text(rt, b"\n")
        }
    }
}

// The lines of the input.
fn run_written(rt: &impl Print, input: &[u8]) -> io::Result<()> {
    for line in input.split_inclusive(|byte| *byte == b'\n') {
        run_line(rt, line.strip_suffix(b"\n").unwrap_or(line))?;
    }
    Ok(())
}

// ---- large files

// The training table, whole, cut and with one byte changed; tables with as many rows as the limits allow, and with one more.

// What comes back for the first n bytes of the training table.
fn training_first(rt: &impl Print, n: usize) -> io::Result<()>
    requires { n ≤ 576 }
{
    let table = training::file();
    print!(rt; "first bytes {n}")?;
    show(rt, &table[..n])
}

// What comes back for the training table with one byte changed.
fn training_with(rt: &impl Print, at: usize, byte: u8) -> io::Result<()>
    requires { at < 576 }
{
    let mut table = training::file();
    table[at] = byte;
    print!(rt; "byte {at} set to {byte}")?;
    show(rt, &table)
}

// Changes of the header, of the counts, and of a row's first, a middle and the last cell.
fn run_training(rt: &impl Print) -> io::Result<()> {
    text(rt, b"\nThe training table\n")?;
    training_first(rt, 576)?;
    training_first(rt, 575)?;
    // the version, n, G, L
    training_with(rt, 0, 2)?;
    training_with(rt, 1, 4)?;
    training_with(rt, 2, 7)?;
    training_with(rt, 3, 6)?;
    // the count of step rows, the first row's t, the second row's l, the last row's l'
    training_with(rt, 10, 89)?;
    training_with(rt, 10, 91)?;
    training_with(rt, 11, 3)?;
    training_with(rt, 18, 0)?;
    training_with(rt, 460, 6)?;
    training_with(rt, 460, 7)?;
    // the counts of push rows, pop rows and error rows, the last cell
    training_with(rt, 461, 1)?;
    training_with(rt, 462, 1)?;
    training_with(rt, 463, 27)?;
    training_with(rt, 463, 29)?;
    training_with(rt, 575, 7)?;
    training_with(rt, 575, 8)
}

// A table of the largest sizes with so many rows in each list: four threads, 16 shared stores, 16 local stores and 8 frames, and every other number of
// the header at its highest.
fn limits(rt: &impl Print, steps: u32, pushes: u32, pops: u32, errors: u32) -> io::Result<()> {
    let mut file = File::new();
    file.put_numbers(&[1, 4, 16, 16, 8, 16, 15, 15, 15, 15, 15]);
    file.put_list(steps, 1, 15, 15);
    file.put_list(pushes, 4, 15, 7);
    file.put_list(pops, 4, 7, 15);
    file.put_list(errors, 16, 16, 16);
    print!(rt; "rows {steps} {pushes} {pops} {errors}")?;
    show(rt, file.as_slice())
}

fn run_limits(rt: &impl Print) -> io::Result<()> {
    text(rt, b"\nTables at the limits\n")?;
    limits(rt, 1024, 256, 256, 64)?;
    limits(rt, 1025, 256, 256, 64)?;
    limits(rt, 1024, 257, 256, 64)?;
    limits(rt, 1024, 256, 257, 64)?;
    limits(rt, 1024, 256, 256, 65)?;
    limits(rt, 128, 127, 128, 64)
}

// ---- standard input

// Reads until the buffer is full or the input ends, and gives how many bytes were read. It is the loop of `inputs`, which stands on the check and the
// report; this program stands on the readers alone. There an error is said in words, here `main` ends with it.
fn read_full(input: &mut impl Read, buf: &mut [u8]) -> io::Result<usize>
    ensures { IfOk result (λ n. n ≤ length buf.new) }
{
    let mut done = 0;
    while done < buf.len() {
        let n = input.read(&mut buf[done..])?;
        if n == 0 {
            break;
        }
        done += n;
    }
    Ok(done)
}

fn main(rt: HostRuntime) -> io::Result<()> {
    let mut input = [0u8; 65536];
    let n = read_full(&mut rt.reader(), &mut input)?;
    run_written(&rt, &input[..n])?;
    run_training(&rt)?;
    run_limits(&rt)
}
