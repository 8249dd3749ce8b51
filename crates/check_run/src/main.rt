// Runs the check on document 01's reference tables: in memory of 0xAA, with budgets at the count and one below it, and with memory one byte short.
// Then on a table where a row leaves the failed store, and on one that returns from a call. Then counts the bytes that a check is to leave alone
// and did not, and the facts of each kind in the training table, and runs it on tables at the limits of the sizes and just past them. Last comes a
// table that takes all of the bench's memory and budget.
#![tactic(auto)]

ghost use Rattle.std.specs.Prelude.{◌<◌, ◌≤◌};

use check_call::check::check;
use report::answers::{first_line, verdict_line};
use std::io;

// ---- a check, and what comes back

// W of the largest table that is checked here.
const MOST: usize = 9600;

// What each byte of the memory is before a check. No mark is so large.
const FILL: u8 = 0xAA;

// Checks a table in a memory, and prints the lines of the answer.
fn check_in(rt: &impl Print, table: &[u8], mem: &mut [u8], budget: usize) -> io::Result<()> {
    let answer = check(table, mem, budget);
    rt.write_all(first_line(answer).as_bytes())?;
    match verdict_line(table, answer) {
        Some(line) => rt.write_all(line.as_bytes()),
        None => Ok(()),
    }
}

// Checks a table in a memory of so many bytes.
fn run(rt: &impl Print, table: &[u8], bytes: usize, budget: usize) -> io::Result<()>
    requires { bytes ≤ MOST }
{
    let mut mem = [FILL; MOST];
    check_in(rt, table, &mut mem[..bytes], budget)
}

// ---- the reference tables

// W is 36, and there are 5 facts. This table and the smallest stand in `claim_calls_run` too: `training` holds the tables that the specs state.
const RECURSION: [u8; 29] = *b"\x01\x01\x02\x02\x01\x00\x00\x00\
    \x01\x00\x00\x00\x01\x01\
    \x01\x00\x00\x00\x00\x00\
    \x01\x00\x01\x01\x00\x01\
    \x01\x02\x01";

// Memory and budget that are more than enough, exact, and one short.
fn recursion(rt: &impl Print) -> io::Result<()> {
    run(rt, &RECURSION, MOST, 65536)?;
    run(rt, &RECURSION, 36, 5)?;
    run(rt, &RECURSION, 36, 4)?;
    run(rt, &RECURSION, 35, 5)
}

// W is 2, and there is one fact.
const SMALLEST: [u8; 12] = [1, 1, 1, 1, 0, 0, 0, 0, 0, 0, 0, 0];

fn smallest(rt: &impl Print) -> io::Result<()> {
    run(rt, &SMALLEST, MOST, 1)?;
    run(rt, &SMALLEST, MOST, 0)?;
    run(rt, &SMALLEST, 1, 1)?;
    run(rt, &SMALLEST[..11], MOST, 1)?;
    run(rt, &SMALLEST[..0], MOST, 1)?;
    // the failed store is local store 0, where the thread starts, and that is accepted; five threads; a byte more
    run(rt, &[1, 1, 1, 1, 0, 1, 0, 0, 0, 0, 0, 0], MOST, 1)?;
    run(rt, &[1, 5, 1, 1, 0, 0, 0, 0, 0, 0, 0, 0], MOST, 1)?;
    run(rt, &[1, 1, 1, 1, 0, 0, 0, 0, 0, 0, 0, 0, 0], MOST, 1)
}

// W is 9,600, and there are 57 facts.
fn training(rt: &impl Print) -> io::Result<()> {
    let table = training::file();
    run(rt, &table, MOST, 57)?;
    run(rt, &table, MOST, 56)?;
    run(rt, &table, 9599, 57)
}

// The training table's program with two threads and a true/false mutex: W is 2 * (16 + 28 * 28) = 1,600.
fn mutex(rt: &impl Print) -> io::Result<()> {
    let table = training::mutex_file();
    run(rt, &table, MOST, 80)?;
    run(rt, &table, MOST, 79)?;
    run(rt, &table, 1599, 80)
}

// ---- rows that a check must not pass over

// A row leaves the failed store, where the thread starts. It is followed like any other, so there are three facts: the start, where the row leads,
// and its guarantee.
fn leaving_the_failed_store(rt: &impl Print) -> io::Result<()> {
    let table: [u8; 17] = [1, 1, 1, 2, 0, 1, 0, 0, 1, 0, 0, 0, 0, 1, 0, 0, 0];
    run(rt, &table, MOST, 65536)
}

// A call returns to a local store that is reached in no other way, and that is an error: four facts, of which rule 7 gives the last.
fn returning(rt: &impl Print) -> io::Result<()> {
    let table: [u8; 24] = *b"\x01\x01\x01\x03\x01\x00\x00\x00\
        \x00\
        \x01\x00\x00\x00\x01\x00\
        \x01\x00\x00\x01\x00\x02\
        \x01\x00\x03";
    run(rt, &table, MOST, 65536)
}

// ---- the bytes that a check leaves alone

// How many bytes are no longer what they were before the check.
// `claim_calls_run` counts so too: the programs share no crate for it.
fn changed(bytes: &[u8]) -> usize {
    bytes.iter().filter(|&&byte| byte != FILL).count()
}

// Checks a table in the first bytes of a larger memory, and prints besides how many bytes of that are changed from `from` on.
fn watch(rt: &impl Print, table: &[u8], bytes: usize, budget: usize, from: usize) -> io::Result<()>
    requires { (bytes ≤ MOST) × (from ≤ MOST) }
{
    let mut mem = [FILL; MOST];
    check_in(rt, table, &mut mem[..bytes], budget)?;
    println!(rt; "changed {}", changed(&mem[from..]))
}

// Where the check is done or there are more facts than the budget, the first W bytes change, from 0xAA to 0 or 1, and those from W on do not;
// where the memory is short or the table is refused, none does.
fn left_alone(rt: &impl Print) -> io::Result<()> {
    watch(rt, &RECURSION, MOST, 5, 0)?;
    watch(rt, &RECURSION, MOST, 5, 36)?;
    watch(rt, &RECURSION, MOST, 4, 36)?;
    watch(rt, &RECURSION, 35, 5, 0)?;
    watch(rt, &RECURSION[..28], MOST, 5, 0)?;
    let mutex = training::mutex_file();
    watch(rt, &mutex, MOST, 80, 1600)?;
    watch(rt, &mutex, MOST, 79, 1600)
}

// ---- the kinds of facts

// How many marks there are in a part of a memory.
// `claim_calls_run` has `count` for it: the programs share no crate for that.
fn marks(part: &[u8]) -> usize {
    part.iter().filter(|&&byte| byte == 1).count()
}

// How many there are before position 192, and from it on.
fn tell_marks(rt: &impl Print, mem: &[u8; MOST]) -> io::Result<()> {
    println!(rt; "G {}", marks(&mem[..192]))?;
    println!(rt; "P {}", marks(&mem[192..]))
}

// Of the training table's facts, the G facts stand at the first 3 * 8 * 8 positions, and the P facts at the others.
fn kinds(rt: &impl Print) -> io::Result<()> {
    let mut mem = [FILL; MOST];
    check_in(rt, &training::file(), &mut mem, 57)?;
    tell_marks(rt, &mem)
}

// ---- the limits of the sizes

// A table of each size at its limit, the other sizes as small as they may be, and the same with one more.
fn limits(rt: &impl Print) -> io::Result<()> {
    // threads: W is 8; each is at its start, and all are at the failed store
    run(rt, &[1, 4, 1, 1, 0, 1, 0, 0, 0, 0, 0, 0, 0, 0, 0], 8, 4)?;
    run(rt, &[1, 5, 1, 1, 0, 1, 0, 0, 0, 0, 0, 0, 0, 0, 0], 8, 4)?;
    // shared stores: W is 512; a step from the last to the first
    run(
        rt,
        &[1, 1, 16, 1, 0, 0, 15, 0, 1, 0, 15, 0, 0, 0, 0, 0, 0],
        512,
        3,
    )?;
    run(
        rt,
        &[1, 1, 17, 1, 0, 0, 15, 0, 1, 0, 15, 0, 0, 0, 0, 0, 0],
        512,
        3,
    )?;
    // local stores: W is 257; a step from the last to the first
    run(
        rt,
        &[1, 1, 1, 16, 0, 0, 0, 15, 1, 0, 0, 15, 0, 0, 0, 0, 0],
        257,
        3,
    )?;
    run(
        rt,
        &[1, 1, 1, 17, 0, 0, 0, 15, 1, 0, 0, 15, 0, 0, 0, 0, 0],
        257,
        3,
    )?;
    // frames: W is 10; the last is pushed
    run(
        rt,
        &[1, 1, 1, 1, 8, 0, 0, 0, 0, 1, 0, 0, 0, 0, 7, 0, 0],
        10,
        2,
    )?;
    run(
        rt,
        &[1, 1, 1, 1, 9, 0, 0, 0, 0, 1, 0, 0, 0, 0, 7, 0, 0],
        10,
        2,
    )?;
    // all four: W is 2,360,320
    run(
        rt,
        &[1, 4, 16, 16, 8, 0, 0, 0, 0, 0, 0, 0, 0, 0, 0],
        MOST,
        65536,
    )
}

// ---- as much as the bench has

// What the bench has of working memory and of budget, which is W of the table below and the number of its facts.
const BENCH: usize = 65536;

// The bytes of that table.
type Full = [u8; 6097];

// Each thread has a step row from each shared store to each: 1,024 rows. Those to the first six lead from local store 0 to 1, to the next six from 1 to 2,
// and to the last four from 2 to 0.
fn step_row(k: usize) -> [u8; 5]
    requires { k < 1024 }
{
    // Casts, here and below: no `From` leads from usize to u8, and the proof shows that they fit.
    let to = k % 16;
    let local = to / 6;
    [
        (k / 256) as u8,
        (k / 16 % 16) as u8,
        local as u8,
        to as u8,
        ((local + 1) % 3) as u8,
    ]
}

// Each thread calls from each place, 192 rows, and has each of the six frames in one of them.
fn push_row(k: usize) -> [u8; 5]
    requires { k < 192 }
{
    let local = k % 3;
    let shared = k / 3 % 16;
    [
        (k / 48) as u8,
        shared as u8,
        local as u8,
        local as u8,
        (local * 2 + shared % 2) as u8,
    ]
}

// Four threads, 16 shared stores, 3 local stores, 6 frames; the rest of the header is 0, and there are no pop rows and no error rows. W is
// 4 * 256 * (1 + 9 * 7), and every fact holds.
fn full() -> Full {
    let mut file = [0u8; 6097];
    file[..5].copy_from_slice(&[1, 4, 16, 3, 6]);
    file[11..13].copy_from_slice(&[0x80, 0x08]);
    // Two loops: one for both would take the row as a closure with its own `requires`. The range says how far k goes, which the rows ask for.
    for k in 0..1024 {
        let at = 13 + 5 * k;
        file[at..at + 5].copy_from_slice(&step_row(k));
    }
    file[5133..5135].copy_from_slice(&[0xC0, 0x01]);
    for k in 0..192 {
        let at = 5135 + 5 * k;
        file[at..at + 5].copy_from_slice(&push_row(k));
    }
    file
}

// In all that the bench has, with one fact less of budget, and with one byte less of memory.
fn bench(rt: &impl Print) -> io::Result<()> {
    let table = full();
    let mut mem = [0u8; BENCH];
    check_in(rt, &table, &mut mem, BENCH)?;
    check_in(rt, &table, &mut mem, BENCH - 1)?;
    check_in(rt, &table, &mut mem[..BENCH - 1], BENCH)
}

fn main(rt: HostRuntime) -> io::Result<()> {
    recursion(&rt)?;
    smallest(&rt)?;
    training(&rt)?;
    mutex(&rt)?;
    leaving_the_failed_store(&rt)?;
    returning(&rt)?;
    left_alone(&rt)?;
    kinds(&rt)?;
    limits(&rt)?;
    bench(&rt)
}
