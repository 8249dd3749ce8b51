// Runs claim writing and the claim check on document 01's reference tables: the document's claims, claims with a fault at each place, claims that
// were written. Every byte lent and every byte around is 0xAA before a call, and the bytes that a call changes are counted.
#![tactic(auto)]

ghost use Rattle.std.specs.Prelude.{◌≤◌};

use claim_check_call::check::check_claim;
use claim_report::checked::checked_line;
use claim_report::written::{bytes_line, first_line, verdict_line};
use claim_write_call::answer::{WriteRefusal, Written};
use claim_write_call::write::write_claim;
use std::io;

// ---- the bytes lent, and those around

// W of the largest table here, and more than any claim here takes.
const MOST: usize = 9600;

// How many bytes stand before those that are lent. As many stand past them, or more.
const GUARD: usize = 64;

const WITH_GUARDS: usize = MOST + 2 * GUARD;

// What each byte is before a call. No mark is so large, and no claim here has such a byte.
const FILL: u8 = 0xAA;

// How many bytes are this one.
// As `marks` in `check_run`: the programs share no crate for it.
fn count(bytes: &[u8], byte: u8) -> usize {
    bytes.iter().filter(|&&b| b == byte).count()
}

// How many bytes are no longer what they were before the call.
// As in `check_run`: the programs share no crate for it.
fn changed(bytes: &[u8]) -> usize {
    bytes.iter().filter(|&&b| b != FILL).count()
}

// ---- standard output

// Prints bytes, as in `files_run`: the programs share no crate for it.
fn text(rt: &impl Print, bytes: &[u8]) -> io::Result<()> {
    rt.write_all(bytes)
}

// Ends a line with how many bytes are changed before those lent, and past the first `size` of them.
fn tell_around(rt: &impl Print, bytes: &[u8; WITH_GUARDS], size: usize) -> io::Result<()>
    requires { size ≤ MOST }
{
    let before = changed(&bytes[..GUARD]);
    let past = changed(&bytes[GUARD + size..]);
    println!(rt; " before {before} past {past}")
}

// What the first w bytes lent of a memory hold, and how many bytes are changed before and past these.
fn tell_memory(rt: &impl Print, mem: &[u8; WITH_GUARDS], w: usize) -> io::Result<()>
    requires { w ≤ MOST }
{
    let lent = &mem[GUARD..GUARD + w];
    let ones = count(lent, 1);
    let zeros = count(lent, 0);
    print!(rt; "ones {ones} zeros {zeros}")?;
    tell_around(rt, mem, w)
}

// Prints the lines of an answer of claim writing.
fn tell_written(
    rt: &impl Print,
    table: &[u8],
    answer: Result<Written, WriteRefusal>,
) -> io::Result<()> {
    text(rt, first_line(answer).as_bytes())?;
    if let Some(line) = verdict_line(table, answer) {
        text(rt, line.as_bytes())?;
    }
    if let Some(line) = bytes_line(answer) {
        text(rt, line.as_bytes())?;
    }
    Ok(())
}

// The bytes of a claim, in hexadecimal.
fn show(rt: &impl Print, claim: &[u8]) -> io::Result<()> {
    text(rt, b"claim")?;
    for &byte in claim {
        print!(rt; " {byte:02x}")?;
    }
    text(rt, b"\n")
}

// ---- the claim check

// Checks a claim for a table whose facts take w bytes, in a memory of `bytes` bytes, and prints what comes back.
// w stands beside the table, here and below, and is not read from it: one table that is tested is refused, and has no W.
fn check(rt: &impl Print, table: &[u8], w: usize, claim: &[u8], bytes: usize) -> io::Result<()>
    requires { (w ≤ MOST) × (bytes ≤ MOST) }
{
    let mut mem = [FILL; WITH_GUARDS];
    let answer = check_claim(table, claim, &mut mem[GUARD..GUARD + bytes]);
    text(rt, checked_line(answer).as_bytes())?;
    tell_memory(rt, &mem, w)
}

// Checks claims for a table whose facts take w bytes.
fn check_all(rt: &impl Print, table: &[u8], w: usize, claims: &[&[u8]]) -> io::Result<()>
    requires { w ≤ MOST }
{
    for claim in claims {
        check(rt, table, w, claim, MOST)?;
    }
    Ok(())
}

// ---- claim writing

// How many bytes of a space are changed before and past those of a claim. The claim is shown and checked.
// `bytes` is 0 where no claim is written: the whole space is then looked at for changes.
fn check_written(
    rt: &impl Print,
    table: &[u8],
    w: usize,
    space: &[u8; WITH_GUARDS],
    bytes: usize,
) -> io::Result<()>
    requires { (w ≤ MOST) × (bytes ≤ MOST) }
{
    text(rt, b"space")?;
    tell_around(rt, space, bytes)?;
    let claim = &space[GUARD..GUARD + bytes];
    if claim.is_empty() {
        return Ok(());
    }
    show(rt, claim)?;
    check(rt, table, w, claim, MOST)
}

// Writes the claim of a table whose facts take w bytes, in a memory of `bytes` bytes and a space of `size`, and prints what comes back. Where a claim
// is written it is checked.
fn write(
    rt: &impl Print,
    table: &[u8],
    w: usize,
    bytes: usize,
    budget: usize,
    size: usize,
) -> io::Result<()>
    requires { (w ≤ MOST) × (bytes ≤ MOST) × (size ≤ MOST) }
{
    let mut mem = [FILL; WITH_GUARDS];
    let mut space = [FILL; WITH_GUARDS];
    let answer = write_claim(
        table,
        &mut mem[GUARD..GUARD + bytes],
        budget,
        &mut space[GUARD..GUARD + size],
    );
    tell_written(rt, table, answer)?;
    tell_memory(rt, &mem, w)?;
    match answer {
        Ok(claim) => check_written(rt, table, w, &space, claim.bytes),
        Err(_) => check_written(rt, table, w, &space, 0),
    }
}

// ---- the recursion table: W is 36, and there are 5 facts

// As in `check_run`, which says why.
const RECURSION: [u8; 29] = *b"\x01\x01\x02\x02\x01\x00\x00\x00\
    \x01\x00\x00\x00\x01\x01\
    \x01\x00\x00\x00\x00\x00\
    \x01\x00\x01\x01\x00\x01\
    \x01\x02\x01";

// Checks claims for the recursion table.
fn recursion(rt: &impl Print, claims: &[&[u8]]) -> io::Result<()> {
    check_all(rt, &RECURSION, 36, claims)
}

// The claims of document 01, one to a line: the facts; a closed set that is larger; one that lacks position 23; one that allows the error row;
// none.
fn document(rt: &impl Print) -> io::Result<()> {
    text(rt, b"document\n")?;
    recursion(
        rt,
        &[
            b"\x01\x05\x01\x03\x03\x0D\x03",
            b"\x01\x06\x01\x03\x03\x0C\x01\x03",
            b"\x01\x04\x01\x03\x03\x0D",
            b"\x01\x07\x01\x03\x02\x01\x0D\x02\x01",
            b"\x01\x00",
        ],
    )
}

// A claim cut before each of its bytes.
fn cuts(rt: &impl Print) -> io::Result<()> {
    text(rt, b"cut\n")?;
    recursion(
        rt,
        &[
            b"",
            b"\x01",
            b"\x01\x05",
            b"\x01\x05\x01",
            b"\x01\x05\x01\x03",
            b"\x01\x05\x01\x03\x03",
            b"\x01\x05\x01\x03\x03\x0D",
        ],
    )
}

// A fault of the layout at each place, and the borders: version 2; a count that is not in its shortest form; a count of W + 1, and of W; the first
// position is W, and W - 1; a further one is W, and W - 1; a distance of 0; one byte more.
fn layout(rt: &impl Print) -> io::Result<()> {
    text(rt, b"layout\n")?;
    recursion(
        rt,
        &[
            b"\x02\x05\x01\x03\x03\x0D\x03",
            b"\x01\x85\x00\x01\x03\x03\x0D\x03",
            b"\x01\x25",
            b"\x01\x24",
            b"\x01\x01\x24",
            b"\x01\x01\x23",
            b"\x01\x02\x22\x02",
            b"\x01\x02\x22\x01",
            b"\x01\x02\x04\x00",
            b"\x01\x05\x01\x03\x03\x0D\x03\x00",
        ],
    )
}

// The claim of all positions has every start fact and is closed. It has each P, so that the error row's place is reached.
fn all_positions(rt: &impl Print) -> io::Result<()> {
    text(rt, b"all positions\n")?;
    recursion(
        rt,
        &[
            b"\x01\x24\x00\x01\x01\x01\x01\x01\x01\x01\x01\x01\x01\x01\x01\x01\x01\x01\x01\x01\x01\
            \x01\x01\x01\x01\x01\x01\x01\x01\x01\x01\x01\x01\x01\x01\x01\x01\x01",
        ],
    )
}

// ---- the other reference tables

// W is 2, and there is one fact. As in `check_run`, which says why.
const SMALLEST: [u8; 12] = [1, 1, 1, 1, 0, 0, 0, 0, 0, 0, 0, 0];

// The claim of no fact. It lacks thread 0's start fact.
const NONE: [u8; 2] = [1, 0];

// The claim of no fact for the mutex table, whose W is 1,600.
fn mutex_starts(rt: &impl Print) -> io::Result<()> {
    check_all(rt, &training::mutex_file(), 1600, &[&NONE])
}

// The claims of no fact, of the start fact of thread 0, and of threads 0 and 1, for the training table, whose W is 9,600.
fn training_starts(rt: &impl Print) -> io::Result<()> {
    check_all(
        rt,
        &training::file(),
        9600,
        &[
            b"\x01\x00",
            b"\x01\x01\xCF\x04",
            b"\x01\x02\xCF\x04\xC0\x18",
        ],
    )
}

// The claims that lack a start fact.
fn starts(rt: &impl Print) -> io::Result<()> {
    text(rt, b"starts\n")?;
    recursion(rt, &[&NONE])?;
    check_all(rt, &SMALLEST, 2, &[&NONE])?;
    mutex_starts(rt)?;
    training_starts(rt)
}

// The claim of the training table's three start facts and no other. Each thread's first step gives a G and a P fact that it lacks: the smallest of
// these positions is told.
fn several_missing(rt: &impl Print) -> io::Result<()> {
    text(rt, b"several missing\n")?;
    check_all(
        rt,
        &training::file(),
        9600,
        &[b"\x01\x03\xCF\x04\xC0\x18\xC0\x18"],
    )
}

// What comes first: the table's fault, then short memory, then the claim's fault.
fn order(rt: &impl Print) -> io::Result<()> {
    text(rt, b"order\n")?;
    let fault = [2u8];
    check(rt, &RECURSION[..28], 36, &fault, 35)?;
    check(rt, &RECURSION, 36, &fault, 35)?;
    check(rt, &RECURSION, 36, &fault, 36)
}

// Space that is exact and one byte short, and none; memory and budget that are exact and one short; a table that is refused.
fn writing(rt: &impl Print) -> io::Result<()> {
    text(rt, b"writing\n")?;
    write(rt, &RECURSION, 36, MOST, 65536, MOST)?;
    write(rt, &RECURSION, 36, 36, 5, 7)?;
    write(rt, &RECURSION, 36, 36, 5, 6)?;
    write(rt, &RECURSION, 36, 36, 5, 0)?;
    write(rt, &RECURSION, 36, 36, 4, 7)?;
    write(rt, &RECURSION, 36, 35, 5, 7)?;
    write(rt, &RECURSION[..28], 36, 36, 5, 7)
}

// Writes the claim of a table in memory and budget that are exact, and in space that is exact and one byte short.
fn write_exact(rt: &impl Print, table: &[u8], w: usize, facts: usize, size: usize) -> io::Result<()>
    requires { (w ≤ MOST) × (1 ≤ size) × (size ≤ MOST) }
{
    write(rt, table, w, w, facts, size)?;
    write(rt, table, w, w, facts, size - 1)
}

// The claims of the other tables, written and checked: the smallest, training, and the mutex, whose verdict is "possible".
fn written(rt: &impl Print) -> io::Result<()> {
    text(rt, b"written\n")?;
    write_exact(rt, &SMALLEST, 2, 1, 3)?;
    write_exact(rt, &training::file(), 9600, 57, 62)?;
    write_exact(rt, &training::mutex_file(), 1600, 80, 84)
}

fn main(rt: HostRuntime) -> io::Result<()> {
    document(&rt)?;
    cuts(&rt)?;
    layout(&rt)?;
    all_positions(&rt)?;
    starts(&rt)?;
    several_missing(&rt)?;
    order(&rt)?;
    writing(&rt)?;
    written(&rt)
}
