// The program `claim_write TABLE CLAIM`: checks the table in a file and writes the claim of its facts to another file. Prints the number of facts,
// the verdict and the number of bytes written; or, where the table is refused, the refusal, and no file is written. Why a table is refused, and what
// is wrong with a file, is said on standard error.
#![tactic(auto)]

ghost use Rattle.claim_write_call.specs.AnyTable.{AnyWritten};

use claim_report::written::{bytes_line, first_line, verdict_line};
use claim_write_call::answer::{WriteRefusal, Written, write_reply_of};
use claim_write_call::write::write_claim;
use files::header::MOST_FACTS;
use inputs::memory::zeros;
use inputs::names::path_of;
use inputs::reading::{NAME_ROOM, has_argument, read_table};
use inputs::telling::{Said, Say, cannot, cannot_argument, print, say_refusal};
use std::fs::OpenFile;
use std::io::{ErrorKind, Write};
use std::rt::{Env, Files};
use std::{fs, io};

// No claim is longer (`claim_reader:ClaimLength.claim_length`). The claim of all positions is as long as this.
const CLAIM_MOST: usize = MOST_FACTS + 5;

// Prints the lines of an answer, as far as they can be printed; a refusal is said in words too.
fn tell(
    rt: &(impl Print + Say),
    table: &[u8],
    answer: Result<Written, WriteRefusal>,
) -> Result<(), Said> {
    print(rt, first_line(answer).as_bytes())?;
    if let Some(line) = verdict_line(table, answer) {
        print(rt, line.as_bytes())?;
    }
    if let Some(line) = bytes_line(answer) {
        print(rt, line.as_bytes())?;
    }
    say_refusal(rt, write_reply_of(answer));
    Ok(())
}

// Waits until the system has taken in what was written to a file. What is wrong with that it may else say only as the file is closed, and a file that is
// dropped does not pass it on. Of a file that is not waited for, as a pipe, it says `InvalidInput`.
fn settle(file: &impl OpenFile) -> io::Result<()> {
    match file.sync_all() {
        Err(why) if why.kind() != ErrorKind::InvalidInput => Err(why),
        _ => Ok(()),
    }
}

// Writes a claim to the file of a name in place of what it holds, and closes it.
fn overwrite(rt: &impl Files, claim: &[u8], name: &[u8]) -> io::Result<()> {
    let mut file = fs::create(rt, path_of(name)?)?;
    file.write_all(claim)?;
    settle(&file)
}

// Writes a claim to the file that the second argument names. Where it is not written says so, after the file is closed: where standard error was closed
// from the start, the file has its number.
fn save(rt: &(impl Env + Files + Say), claim: &[u8]) -> Result<(), Said> {
    let mut name = [0u8; NAME_ROOM];
    let length = rt
        .arg(2, &mut name)
        .map_err(|why| cannot_argument(rt, b"cannot write ", 2, why))?;
    let name = &name[..length];
    overwrite(rt, claim, name).map_err(|why| cannot(rt, b"cannot write ", name, why))
}

// Checks any table and writes its claim: the table is refused, or the claim is written. No table has more facts than the memory and the budget, and no
// claim is longer than the space.
fn write_any(
    table: &[u8],
    mem: &mut [u8; MOST_FACTS],
    space: &mut [u8; CLAIM_MOST],
) -> Result<Written, WriteRefusal>
    ensures { AnyWritten table.now mem.old space.old result mem.new space.new }
{
    write_claim(table, mem, MOST_FACTS, space)
}

// Checks a table and writes its claim.
fn run(rt: &(impl Env + Files + Print + Say), table: &[u8]) -> Result<(), Said> {
    let mut mem: [u8; MOST_FACTS] = zeros();
    let mut space: [u8; CLAIM_MOST] = zeros();
    let answer = write_any(table, &mut mem, &mut space);
    if let Ok(written) = answer {
        save(rt, &space[..written.bytes])?;
    }
    tell(rt, table, answer)
}

fn main(rt: HostRuntime) {
    if !has_argument(&rt, 2) || has_argument(&rt, 3) {
        rt.say(b"usage: claim_write TABLE CLAIM\n");
        return;
    }
    // what comes back of so many bytes comes back of the whole file (`claims:Cuts.claim_writing_cut`)
    let mut table = [0u8; 65536];
    if let Ok(count) = read_table(&rt, &mut table) {
        let _ = run(&rt, &table[..count]);
    }
}
