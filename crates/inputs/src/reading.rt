// Files that arguments name, and standard input, read into a buffer that the caller lends. Where one is not read, a line on standard error says why.
ghost use Rattle.inputs.specs.Inputs.{Filled};

use crate::names::{path_of, same_name};
use crate::telling::{Said, Say, cannot, cannot_argument};
use std::env::FillError;
use std::io::Read;
use std::rt::{Env, Files};
use std::{fs, io};

// Room for the name of a file: the system takes none of so many bytes.
pub const NAME_ROOM: usize = 4096;

// Whether the program has an argument i. Argument 0 is its own name.
pub fn has_argument(rt: &impl Env, i: usize) -> bool {
    !matches!(rt.arg(i, &mut []), Err(FillError::NotPresent))
}

// Reads an open file until the buffer is full or the file ends, and gives how many bytes stand at the start of the buffer. A read that fails is no end.
// A loop, since how far it is comes from what each read gave; std's `read_to_end` is on the heap.
fn read_open(file: &mut impl Read, buf: &mut [u8]) -> io::Result<usize>
    ensures { Filled result buf.new }
{
    let mut done: usize = 0;
    while done < buf.len() {
        match file.read(&mut buf[done..])? {
            0 => break,
            count => done += count,
        }
    }
    Ok(done)
}

// Opens the file of a name to read it.
fn open<R: Files>(rt: &R, name: &[u8]) -> io::Result<R::File> {
    fs::open(rt, path_of(name)?)
}

// Reads the file of a name.
fn read_named(rt: &(impl Files + Say), name: &[u8], buf: &mut [u8]) -> Result<usize, Said>
    ensures { Filled result buf.new }
{
    let mut file = open(rt, name).map_err(|why| cannot(rt, b"cannot open ", name, why))?;
    read_open(&mut file, buf).map_err(|why| cannot(rt, b"cannot read ", name, why))
}

// Reads the file that argument i names, all of it, or as much as there is room for, and gives how many bytes of the buffer that is.
pub fn read_argument(rt: &(impl Env + Files + Say), i: usize, buf: &mut [u8]) -> Result<usize, Said>
    ensures { Filled result buf.new }
{
    let mut name = [0u8; NAME_ROOM];
    let length = rt
        .arg(i, &mut name)
        .map_err(|why| cannot_argument(rt, b"cannot open ", i, why))?;
    read_named(rt, &name[..length], buf)
}

// Reads standard input, all of it, or as much as there is room for, and gives how many bytes of the buffer that is.
pub fn read_standard_input(rt: &(impl io::Input + Say), buf: &mut [u8]) -> Result<usize, Said>
    ensures { Filled result buf.new }
{
    read_open(&mut rt.reader(), buf).map_err(|why| cannot(
        rt,
        b"cannot read ",
        b"standard input",
        why,
    ))
}

// Where arguments 1 and 2, the table and the claim, are one name, says so.
fn two_names(rt: &(impl Env + Say)) -> Result<(), Said> {
    let mut table = [0u8; NAME_ROOM];
    let Ok(n) = rt.arg(1, &mut table) else {
        return Ok(());
    };
    let mut claim = [0u8; NAME_ROOM];
    let Ok(m) = rt.arg(2, &mut claim) else {
        return Ok(());
    };
    if !same_name(&table[..n], &claim[..m]) {
        return Ok(());
    }
    rt.say(b"the table and the claim are the same file: ");
    rt.say(&table[..n]);
    rt.say(b"\n");
    Err(Said)
}

// Reads the table, the file that argument 1 names. Where argument 2, the claim, is the same name, nothing is opened.
pub fn read_table(rt: &(impl Env + Files + Say), buf: &mut [u8]) -> Result<usize, Said>
    ensures { Filled result buf.new }
{
    two_names(rt)?;
    read_argument(rt, 1, buf)
}
