// Runs the reader and the writer of numbers on vectors of document 01, a line for each.
#![tactic(auto)]

use numbers::reading::{Part, number};
use numbers::refusals::{Refusal, Told};
use numbers::writing::put_number;
use std::io;

// Bytes in hexadecimal, with a blank after each.
fn bytes(rt: &impl Print, src: &[u8]) -> io::Result<()> {
    for b in src {
        print!(rt; "{b:02x} ")?;
    }
    Ok(())
}

// What is read: a number with the place past it, or the refusal's number and value.
fn tell(rt: &impl Print, read: Result<Part<u32>, Refusal>) -> io::Result<()> {
    match read {
        Ok(Part { value, next }) => print!(rt; ": number {value} next {next}"),
        Err(refusal) => {
            let Told { number, value } = Told::from(refusal);
            print!(rt; ": refused {number} {value}")
        }
    }
}

// The bytes, and what is read of them at `at`.
fn read(rt: &impl Print, src: &[u8], at: usize) -> io::Result<()> {
    bytes(rt, src)?;
    print!(rt; "@{at}")?;
    tell(rt, number(src, at))?;
    println!(rt)
}

// What is read of each list of bytes at its start.
fn read_all(rt: &impl Print, lists: &[&[u8]]) -> io::Result<()> {
    for list in lists {
        read(rt, list, 0)?;
    }
    Ok(())
}

// Writes a value at `at` into six bytes EE, and reads it back.
fn write(rt: &impl Print, value: u32, at: usize) -> io::Result<()> {
    let mut dst = [0xEEu8; 6];
    let next = put_number(&mut dst, at, value);
    print!(rt; "write {value} @{at} next {next}: ")?;
    read(rt, &dst, at)
}

// The least and the greatest number of one to four bytes, and 300.
fn borders(rt: &impl Print) -> io::Result<()> {
    read_all(
        rt,
        &[
            b"\x00",
            b"\x7F",
            b"\x80\x01",
            b"\xAC\x02",
            b"\xFF\x7F",
            b"\x80\x80\x01",
            b"\xFF\xFF\x7F",
            b"\x80\x80\x80\x01",
            b"\xFF\xFF\xFF\x7F",
        ],
    )
}

// Numbers that are not in their shortest form, and numbers that are too long.
fn long(rt: &impl Print) -> io::Result<()> {
    read_all(
        rt,
        &[
            b"\x80\x00",
            b"\x80\x80\x00",
            b"\xFF\xFF\xFF\x00",
            b"\xFF\xFF\xFF\xFF",
            b"\xFF\xFF\xFF\xFF\x01",
            b"\xFF\xFF\xFF\x80\x00\x00",
        ],
    )
}

// Bytes that end too soon.
fn cuts(rt: &impl Print) -> io::Result<()> {
    read_all(rt, &[b"", b"\x80", b"\xFF\xFF\xFF"])
}

// Places inside the bytes, at their end and beyond it.
fn places(rt: &impl Print) -> io::Result<()> {
    read(rt, b"\xFF\xAC\x02\xFF", 1)?;
    read(rt, b"\xFF\xAC\x02\xFF", 2)?;
    read(rt, b"\x01\x80\x00\x01", 1)?;
    read(rt, b"\x01\xFF\xFF\xFF\xFF", 1)?;
    read(rt, b"\x01\x80\x80", 1)?;
    read(rt, b"\x01\x02", 2)?;
    read(rt, b"\x01\x02", 9)
}

// Numbers that are written at 1, the largest at places with no room for it, small ones at the end, and what is no number.
fn writes(rt: &impl Print) -> io::Result<()> {
    for value in [0, 127, 128, 300, 16383, 16384, 2097151, 2097152] {
        write(rt, value, 1)?;
    }
    for at in [1, 2, 3] {
        write(rt, 268435455, at)?;
    }
    write(rt, 300, 5)?;
    for at in [5, 6, 9] {
        write(rt, 0, at)?;
    }
    write(rt, 268435456, 1)
}

fn main(rt: HostRuntime) -> io::Result<()> {
    borders(&rt)?;
    long(&rt)?;
    cuts(&rt)?;
    places(&rt)?;
    writes(&rt)
}
