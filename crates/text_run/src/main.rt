// Prints lines of every kind of the listing and of the programs on claims, at the borders of their numbers and positions, and what each refusal says.
#![tactic(auto)]

use fact_text::line::fact_line;
use positions::plan::Plan;
use std::io;
use text::line::Line;
use text::lines::{
    accepted_line, bytes_line, claim_refused_line, facts_line, possible_line, refused_line,
    safe_line,
};
use text::reasons::reason_line;

fn say(rt: &impl Print, line: Line) -> io::Result<()> {
    rt.write_all(line.as_bytes())
}

// The facts at these positions, as far as there are any.
fn facts(rt: &impl Print, s: Plan, positions: &[usize]) -> io::Result<()> {
    for &p in positions {
        if p < s.w {
            say(rt, fact_line(s, p))?;
        }
    }
    Ok(())
}

// Numbers of one digit and more, up to the largest.
fn numbers(rt: &impl Print) -> io::Result<()> {
    for count in [0, 9, 10, 65536, 2360320, usize::MAX] {
        say(rt, facts_line(count))?;
    }
    Ok(())
}

// Witnesses of one to four threads; of five threads there are no more than four local stores. The last line is the longest.
fn witnesses(rt: &impl Print) -> io::Result<()> {
    say(rt, possible_line(1, 2, [3, 4, 5, 6], 1))?;
    say(rt, possible_line(0, 0, [0, 6, 0, 0], 2))?;
    say(rt, possible_line(1, 2, [3, 4, 5, 6], 3))?;
    say(rt, possible_line(64, 15, [15, 0, 9, 10], 4))?;
    say(rt, possible_line(1, 2, [3, 4, 5, 6], 5))?;
    let m = usize::MAX;
    say(rt, possible_line(m, m, [m; 4], 4))
}

// The facts of the recursion table.
fn recursion(rt: &impl Print) -> io::Result<()> {
    facts(rt, Plan::new(1, 2, 2, 1), &[1, 4, 7, 20, 23])
}

// The first and the last fact of each kind at the limits.
fn limits(rt: &impl Print) -> io::Result<()> {
    let s = Plan::new(4, 16, 16, 8);
    facts(rt, s, &[0, 1023, 1024, 263167, 263168, 2360319])
}

// Facts with no two fields alike, where no two sizes are alike.
fn mixed(rt: &impl Print) -> io::Result<()> {
    facts(rt, Plan::new(3, 5, 7, 2), &[69, 3413, 10440])
}

// The lines of the programs on claims: the longest claim, the largest, and refusals of the table, of the claim and of its facts.
fn claims(rt: &impl Print) -> io::Result<()> {
    say(rt, bytes_line(2360325))?;
    say(rt, accepted_line(0))?;
    say(rt, accepted_line(2360320))?;
    say(rt, claim_refused_line(7, 2360320, 0))?;
    say(rt, claim_refused_line(4, 2, 1))?;
    say(rt, claim_refused_line(10, 23, 0))?;
    let m = usize::MAX;
    say(rt, claim_refused_line(m, m, m))
}

// What is said of these numbers, each with its value and its origin.
fn reasons(rt: &impl Print, refusals: &[(usize, usize, usize)]) -> io::Result<()> {
    for &(number, value, origin) in refusals {
        if let Some(line) = reason_line(number, value, origin) {
            say(rt, line)?;
        }
    }
    Ok(())
}

// What each number says; 0 and 13 say nothing.
fn all_numbers(rt: &impl Print) -> io::Result<()> {
    reasons(
        rt,
        &[
            (0, 5, 0),
            (1, 11, 0),
            (2, 4, 0),
            (3, 0, 0),
            (4, 14, 0),
            (5, 20, 0),
            (6, 12, 0),
            (7, 2360320, 0),
            (8, 65536, 0),
            (9, 0, 0),
            (10, 23, 0),
            (11, 1, 0),
            (12, 7, 0),
            (13, 5, 0),
        ],
    )
}

// A byte of a claim is told by origin 1 alone, and only from 1 to 6. The last line is the longest.
fn origins(rt: &impl Print) -> io::Result<()> {
    let m = usize::MAX;
    reasons(
        rt,
        &[
            (0, 5, 1),
            (4, 2, 1),
            (4, 2, 2),
            (7, 36, 1),
            (m, m, m),
            (2, m, 1),
        ],
    )
}

fn main(rt: HostRuntime) -> io::Result<()> {
    numbers(&rt)?;
    say(&rt, safe_line())?;
    witnesses(&rt)?;
    say(&rt, refused_line(1, 0))?;
    say(&rt, refused_line(7, 2360320))?;
    recursion(&rt)?;
    limits(&rt)?;
    mixed(&rt)?;
    claims(&rt)?;
    all_numbers(&rt)?;
    origins(&rt)
}
