// The program `listing < TABLE` (document 01, "Reference tables and results"): checks the table on standard input and prints what comes back. Why a
// table is refused, and what is wrong with the input or the output, is said on standard error.
#![tactic(auto)]

ghost use Rattle.std.specs.Prelude.{◌≡◌, ◌≤◌, length};
ghost use Rattle.check_call.specs.Checking.{Checked};

use check_call::answer::{CheckRefusal, Done, Reply};
use check_call::check::check;
use inputs::reading::{has_argument, read_standard_input};
use inputs::telling::{Said, Say, print, say_refusal};
use report::answers::{first_line, verdict_line};
use report::facts::next_fact;

// The bench's working memory, and how many facts a check may find there.
type Memory = [u8; 65536];

const BUDGET: usize = 65536;

// Checks a table with all that the bench has.
fn check_on_bench(table: &[u8], mem: &mut Memory) -> Result<Done, CheckRefusal>
    ensures { Checked table.now 65536 mem.old result mem.new × (length mem.old ≡ 65536) }
{
    check(table, mem, BUDGET)
}

// The room for lines that are printed together.
const PAGE: usize = 4096;

// Lines that are printed together, in memory of their own: a `BufWriter`'s would be on the heap, and std has no list of fixed capacity (as at `Line` of
// text).
#[derive(Drop)]
struct Page {
    bytes: [u8; PAGE],
    used: usize,
    ghost within: { used ≤ length bytes },
}

impl Page {
    // A page with no lines.
    fn new() -> Page {
        Page {
            bytes: [0; PAGE],
            used: 0,
        }
    }

    // Prints the lines of the page.
    fn print(&self, rt: &(impl Print + Say)) -> Result<(), Said> {
        print(rt, &self.bytes[..self.used])
    }

    // Puts a line on the page. A page without room for the line is printed first and begun anew.
    fn put(&mut self, rt: &(impl Print + Say), line: &[u8]) -> Result<(), Said>
        requires { length line.now ≤ PAGE }
    {
        if PAGE - self.used < line.len() {
            self.print(rt)?;
            self.used = 0;
        }
        let end = self.used + line.len();
        self.bytes[self.used..end].copy_from_slice(line);
        self.used = end;
        Ok(())
    }
}

// Prints the facts that are marked, a line each, as far as they can be printed.
fn list(rt: &(impl Print + Say), table: &[u8], mem: &Memory) -> Result<(), Said> {
    let mut page = Page::new();
    let mut from = 0;
    // A loop that goes on as the facts say; it counts nothing.
    while let Some(fact) = next_fact(table, mem, from) {
        page.put(rt, fact.line.as_bytes())?;
        from = fact.next;
    }
    page.print(rt)
}

// Checks a table, and prints the answer: the facts too, if the check is done; else the refusal is said in words.
fn run(rt: &(impl Print + Say), table: &[u8]) -> Result<(), Said> {
    let mut mem: Memory = [0; 65536];
    let answer = check_on_bench(table, &mut mem);
    print(rt, first_line(answer).as_bytes())?;
    if let Some(line) = verdict_line(table, answer) {
        print(rt, line.as_bytes())?;
    }
    match answer {
        Ok(_) => list(rt, table, &mem),
        Err(refusal) => {
            say_refusal(rt, Reply::from(refusal));
            Ok(())
        }
    }
}

fn main(rt: HostRuntime) {
    if has_argument(&rt, 1) {
        rt.say(b"usage: listing < TABLE\n");
        return;
    }
    let mut input = [0u8; 65536];
    if let Ok(count) = read_standard_input(&rt, &mut input) {
        let _ = run(&rt, &input[..count]);
    }
}
