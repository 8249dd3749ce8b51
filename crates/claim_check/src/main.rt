// The program `claim_check TABLE CLAIM`: checks the claim in a file against the table in another. Prints that it is accepted, with its count of
// facts; or the refusal. Why it is refused, and what is wrong with a file, is said on standard error.
#![tactic(auto)]

use claim_check_call::answer::claim_reply_of;
use claim_check_call::check::check_claim;
use claim_report::checked::checked_line;
use files::header::MOST_FACTS;
use inputs::memory::zeros;
use inputs::reading::{has_argument, read_argument, read_table};
use inputs::telling::{Said, Say, print, say_refusal};
use std::rt::{Env, Files};

// The room for a claim. Of a file that is longer, what comes back of so many bytes comes back of the whole (`claims:Cuts.claim_check_cut`).
const CLAIM_ROOM: usize = MOST_FACTS + 9;

// Checks a claim against a table, and prints the answer; a refusal is said in words too.
fn run(rt: &(impl Print + Say), table: &[u8], claim: &[u8]) -> Result<(), Said> {
    let mut mem: [u8; MOST_FACTS] = zeros();
    let answer = check_claim(table, claim, &mut mem);
    print(rt, checked_line(answer).as_bytes())?;
    say_refusal(rt, claim_reply_of(answer));
    Ok(())
}

// Reads the claim, and checks it against a table.
fn check_against(rt: &(impl Env + Files + Print + Say), table: &[u8]) -> Result<(), Said> {
    let mut claim: [u8; CLAIM_ROOM] = zeros();
    let count = read_argument(rt, 2, &mut claim)?;
    run(rt, table, &claim[..count])
}

fn main(rt: HostRuntime) {
    if !has_argument(&rt, 2) || has_argument(&rt, 3) {
        rt.say(b"usage: claim_check TABLE CLAIM\n");
        return;
    }
    // what comes back of so many bytes comes back of the whole file (`claims:Cuts.claim_check_cut`)
    let mut table = [0u8; 65536];
    if let Ok(count) = read_table(&rt, &mut table) {
        let _ = check_against(&rt, &table[..count]);
    }
}
