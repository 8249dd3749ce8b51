// The lines of the facts, one at a call, in position order.
ghost use Rattle.std.specs.Prelude.{◌≡◌};
ghost use Rattle.files.specs.Table.{Table};
ghost use Rattle.positions.specs.Plans.{plan_of};
ghost use Rattle.report.specs.Listed.{NextIn, MarkedIn, NextOf};

use fact_text::line::fact_line;
use files::header::read_header;
use positions::plan::Plan;
use store::marks::next_mark;
use text::line::Line;

// A fact that is listed: its line, and the position past it.
#[derive(Clone, Copy)]
pub struct ListedFact {
    pub line: Line,
    pub next: usize,
}

// The next fact of any table with plan s.
fn next_in(s: Plan, mem: &[u8], from: usize) -> Option<ListedFact>
    ensures { (T : Table) → s ≡ plan_of T → NextIn T (MarkedIn T mem.now) from result }
{
    let w = s.w;
    if mem.len() < w {
        return None;
    }
    let p = next_mark(mem, from, w)?;
    let line = fact_line(s, p);
    let next = p + 1;
    Some(ListedFact { line, next })
}

// The first fact at or past position `from` that is marked in a table's working memory. There is none where the memory is shorter than W, and where the
// table's header is refused.
pub fn next_fact(table: &[u8], mem: &[u8], from: usize) -> Option<ListedFact>
    ensures { NextOf table.now mem.now from result }
{
    match read_header(table) {
        Ok(read) => next_in(Plan::of(read.value.sizes), mem, from),
        Err(_) => None,
    }
}
