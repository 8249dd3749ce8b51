// Uses of rules at positions: the mark at x gives the mark at y. One function puts marks; lines of uses call it.
ghost use Rattle.std.specs.Prelude.{◌+◌, ◌<◌, ◌≤◌};
ghost use Rattle.store.specs.Marking.{room};
ghost use Rattle.uses.specs.Uses.{Single, Upto, Line};
ghost use Rattle.uses.specs.Passing.{Swept};

use store::marks::{has, lacks, put_mark};

// What a pass carries. A pass that looks: the smallest position found lacking. A pass that puts: how many marks may still be put until there
// are more than the budget. Where none is left, nothing is done any more. One struct for both kinds, `best` = w where none lacks, and `put` beside it: the
// definitions `Puts` and `Looked` of specs/Passing speak of a Pass before and after, and `Swept` of the flag too; engine's definitions and lemmas name
// them, and lemmas of passes and steps name `Swept`.
#[derive(Clone, Copy)]
pub struct Pass {
    pub best: usize,
    pub left: usize,
}

// One use: where x has a mark and y has none, a pass that puts marks y, and one that looks remembers y if it is the smallest so far.
pub fn one(mem: &mut [u8], put: bool, pass: Pass, x: usize, y: usize) -> Pass
    requires { (x < room mem.old) × (y < room mem.old) }
    ensures { Swept (Single x y) put pass result mem.old mem.new }
{
    if !has(mem, x) || has(mem, y) || pass.left == 0 {
        return pass;
    }
    if put {
        put_mark(mem, y);
        // Each mark that is put is taken off: none is left exactly if one was put that the budget does not have, and then the answer is "over".
        return Pass {
            left: pass.left - 1,
            ..pass
        };
    }
    Pass {
        best: y.min(pass.best),
        ..pass
    }
}

// A line of n uses: x + j gives y + j. Most lines lack nothing, and this is seen at once.
pub fn line(mem: &mut [u8], put: bool, pass: Pass, x: usize, y: usize, n: usize) -> Pass
    requires { (x + n ≤ room mem.old) × (y + n ≤ room mem.old) }
    ensures { Swept (Upto (Line x y) n) put pass result mem.old mem.new }
{
    if !lacks(mem, x, y, n) {
        return pass;
    }
    let mut sofar = pass;
    for j in 0..n {
        sofar = one(mem, put, sofar, x + j, y + j);
    }
    sofar
}
