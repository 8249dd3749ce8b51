// The store: the only place that knows how a mark stands in memory. One byte a fact, 1 if it is marked.
ghost use Rattle.std.specs.Prelude.{◌≡◌, ◌+◌, ◌<◌, ◌≤◌, length, replicate};
ghost use Rattle.store.specs.Marking.{room, Has, SomeIn, LacksIn, NextMark, marked, Is};
ghost use Rattle.store.specs.Clearing.{Cleared};

// Whether there is a mark at p.
pub fn has(mem: &[u8], p: usize) -> bool
    requires { p < room mem.now }
    ensures { Is (Has mem.now p) result }
{
    mem[p] == 1
}

// Whether there is a mark among the n places from x on. It has no branch, so that many places are looked at together.
pub fn some(mem: &[u8], x: usize, n: usize) -> bool
    requires { x + n ≤ room mem.now }
    ensures { Is (SomeIn mem.now x n) result }
{
    let mut found = false;
    for j in 0..n {
        found |= mem[x + j] == 1;
    }
    found
}

// Whether one of the n places from x on has a mark where its partner, of the n from y on, has none. It has no branch, as above.
// Two tests, `some` and `lacks`: one is over one stretch, the other over two.
pub fn lacks(mem: &[u8], x: usize, y: usize, n: usize) -> bool
    requires { (x + n ≤ room mem.now) × (y + n ≤ room mem.now) }
    ensures { Is (LacksIn mem.now x y n) result }
{
    let mut found = false;
    for j in 0..n {
        found |= (mem[x + j] == 1) & (mem[y + j] != 1);
    }
    found
}

// The first mark at or past `from` and below w.
pub fn next_mark(mem: &[u8], from: usize, w: usize) -> Option<usize>
    requires { w ≤ room mem.now }
    ensures { NextMark mem.now from w result }
{
    for p in from..w {
        if has(mem, p) {
            return Some(p);
        }
    }
    None
}

// Puts a mark at p. Every other byte is as it was.
pub fn put_mark(mem: &mut [u8], p: usize)
    requires { p < room mem.old }
    ensures { mem.new ≡ marked mem.old p }
{
    mem[p] = 1;
}

// Takes every mark off: each byte is 0 then, whatever it was.
pub fn clear(mem: &mut [u8])
    ensures { mem.new ≡ replicate (length mem.old) 0 }
{
    mem.fill(0);
}

// Takes the first w marks off, and leaves the others as they are.
pub fn clear_first(mem: &mut [u8], w: usize)
    requires { w ≤ room mem.old }
    ensures { Cleared w mem.old mem.new }
{
    clear(&mut mem[..w]);
}
