// Stretches of P facts by their numbers. The stretches of Q facts of a thread from one pair are counted together, in the same order.
ghost use Rattle.std.specs.Prelude.{◌≡◌, ◌/◌, ◌%◌, ◌<◌};
ghost use Rattle.engine.specs.Turns.{stretch_count};

use positions::plan::Plan;

// How many there are.
pub fn stretch_count(s: Plan) -> usize
    ensures { result ≡ stretch_count s }
{
    s.n * s.k
}

// The thread of stretch i, and the pair from which its facts lead.
pub fn thread_and_pair(s: Plan, i: usize) -> (usize, usize)
    requires { i < stretch_count s }
    ensures thread { (result.0 ≡ i / s.k) × (result.0 < s.n) }
    ensures pair { (result.1 ≡ i % s.k) × (result.1 < s.k) }
{
    (i / s.k, i % s.k)
}
