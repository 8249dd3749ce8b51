// The plan of a table: its sizes, worked out once, and where facts and stretches of facts stand by them. A stretch is the P facts of a thread from
// one pair, or its Q facts from one pair with one frame, side by side.
ghost use Rattle.std.specs.Prelude.{◌≡◌, ◌+◌, ◌*◌, ◌<◌, ◌≤◌};
ghost use Rattle.files.specs.Table.{most_threads, most_shared, most_locals, most_frames};
ghost use Rattle.positions.specs.Plans.{Plan, Planned, pair, p_at, p_from, q_from, g_at, sized};

use cells::columns::Sizes;
use std::marker::Model;

// n threads, g shared stores, l local stores, f frames; k pairs of a shared and a local store; p and q, where the P and the Q facts begin;
// w facts in all. Every plan is a table's: `Planned` is its invariant.
#[derive(Clone, Copy)]
pub struct Plan {
    pub n: usize,
    pub g: usize,
    pub l: usize,
    pub f: usize,
    pub k: usize,
    pub p: usize,
    pub q: usize,
    pub w: usize,
}

impl Model for Plan {
    ghost Value = { Plan };

    ghost view = { λ s. record { n = s.n; g = s.g; l = s.l; f = s.f; k = s.k; p = s.p; q = s.q; w = s.w } };

    ghost invariant = { λ s. Planned (record { n = s.n; g = s.g; l = s.l; f = s.f; k = s.k; p = s.p; q = s.q; w = s.w }) };

    ghost inverse = { λ s. record { n = s.n; g = s.g; l = s.l; f = s.f; k = s.k; p = s.p; q = s.q; w = s.w } };
}

impl Plan {
    // The plan of a table with n threads, g shared stores, l local stores and f frames.
    pub fn new(n: usize, g: usize, l: usize, f: usize) -> Plan
        requires { (0 < n) × (n ≤ most_threads) × (0 < g) × (g ≤ most_shared) × (0 < l) × (l ≤ most_locals) × (f ≤ most_frames) }
        ensures { (result ≡ sized n g l f) × Planned result }
    {
        let k = g * l;
        let p = n * g * g;
        let q = p + n * k * k;
        let w = q + n * k * f * k;
        Plan {
            n,
            g,
            l,
            f,
            k,
            p,
            q,
            w,
        }
    }

    // The plan of a table with these sizes.
    // No `From`: it asks that the sizes are within the limits.
    pub fn of(sizes: Sizes) -> Plan
        requires { (0 < sizes.threads) × (sizes.threads ≤ most_threads) × (0 < sizes.shared) × (sizes.shared ≤ most_shared)
            × (0 < sizes.locals) × (sizes.locals ≤ most_locals) × (sizes.frames ≤ most_frames) }
        ensures { (result ≡ sized sizes.threads sizes.shared sizes.locals sizes.frames) × Planned result }
    {
        Plan::new(
            usize::from(sizes.threads),
            usize::from(sizes.shared),
            usize::from(sizes.locals),
            usize::from(sizes.frames),
        )
    }

    // The pair of shared store g and local store l.
    pub fn pair(self, g: usize, l: usize) -> usize
        requires { (g < self.g) × (l < self.l) }
        ensures { (result ≡ pair self g l) × (result < self.k) }
    {
        g * self.l + l
    }

    // Where the P facts of t that end at pair c begin; the one from pair a stands a * k further.
    pub fn p_at(self, t: usize, c: usize) -> usize
        requires { (t < self.n) × (c < self.k) }
        ensures { result ≡ p_at self t c }
    {
        self.p + t * self.k * self.k + c
    }

    // Where the stretch of P facts of t from pair a begins; the one to pair c stands c further.
    pub fn p_from(self, t: usize, a: usize) -> usize
        requires { (t < self.n) × (a < self.k) }
        ensures { (result ≡ p_from self t a) × (result + self.k ≤ self.w) }
    {
        self.p + (t * self.k + a) * self.k
    }

    // Where the stretches of Q facts of t from pair a begin, one for each frame; the fact with frame f to pair c stands f * k + c further.
    // Beside `p_from`: Q facts have a frame more, so the two differ in their numbers too.
    pub fn q_from(self, t: usize, a: usize) -> usize
        requires { (t < self.n) × (a < self.k) }
        ensures { (result ≡ q_from self t a) × (result + self.f * self.k ≤ self.w) }
    {
        self.q + (t * self.k + a) * (self.f * self.k)
    }

    // Where the P fact of t from pair a to pair c stands.
    pub fn p_position(self, t: usize, a: usize, c: usize) -> usize
        requires { (t < self.n) × (a < self.k) × (c < self.k) }
        ensures { (result ≡ p_from self t a + c) × (result < self.w) }
    {
        self.p_from(t, a) + c
    }

    // Where the Q fact of t from pair a with frame f to pair c stands.
    // Beside `p_position`, for the reason at `q_from`.
    pub fn q_position(self, t: usize, a: usize, f: usize, c: usize) -> usize
        requires { (t < self.n) × (a < self.k) × (f < self.f) × (c < self.k) }
        ensures { (result ≡ q_from self t a + f * self.k + c) × (result < self.w) }
    {
        self.q_from(t, a) + f * self.k + c
    }

    // Where the G fact of t from g to g2 stands.
    pub fn g_position(self, t: usize, g: usize, g2: usize) -> usize
        requires { (t < self.n) × (g < self.g) × (g2 < self.g) }
        ensures { (result ≡ g_at self t g g2) × (result < self.w) }
    {
        (t * self.g + g) * self.g + g2
    }
}
