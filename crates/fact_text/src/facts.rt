// The fact at a position, its numbers taken off from the right by division and remainder.
ghost use Rattle.std.specs.Prelude.{◌≡◌, ◌<◌};
ghost use Rattle.model.specs.Positions.{at_g, at_p, at_q};
ghost use Rattle.fact_text.specs.Facts.{bare_table, plan_fact, fields_of};

use positions::plan::Plan;

// A fact: its kind, and its fields in the document's order.
#[derive(Clone, Copy)]
pub enum FactFields {
    G {
        t: usize,
        g: usize,
        g2: usize,
    },
    P {
        t: usize,
        g: usize,
        l: usize,
        g2: usize,
        l2: usize,
    },
    Q {
        t: usize,
        g: usize,
        l: usize,
        f: usize,
        g2: usize,
        l2: usize,
    },
}

// G fact number i, counted from 0.
fn g_fact(s: Plan, i: usize) -> FactFields
    ensures { result ≡ fields_of (at_g (bare_table s) i) }
{
    let (i, g2) = (i / s.g, i % s.g);
    let (t, g) = (i / s.g, i % s.g);
    FactFields::G { t, g, g2 }
}

// P fact number i, counted from 0.
fn p_fact(s: Plan, i: usize) -> FactFields
    ensures { result ≡ fields_of (at_p (bare_table s) i) }
{
    let (i, l2) = (i / s.l, i % s.l);
    let (i, g2) = (i / s.g, i % s.g);
    let (i, l) = (i / s.l, i % s.l);
    let (t, g) = (i / s.g, i % s.g);
    FactFields::P { t, g, l, g2, l2 }
}

// Q fact number i, counted from 0.
fn q_fact(s: Plan, i: usize) -> FactFields
    requires { 0 < s.f }
    ensures { result ≡ fields_of (at_q (bare_table s) i) }
{
    let (i, l2) = (i / s.l, i % s.l);
    let (i, g2) = (i / s.g, i % s.g);
    let (i, f) = (i / s.f, i % s.f);
    let (i, l) = (i / s.l, i % s.l);
    let (t, g) = (i / s.g, i % s.g);
    FactFields::Q { t, g, l, f, g2, l2 }
}

// The fact at position p, by the part of the positions that p is in: first the G facts, then the P facts, then the Q facts.
pub fn fact_at(s: Plan, p: usize) -> FactFields
    requires { p < s.w }
    ensures { result ≡ fields_of (plan_fact s p) }
{
    if p < s.p {
        g_fact(s, p)
    } else if p < s.q {
        p_fact(s, p - s.p)
    } else {
        q_fact(s, p - s.q)
    }
}
