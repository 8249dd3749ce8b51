// The line of a fact.
ghost use Rattle.std.specs.Prelude.{◌≡◌, ◌<◌};
ghost use Rattle.fact_text.specs.FactLines.{fact_line};
ghost use Rattle.fact_text.specs.Facts.{plan_fact};

use crate::facts::{FactFields, fact_at};
use positions::plan::Plan;
use text::line::Line;

// The line of the fact at position p.
pub fn fact_line(s: Plan, p: usize) -> Line
    requires { p < s.w }
    ensures { result ≡ fact_line (plan_fact s p) }
{
    match fact_at(s, p) {
        FactFields::G { t, g, g2 } => Line::new(b"G", &[t, g, g2]),
        FactFields::P { t, g, l, g2, l2 } => Line::new(b"P", &[t, g, l, g2, l2]),
        FactFields::Q { t, g, l, f, g2, l2 } => Line::new(b"Q", &[t, g, l, f, g2, l2]),
    }
}
