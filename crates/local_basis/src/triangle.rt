// The triangle of Cox and de Boor on the six knots about an input, by the steps of `spline::triangle`: each value of a
// degree is worked out once, and where a neighbour is zero half a step is left, `rising` or `falling`.
ghost use Rattle.std.specs.Prelude.{◌≡◌, ◌≤◌};
ghost use Rattle.local_basis.specs.Fours.{SquaresAt, cubes_of, rises_of};

use crate::search::knot_at;
use crate::{Four, Mesh};
use spline::{blend, falling, portion, rising};

// The six knots about an input, and the three values of degree 2 there.
#[derive(Clone, Copy)]
pub struct Squares {
    pub k1: f32,
    pub k2: f32,
    pub k3: f32,
    pub k4: f32,
    pub k5: f32,
    pub k6: f32,
    pub low: f32,
    pub middle: f32,
    pub high: f32,
}

// For an x from knot `at`, which is the third, up to the next.
#[tactic(auto, unfolding(crate::specs::Fours::square_low, crate::specs::Fours::square_middle, crate::specs::Fours::square_high))]
pub fn squares_of(mesh: Mesh, x: f32, at: usize) -> Squares
    requires { at ≤ 260000 }
    ensures { SquaresAt mesh.grid x at result }
{
    let k1 = knot_at(mesh, at.saturating_sub(2));
    let k2 = knot_at(mesh, at.saturating_sub(1));
    let k3 = knot_at(mesh, at);
    let k4 = knot_at(mesh, at + 1);
    let k5 = knot_at(mesh, at + 2);
    let k6 = knot_at(mesh, at + 3);
    let linear_low = falling(k3, k4, x, 1.0);
    let linear_high = rising(k3, k4, x, 1.0);
    Squares {
        k1,
        k2,
        k3,
        k4,
        k5,
        k6,
        low: falling(k2, k4, x, linear_low),
        middle: blend(k2, k3, k4, k5, x, linear_low, linear_high),
        high: rising(k3, k5, x, linear_high),
    }
}

// The four values at an x from knot `at` up to the next, by the squares there.
#[tactic(auto, unfolding(crate::specs::Fours::cubes_of))]
pub fn cubes(s: Squares, x: f32, at: usize) -> Four
    ensures { result ≡ cubes_of s x at }
{
    Four {
        start: at.saturating_sub(3),
        first: falling(s.k1, s.k4, x, s.low),
        second: blend(s.k1, s.k2, s.k4, s.k5, x, s.low, s.middle),
        third: blend(s.k2, s.k3, s.k5, s.k6, x, s.middle, s.high),
        fourth: rising(s.k3, s.k6, x, s.high),
    }
}

// The four slopes there.
#[tactic(auto, unfolding(crate::specs::Fours::rises_of))]
pub fn rises(s: Squares, at: usize) -> Four
    ensures { result ≡ rises_of s at }
{
    let rise_low = portion(3.0, s.low, s.k4 - s.k1);
    let rise_middle = portion(3.0, s.middle, s.k5 - s.k2);
    let rise_high = portion(3.0, s.high, s.k6 - s.k3);
    Four {
        start: at.saturating_sub(3),
        first: 0.0 - rise_low,
        second: rise_low - rise_middle,
        third: rise_middle - rise_high,
        fourth: rise_high - 0.0,
    }
}
