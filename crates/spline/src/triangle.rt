// Cox and de Boor in steps on knots at hand: an indicator for each interval, then blends, each of two neighbours of the
// degree below. A cubic basis value is a triangle of ten steps on five knots; four values at once take the same steps.
ghost use Rattle.std.specs.Prelude.{◌≡◌, ◌+◌, ◌≤◌};
ghost use Rattle.spline.specs.Spline.{portion_of, cox_of, rise_of};
ghost use Rattle.spline.specs.Steps.{indicator_by, rising_of, falling_of, blend_by};

use crate::{Grid, knot_by, width};

// R6.5: a * b / d, multiplied first; 0 where the denominator is zero.
#[tactic(auto, unfolding(crate::specs::Spline::portion_of))]
pub fn portion(a: f32, b: f32, d: f32) -> f32
    ensures { result ≡ portion_of a b d }
{
    if d == 0.0 { 0.0 } else { a * b / d }
}

// Degree 0: whether x lies from one knot up to the next.
fn indicator(from: f32, to: f32, x: f32) -> f32
    ensures { result ≡ indicator_by from to x }
{
    if from <= x && x < to { 1.0 } else { 0.0 }
}

// A value on the knots from `from` up to `to`, in the part of the next degree that rises with x.
pub fn rising(from: f32, to: f32, x: f32, value: f32) -> f32
    ensures { result ≡ rising_of from to x value }
{
    portion(x - from, value, to - from)
}

// The same in the part that falls.
pub fn falling(from: f32, to: f32, x: f32, value: f32) -> f32
    ensures { result ≡ falling_of from to x value }
{
    portion(to - x, value, to - from)
}

// R6.6: from `this` on the knots a to c and `next` on the knots b to e, one further on, the value of the next degree.
pub fn blend(a: f32, b: f32, c: f32, e: f32, x: f32, this: f32, next: f32) -> f32
    ensures { result ≡ blend_by a b c e x this next }
{
    rising(a, c, x, this) + falling(b, e, x, next)
}

// A cubic basis value and its slope.
#[derive(Clone, Copy)]
pub struct Cubic {
    pub value: f32,
    pub slope: f32,
}

// The i-th at an x inside, on the five knots from knot i on: four indicators, three lines, two squares, of which both
// are made.
pub fn cubic_at(grid: Grid, i: usize, x: f32) -> Cubic
    requires { (grid.intervals ≤ 250000) × (i + 3 ≤ grid.intervals + 5) }
    ensures { (result.value ≡ cox_of grid 3 i x) × (result.slope ≡ rise_of grid i x) }
{
    let w = width(grid);
    let k1 = knot_by(grid.lo, w, i);
    let k2 = knot_by(grid.lo, w, i + 1);
    let k3 = knot_by(grid.lo, w, i + 2);
    let k4 = knot_by(grid.lo, w, i + 3);
    let k5 = knot_by(grid.lo, w, i + 4);
    let in1 = indicator(k1, k2, x);
    let in2 = indicator(k2, k3, x);
    let in3 = indicator(k3, k4, x);
    let in4 = indicator(k4, k5, x);
    let line1 = blend(k1, k2, k2, k3, x, in1, in2);
    let line2 = blend(k2, k3, k3, k4, x, in2, in3);
    let line3 = blend(k3, k4, k4, k5, x, in3, in4);
    let square1 = blend(k1, k2, k3, k4, x, line1, line2);
    let square2 = blend(k2, k3, k4, k5, x, line2, line3);
    Cubic {
        value: blend(k1, k2, k4, k5, x, square1, square2),
        slope: portion(3.0, square1, k4 - k1) - portion(3.0, square2, k5 - k2),
    }
}
