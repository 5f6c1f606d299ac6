// Inner crate: the leaves through C linkage, for comparison runs over single functions. Not part of what is installed.
// Since C can't be asked to have checked anything, each answers all arguments.
#![tactic(auto)]

ghost use Rattle.std.specs.Prelude.{◌≡◌};
ghost use Rattle.exponential.specs.Exponential.{exp_of};
ghost use Rattle.generator.specs.Root.{root_of};
ghost use Rattle.spline.specs.Activation.{silu_of, silu_derivative_of};
ghost use Rattle.spline.specs.Spline.{value_of, slope_of};
ghost use Rattle.leaves.specs.Leaves.{grid_of, or_zero};

use spline::Grid;

#[unsafe(no_mangle)]
pub extern "C" fn kan_exponential(x: f32) -> f32
    ensures { result ≡ exp_of x }
{
    exponential::exponential(x)
}

#[unsafe(no_mangle)]
pub extern "C" fn kan_silu(x: f32) -> f32
    ensures { result ≡ silu_of x }
{
    spline::silu(x)
}

#[unsafe(no_mangle)]
pub extern "C" fn kan_silu_derivative(x: f32) -> f32
    ensures { result ≡ silu_derivative_of x }
{
    spline::silu_derivative(x)
}

#[unsafe(no_mangle)]
pub extern "C" fn kan_root(n: usize) -> f32
    ensures { result ≡ root_of n }
{
    generator::root(n)
}

#[unsafe(no_mangle)]
pub extern "C" fn kan_basis_value(intervals: usize, lo: f32, hi: f32, i: usize, x: f32) -> f32
    ensures { result ≡ or_zero intervals i (value_of (grid_of intervals lo hi) 3 i x) }
{
    if intervals <= 250000 {
        if i < intervals + 3 {
            return spline::basis_value(Grid { intervals, lo, hi }, i, x);
        }
    }
    0.0
}

#[unsafe(no_mangle)]
pub extern "C" fn kan_basis_slope(intervals: usize, lo: f32, hi: f32, i: usize, x: f32) -> f32
    ensures { result ≡ or_zero intervals i (slope_of (grid_of intervals lo hi) i x) }
{
    if intervals <= 250000 {
        if i < intervals + 3 {
            return spline::basis_slope(Grid { intervals, lo, hi }, i, x);
        }
    }
    0.0
}
