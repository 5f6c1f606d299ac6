// Inner crate: the four cubic basis values, or slopes, that can be other than zero at an input, worked out once for all
// edges that read it. They stand for all where the knots' span is finite, which a mesh has tested; where it is not, a
// value far from the input can be a NaN, and callers take the plain functions.
#![tactic(auto)]

mod fours;
mod place;
mod search;
mod triangle;

ghost use Rattle.std.specs.Prelude.{◌≡◌, ◌≤◌};
ghost use Rattle.spline.specs.Spline.{width_of};
ghost use Rattle.local_basis.specs.Meshes.{calm_of};

pub use fours::{both_at, slopes_at, values_at, values_by};
use spline::Grid;

// A grid that the library accepts, with what every input on it asks for, worked out once: its width, and whether the
// span of its knots is finite.
#[derive(Clone, Copy)]
pub struct Mesh {
    pub grid: Grid,
    pub width: f32,
    pub calm: bool,
    ghost few: { grid.intervals ≤ 250000 },
    ghost own_width: { width ≡ width_of grid },
    ghost own_calm: { calm ≡ calm_of grid },
}

// Four neighbouring numbers of a basis, the first of which has the index `start`. Four fields in place of an array: the
// definitions in specs/ and eight functions name each.
#[derive(Clone, Copy)]
pub struct Four {
    pub start: usize,
    pub first: f32,
    pub second: f32,
    pub third: f32,
    pub fourth: f32,
}

// Four values, and the slopes of the same four indices.
#[derive(Clone, Copy)]
pub struct Eight {
    pub values: Four,
    pub slopes: Four,
}

// Whether the width is above zero and the span of the knots is finite.
#[tactic(auto, unfolding(crate::specs::Meshes::calm_of))]
fn calm(grid: Grid) -> bool
    requires { grid.intervals ≤ 250000 }
    ensures { result ≡ calm_of grid }
{
    let last = grid.intervals + 6;
    0.0 < spline::width(grid) && floats::is_finite(spline::knot(grid, last) - spline::knot(grid, 0))
}

pub fn mesh_of(grid: Grid) -> Mesh
    requires { grid.intervals ≤ 250000 }
    ensures { result.grid ≡ grid }
{
    Mesh {
        grid,
        width: spline::width(grid),
        calm: calm(grid),
    }
}
