// The four cubic basis values, the four slopes, or both, that can be other than zero at an input.
ghost use Rattle.std.specs.Prelude.{◌≡◌, true};
ghost use Rattle.local_basis.specs.Meshes.{Meshed, grid_by};
ghost use Rattle.local_basis.specs.Fours.{no_four, Values, Slopes, Both};

use crate::place::placed;
use crate::search::interval;
use crate::triangle::{cubes, rises, squares_of};
use crate::{Eight, Four, Mesh};
use spline::Grid;

// For an input that no interval holds.
fn no_four() -> Four
    ensures { result ≡ no_four }
{
    Four {
        start: 0,
        first: 0.0,
        second: 0.0,
        third: 0.0,
        fourth: 0.0,
    }
}

// The values on the mesh of these numbers. A mesh that is handed to a function is stored as a copy, field by field, and
// the copy read 16 bytes at a time, a read that waits until those stores are through: a row of a network of one edge takes
// 77 ns so, and 52 with the numbers handed over. `values_at` and `fast_forward` both call this. Called by `values_at`
// alone it would be compiled into that, which would be too long to be compiled into its callers, and they would store the
// copy.
#[tactic(auto, using(crate::proofs::Standing::may_place, crate::proofs::Squares::cubes_start))]
pub fn values_by(intervals: usize, lo: f32, hi: f32, width: f32, x: f32) -> Four
    requires { Meshed (grid_by intervals lo hi) width true }
    ensures { Values (grid_by intervals lo hi) x result }
{
    let grid = Grid { intervals, lo, hi };
    let mesh = Mesh {
        grid,
        width,
        calm: true,
    };
    let at = interval(mesh, x);
    if intervals + 5 < at {
        return no_four();
    }
    placed(intervals, at, cubes(squares_of(mesh, x, at), x, at))
}

#[tactic(auto, using(crate::proofs::Meshes::by_numbers))]
pub fn values_at(mesh: Mesh, x: f32) -> Four
    requires { mesh.calm ≡ true }
    ensures { Values mesh.grid x result }
{
    values_by(
        mesh.grid.intervals,
        mesh.grid.lo,
        mesh.grid.hi,
        mesh.width,
        x,
    )
}

#[tactic(auto, using(crate::proofs::Standing::may_place, crate::proofs::Squares::rises_start))]
pub fn slopes_at(mesh: Mesh, x: f32) -> Four
    requires { mesh.calm ≡ true }
    ensures { Slopes mesh.grid x result }
{
    let at = interval(mesh, x);
    if mesh.grid.intervals + 5 < at {
        return no_four();
    }
    placed(mesh.grid.intervals, at, rises(squares_of(mesh, x, at), at))
}

// For an input that no interval holds.
fn no_eight() -> Eight
    ensures { (result.values ≡ no_four) × (result.slopes ≡ no_four) }
{
    Eight {
        values: no_four(),
        slopes: no_four(),
    }
}

// Both by one search and one triangle.
#[tactic(auto, using(crate::proofs::Standing::may_place, crate::proofs::Squares::cubes_start, crate::proofs::Squares::rises_start, crate::proofs::Meshes::calm_grid))]
pub fn both_at(mesh: Mesh, x: f32) -> Eight
    requires { mesh.calm ≡ true }
    ensures { Both mesh.grid x result }
{
    let at = interval(mesh, x);
    if mesh.grid.intervals + 5 < at {
        return no_eight();
    }
    let squares = squares_of(mesh, x, at);
    Eight {
        values: placed(mesh.grid.intervals, at, cubes(squares, x, at)),
        slopes: placed(mesh.grid.intervals, at, rises(squares, at)),
    }
}
