// One input's edges, added to every output of a layer. The input itself is handed over, so that it may stand in the
// same slice as the outputs.
ghost use Rattle.std.specs.Prelude.{◌≡◌, true, ◌+◌, ◌≤◌, length};
ghost use Rattle.local_basis.specs.Meshes.{Meshed, grid_by};
ghost use Rattle.local_basis.specs.Fours.{four_dot};
ghost use Rattle.layers.specs.Basis.{Basis};
ghost use Rattle.layers.specs.Net.{basis_of};
ghost use Rattle.fast_forward.specs.Inputs.{edge_four, added_input, Edges};

use exponential::PowerTable;
use local_basis::{Four, Mesh};
use spline::Grid;

// An edge's coefficients times the four.
pub fn curve_by(params: &[f32], four: Four) -> f32
    requires { four.start + 6 ≤ length params.now }
    ensures { result ≡ four_dot params.now (four.start + 2) four }
{
    let at = four.start + 2;
    let low = 0.0 + params[at] * four.first + params[at + 1] * four.second;
    low + params[at + 2] * four.third + params[at + 3] * four.fourth
}

// An edge from four values and SiLU; from four slopes and the rise of SiLU, its slope.
pub fn edge_by(params: &[f32], silu: f32, four: Four) -> f32
    requires { four.start + 6 ≤ length params.now }
    ensures { result ≡ edge_four params.now silu four }
{
    params[0] * silu + params[1] * curve_by(params, four)
}

#[tactic(auto, using(floats::proofs::Loops::rest_length, local_basis::proofs::Meshes::by_numbers, crate::proofs::Edges::edge_there, crate::proofs::Edges::first_there))]
fn add_four(
    mesh: Mesh,
    table: &PowerTable,
    params: &[f32],
    w: usize,
    j: usize,
    x: f32,
    outputs: &mut [f32],
    n: usize,
)
    requires { Edges mesh.grid params.now w j n × (n ≤ length outputs.old)
        × (mesh.calm ≡ true) }
    ensures { outputs.new ≡ added_input (basis_of mesh.grid) params.now w j x
        outputs.old n }
{
    let stride = mesh.grid.intervals + 5;
    let row = w * stride;
    let first = j * stride;
    let silu = spline::silu_by(table, x);
    let four = local_basis::values_by(
        mesh.grid.intervals,
        mesh.grid.lo,
        mesh.grid.hi,
        mesh.width,
        x,
    );
    for (o, output) in outputs[..n].iter_mut().enumerate() {
        let at = o * row + first;
        *output += edge_by(&params[at..], silu, four);
    }
}

#[tactic(auto, using(floats::proofs::Loops::rest_length, crate::proofs::Edges::edge_there, crate::proofs::Edges::first_there))]
fn add_plain(
    mesh: Mesh,
    table: &PowerTable,
    params: &[f32],
    w: usize,
    j: usize,
    x: f32,
    outputs: &mut [f32],
    n: usize,
)
    requires { Edges mesh.grid params.now w j n
        × (n ≤ length outputs.old) }
    ensures { outputs.new ≡ added_input (basis_of mesh.grid) params.now w j x
        outputs.old n }
{
    let stride = mesh.grid.intervals + 5;
    let row = w * stride;
    let first = j * stride;
    let silu = spline::silu_by(table, x);
    for (o, output) in outputs[..n].iter_mut().enumerate() {
        let at = o * row + first;
        *output += layers::edge(mesh.grid, &params[at..], x, silu);
    }
}

// By whichever of the two. The mesh comes as plain numbers and is made again here, for the reason that stands at
// `local_basis::values_by`; the two functions on a layer hand them over themselves, since a call between would store a copy.
pub fn add_input(
    intervals: usize,
    lo: f32,
    hi: f32,
    width: f32,
    calm: bool,
    table: &PowerTable,
    params: &[f32],
    w: usize,
    j: usize,
    x: f32,
    outputs: &mut [f32],
    n: usize,
)
    requires { Meshed (grid_by intervals lo hi) width calm × Edges (grid_by intervals lo hi) params.now w j n × (n ≤ length outputs.old) }
    ensures { outputs.new ≡ added_input (basis_of (grid_by intervals lo hi)) params.now w j x
        outputs.old n }
{
    let grid = Grid { intervals, lo, hi };
    let mesh = Mesh { grid, width, calm };
    if mesh.calm {
        add_four(mesh, table, params, w, j, x, outputs, n);
    } else {
        add_plain(mesh, table, params, w, j, x, outputs, n);
    }
}
