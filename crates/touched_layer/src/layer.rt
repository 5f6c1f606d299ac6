// The marks of one layer. What an input touches is worked out once for all outputs, whose edges that read it lie a row
// of bytes apart.
ghost use Rattle.std.specs.Prelude.{◌≡◌, true, [], ◌∷◌, ◌++◌, ℕ, ◌+◌, ◌*◌, ◌≤◌, ◌<◌, length, drop};
ghost use Rattle.floats.specs.Sums.{flat_to};
ghost use Rattle.local_basis.specs.Fours.{Both};
ghost use Rattle.layers.specs.Net.{basis_of};
ghost use Rattle.touched_layer.specs.Touched.{edge_touched, layer_touched, blank};
ghost use Rattle.touched_layer.specs.Marks.{marked_by, in_row};

use crate::coefficients::{is_touched, mark, mark_four};
use local_basis::{Eight, Mesh};
use spline::Grid;

// An edge that reads x, by the four values and slopes at x: base weight, spline weight, coefficients. Only the contract
// speaks of grid and x.
fn mark_edge(grid: Grid, x: f32, eight: Eight, map: &mut [u8])
    requires { Both grid x eight × (grid.intervals + 5 ≤ length map.old) }
    ensures { map.new ≡ marked_by (edge_touched (basis_of grid) x) map.old }
{
    map[0] = 1;
    map[1] = 1;
    mark_four(eight, &mut map[2..]);
}

// The edges that read one input, x, in n outputs, on a calm mesh: there the same four can be touched in each of them.
// Rows are taken by place: after `chunks_exact_mut` a proof knows no byte.
fn mark_by_four(mesh: Mesh, x: f32, from: usize, row: usize, n: usize, map: &mut [u8])
    requires { (mesh.calm ≡ true) × (from + (mesh.grid.intervals + 5) ≤ row)
        × (n * row ≤ length map.old) }
    ensures { map.new ≡ marked_by (flat_to (λ (o : ℕ). in_row from row
        (edge_touched (basis_of mesh.grid) x)) n) map.old }
{
    let eight = local_basis::both_at(mesh, x);
    for o in 0..n {
        let at = o * row + from;
        mark_edge(mesh.grid, x, eight, &mut map[at..]);
    }
}

// The byte at one place of each of n rows, by place as above.
fn mark_column(touched: bool, at: usize, row: usize, n: usize, map: &mut [u8])
    requires { (at < row) × (n * row ≤ length map.old) }
    ensures { map.new
        ≡ marked_by (flat_to (λ (r : ℕ). in_row at row (touched ∷ [])) n) map.old }
{
    for r in 0..n {
        let p = r * row + at;
        map[p] = mark(map[p], touched);
    }
}

// The same edges on any mesh, parameter by parameter. Where the knots' span is not finite, a value or a slope far from
// x can be a NaN: so every coefficient is tested, once for all outputs.
fn mark_one_by_one(grid: Grid, x: f32, from: usize, row: usize, n: usize, map: &mut [u8])
    requires { (grid.intervals ≤ 250000) × (from + (grid.intervals + 5) ≤ row) × (n * row ≤ length map.old) }
    ensures { map.new ≡ marked_by (flat_to (λ (o : ℕ). in_row from row
        (edge_touched (basis_of grid) x)) n) map.old }
{
    mark_column(true, from, row, n, map);
    mark_column(true, from + 1, row, n, map);
    for k in 0..grid.intervals + 3 {
        mark_column(is_touched(grid, k, x), from + 2 + k, row, n, map);
    }
}

// The edges that read one input, x, in n outputs: each `from` bytes behind the first of its row.
fn mark_input(mesh: Mesh, x: f32, from: usize, row: usize, n: usize, map: &mut [u8])
    requires { (from + (mesh.grid.intervals + 5) ≤ row) × (n * row ≤ length map.old) }
    ensures { map.new ≡ marked_by (flat_to (λ (o : ℕ). in_row from row
        (edge_touched (basis_of mesh.grid) x)) n) map.old }
{
    if mesh.calm {
        mark_by_four(mesh, x, from, row, n, map);
    } else {
        mark_one_by_one(mesh.grid, x, from, row, n, map);
    }
}

// A layer of n outputs, input by input.
pub fn mark_layer(mesh: Mesh, inputs: &[f32], n: usize, map: &mut [u8])
    requires { (0 < n)
        × (n * (length inputs.now * (mesh.grid.intervals + 5)) ≤ length map.old) }
    ensures { map.new
        ≡ marked_by (layer_touched (basis_of mesh.grid) inputs.now n) map.old }
{
    let stride = mesh.grid.intervals + 5;
    let row = inputs.len() * stride;
    for (i, x) in inputs.iter().enumerate() {
        mark_input(mesh, *x, i * stride, row, n, map);
    }
}

// The first n bytes become 0; the rest is untouched.
pub fn unmark(map: &mut [u8], n: usize)
    requires { n ≤ length map.old }
    ensures { map.new ≡ blank n ++ drop n map.old }
{
    map[..n].fill(0);
}
