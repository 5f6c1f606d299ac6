// Inner crate: a row's gradients (R10.4, R10.5; specs/), and one layer of them: what a row adds to the gradients of the
// layer's parameters, and what it hands back to the layer's inputs. The caller lends E's table.
#![tactic(auto)]

ghost use Rattle.std.specs.Prelude.{◌≡◌, ◌+◌, ◌*◌, ◌≤◌, ◌<◌, length};
ghost use Rattle.floats.specs.Sums.{tabulate, flat_to};
ghost use Rattle.layers.specs.Net.{basis_of};
ghost use Rattle.layers.specs.Layer.{dot_of};
ghost use Rattle.gradients.specs.Gradient.{slot_of, edge_slots, layer_slots, input_gradient};
ghost use Rattle.gradients.specs.Steps.{plus_of, Cells, back_with, weighted};

use exponential::PowerTable;
use spline::Grid;

// The coefficients times the slopes of the cubic basis values; all of them, as in `layers::dot`.
#[tactic(auto, using(floats::proofs::Loops::sum_none), unfolding(layers::specs::Layer::dot_of))]
fn slope_dot(grid: Grid, coefficients: &[f32], x: f32) -> f32
    requires { (grid.intervals ≤ 250000) × (grid.intervals + 3 ≤ length coefficients.now) }
    ensures { result ≡ dot_of (basis_of grid) (basis_of grid).slope coefficients.now x }
{
    let n = grid.intervals + 3;
    let mut sum: f32 = 0.0;
    for (k, coefficient) in coefficients[..n].iter().enumerate() {
        sum += *coefficient * spline::basis_slope(grid, k, x);
    }
    sum
}

// What an edge hands back to its input, where the caller has worked out the rise of SiLU once for all edges that read
// x.
#[tactic(auto, using(floats::proofs::Loops::rest), unfolding(crate::specs::Steps::back_with))]
fn back(grid: Grid, params: &[f32], x: f32, rise: f32, up: f32) -> f32
    requires { (grid.intervals ≤ 250000) × (grid.intervals + 5 ≤ length params.now) }
    ensures { result ≡ back_with (basis_of grid) params.now x rise up }
{
    let slope = slope_dot(grid, &params[2..], x);
    up * (params[0] * rise + params[1] * slope)
}

// The gradient at input i: the outputs in their order, from +0.0.
#[tactic(auto, using(floats::proofs::Loops::sum_none, floats::proofs::Loops::sum_more, floats::proofs::Loops::rest, floats::proofs::Loops::rest_length, crate::proofs::Rooms::edge_room, crate::proofs::Rooms::grow), unfolding(crate::specs::Gradient::back_of, crate::specs::Steps::back_with))]
pub fn input_gradient(
    grid: Grid,
    table: &PowerTable,
    params: &[f32],
    inputs: &[f32],
    ups: &[f32],
    i: usize,
) -> f32
    requires { (grid.intervals ≤ 250000) × (i < length inputs.now)
        × (length ups.now * (length inputs.now * (grid.intervals + 5)) ≤ length params.now) }
    ensures { result ≡ input_gradient (basis_of grid) params.now inputs.now
        ups.now i }
{
    let stride = grid.intervals + 5;
    let w = inputs.len();
    let x = inputs[i];
    let rise = spline::silu_derivative_by(table, x);
    let mut gradient: f32 = 0.0;
    for (o, up) in ups.iter().enumerate() {
        let edge = o * w + i;
        let at = edge * stride;
        gradient += back(grid, &params[at..], x, rise, *up);
    }
    gradient
}

// Adds a row's part to the gradients of an edge's coefficients, where u is what comes from above times the spline
// weight.
#[tactic(auto, using(crate::proofs::Adding::plus_start, crate::proofs::Adding::plus_one))]
pub fn add_coefficients(grid: Grid, u: f32, x: f32, gradients: &mut [f32])
    requires { (grid.intervals ≤ 250000) × (grid.intervals + 3 ≤ length gradients.old) }
    ensures { gradients.new
        ≡ plus_of gradients.old (tabulate (weighted (basis_of grid) u x) (grid.intervals + 3)) }
{
    let n = grid.intervals + 3;
    for (k, gradient) in gradients[..n].iter_mut().enumerate() {
        *gradient += u * spline::basis_value(grid, k, x);
    }
}

// The same for a whole edge: base weight, spline weight, coefficients.
#[tactic(auto, using(floats::proofs::Loops::rest, floats::proofs::Loops::rest_length, crate::proofs::Edges::edge_added))]
fn add_edge(grid: Grid, table: &PowerTable, params: &[f32], x: f32, up: f32, gradients: &mut [f32])
    requires { Cells grid (grid.intervals + 5) params.now gradients.old }
    ensures { gradients.new
        ≡ plus_of gradients.old
        (tabulate (slot_of (basis_of grid) params.now x up) (grid.intervals + 5)) }
{
    gradients[0] += up * spline::silu_by(table, x);
    gradients[1] += up * layers::dot(grid, &params[2..], x);
    add_coefficients(grid, up * params[1], x, &mut gradients[2..]);
}

// The same for the edges of one output, input by input.
#[tactic(auto, using(crate::proofs::Adding::parts_all, crate::proofs::Edges::turn_at, crate::proofs::Edges::lent))]
fn add_node(
    grid: Grid,
    table: &PowerTable,
    params: &[f32],
    inputs: &[f32],
    up: f32,
    gradients: &mut [f32],
)
    requires { Cells grid (length inputs.now * (grid.intervals + 5)) params.now gradients.old }
    ensures { gradients.new ≡ plus_of gradients.old
        (flat_to (edge_slots (basis_of grid) params.now inputs.now up)
        (length inputs.now)) }
{
    let stride = grid.intervals + 5;
    for (i, x) in inputs.iter().enumerate() {
        let at = i * stride;
        add_edge(grid, table, &params[at..], *x, up, &mut gradients[at..]);
    }
}

// The same for a layer, output by output.
#[tactic(auto, using(crate::proofs::Adding::parts_all, crate::proofs::Edges::turn_at, crate::proofs::Edges::lent, floats::proofs::Loops::row_room), unfolding(crate::specs::Gradient::layer_slots))]
pub fn add_layer(
    grid: Grid,
    table: &PowerTable,
    params: &[f32],
    inputs: &[f32],
    ups: &[f32],
    gradients: &mut [f32],
)
    requires { (0 < length ups.now)
        × Cells grid (length ups.now * (length inputs.now * (grid.intervals + 5))) params.now gradients.old }
    ensures { gradients.new ≡ plus_of gradients.old
        (layer_slots (basis_of grid) params.now inputs.now ups.now) }
{
    let row = inputs.len() * (grid.intervals + 5);
    for (o, up) in ups.iter().enumerate() {
        let at = o * row;
        add_node(
            grid,
            table,
            &params[at..],
            inputs,
            *up,
            &mut gradients[at..],
        );
    }
}
