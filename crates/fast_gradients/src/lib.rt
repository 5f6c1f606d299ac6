// Inner crate: what a row adds to the gradients of a layer's parameters, as `gradients` has it, input by input. Where a
// gradient is not -0.0, a zero added to it leaves it, so only the four coefficients are added to whose values can be
// other than zero. Callers have checked that the layer's parameters are finite (11); where the knots' span is not
// finite, or a gradient may be -0.0, the plain function is taken.
#![tactic(auto)]

mod zeros;

ghost use Rattle.std.specs.Prelude.{◌≡◌, true, ℕ, ◌+◌, ◌*◌, ◌≤◌, ◌<◌, length};
ghost use Rattle.floats.specs.Sums.{tabulate};
ghost use Rattle.spline.specs.Activation.{silu_of};
ghost use Rattle.local_basis.specs.Fours.{Finite, Values};
ghost use Rattle.layers.specs.Net.{basis_of};
ghost use Rattle.gradients.specs.Gradient.{slot_of, layer_slots};
ghost use Rattle.gradients.specs.Steps.{plus_of, Cells};
ghost use Rattle.fast_gradients.specs.Adding.{Clean, Gradients, four_added, input_slots, plus_each};

use exponential::PowerTable;
use local_basis::{Four, Mesh};
use spline::Grid;
pub use zeros::no_minus_zero;

// Adds u times the four values to the gradients of an edge's coefficients.
#[tactic(auto, unfolding(crate::specs::Adding::four_added))]
fn add_four(u: f32, four: Four, gradients: &mut [f32])
    requires { four.start + 4 ≤ length gradients.old }
    ensures { gradients.new ≡ four_added gradients.old u four }
{
    let at = four.start;
    gradients[at] += u * four.first;
    gradients[at + 1] += u * four.second;
    gradients[at + 2] += u * four.third;
    gradients[at + 3] += u * four.fourth;
}

// What `gradients::add_edge` does. An infinity or a NaN times a zero is a NaN: there all coefficients are added to.
#[tactic(auto, using(floats::proofs::Loops::rest, floats::proofs::Loops::rest_length))]
fn add_edge(
    grid: Grid,
    params: &[f32],
    x: f32,
    silu: f32,
    four: Four,
    up: f32,
    gradients: &mut [f32],
)
    requires { Cells grid (grid.intervals + 5) params.now gradients.old × (silu ≡ silu_of x) × Values grid x four
        × Finite (grid.intervals + 5) params.now × Clean (grid.intervals + 5) gradients.old }
    ensures { gradients.new
        ≡ plus_of gradients.old
        (tabulate (slot_of (basis_of grid) params.now x up) (grid.intervals + 5)) }
{
    gradients[0] += up * silu;
    gradients[1] += up * fast_forward::curve_by(params, four);
    let u = up * params[1];
    if floats::is_finite(u) {
        add_four(u, four, &mut gradients[2..]);
    } else {
        gradients::add_coefficients(grid, u, x, &mut gradients[2..]);
    }
}

// The edges of x, the i-th of w inputs.
#[tactic(auto, using(floats::proofs::Loops::rest_length, fast_forward::proofs::Edges::edge_there, fast_forward::proofs::Edges::edge_within, fast_forward::proofs::Edges::first_there))]
fn add_input(
    mesh: Mesh,
    table: &PowerTable,
    params: &[f32],
    w: usize,
    i: usize,
    x: f32,
    ups: &[f32],
    gradients: &mut [f32],
)
    requires { Gradients mesh.grid params.now w (length ups.now) gradients.old
        × Clean (length ups.now * (w * (mesh.grid.intervals + 5))) gradients.old × (i < w)
        × (mesh.calm ≡ true) }
    ensures { gradients.new
        ≡ plus_each (λ (o : ℕ). o * (w * (mesh.grid.intervals + 5)) + i * (mesh.grid.intervals + 5))
        (input_slots (basis_of mesh.grid) params.now w i x ups.now) gradients.old
        (length ups.now) }
{
    let stride = mesh.grid.intervals + 5;
    let row = w * stride;
    let first = i * stride;
    let silu = spline::silu_by(table, x);
    let four = local_basis::values_at(mesh, x);
    for (o, up) in ups.iter().enumerate() {
        let at = o * row + first;
        add_edge(
            mesh.grid,
            &params[at..],
            x,
            silu,
            four,
            *up,
            &mut gradients[at..],
        );
    }
}

fn add_inputs(
    mesh: Mesh,
    table: &PowerTable,
    params: &[f32],
    inputs: &[f32],
    ups: &[f32],
    gradients: &mut [f32],
)
    requires { Gradients mesh.grid params.now (length inputs.now) (length ups.now) gradients.old
        × Clean (length ups.now * (length inputs.now * (mesh.grid.intervals + 5))) gradients.old
        × (mesh.calm ≡ true) }
    ensures { gradients.new ≡ plus_of gradients.old
        (layer_slots (basis_of mesh.grid) params.now inputs.now ups.now) }
{
    let w = inputs.len();
    for (i, x) in inputs.iter().enumerate() {
        add_input(mesh, table, params, w, i, *x, ups, gradients);
    }
}

// What `gradients::add_layer` does. `clean` says that no gradient is -0.0: a slice that a caller has filled may hold
// one, and is then added to in full.
pub fn add_layer(
    mesh: Mesh,
    table: &PowerTable,
    params: &[f32],
    inputs: &[f32],
    ups: &[f32],
    gradients: &mut [f32],
    clean: bool,
)
    requires { Gradients mesh.grid params.now (length inputs.now) (length ups.now) gradients.old
        × (clean ≡ true
        → Clean (length ups.now * (length inputs.now * (mesh.grid.intervals + 5))) gradients.old) }
    ensures { gradients.new ≡ plus_of gradients.old
        (layer_slots (basis_of mesh.grid) params.now inputs.now ups.now) }
{
    if mesh.calm & clean {
        add_inputs(mesh, table, params, inputs, ups, gradients);
    } else {
        gradients::add_layer(mesh.grid, table, params, inputs, ups, gradients);
    }
}
