// What a layer hands back to its inputs, within one slice: the inputs stand at `from`, their gradients are written at
// `to`, and the gradients at the outputs stand just after them.
ghost use Rattle.std.specs.Prelude.{◌≡◌, true, ◌+◌, length};
ghost use Rattle.floats.specs.Places.{part_at, written_at};
ghost use Rattle.floats.specs.Sums.{sum_to};
ghost use Rattle.layers.specs.Net.{basis_of};
ghost use Rattle.fast_forward.specs.Inputs.{Within, Edges};
ghost use Rattle.gradients.specs.Gradient.{back_layer};
ghost use Rattle.fast_backward.specs.InputGradients.{back_at};

use exponential::PowerTable;
use local_basis::Mesh;

// The gradient at x, the i-th of w inputs.
#[tactic(auto, using(floats::proofs::Loops::sum_none, floats::proofs::Loops::rest_length, fast_forward::proofs::Edges::edge_there, fast_forward::proofs::Edges::first_there))]
fn input_gradient(
    mesh: Mesh,
    table: &PowerTable,
    params: &[f32],
    w: usize,
    x: f32,
    ups: &[f32],
    i: usize,
) -> f32
    requires { Edges mesh.grid params.now w i (length ups.now)
        × (mesh.calm ≡ true) }
    ensures { result ≡ sum_to (back_at (basis_of mesh.grid) params.now w x ups.now i)
        (length ups.now) }
{
    let stride = mesh.grid.intervals + 5;
    let row = w * stride;
    let first = i * stride;
    let rise = spline::silu_derivative_by(table, x);
    let four = local_basis::slopes_at(mesh, x);
    let mut gradient: f32 = 0.0;
    for (o, up) in ups.iter().enumerate() {
        let at = o * row + first;
        gradient += *up * fast_forward::edge_by(&params[at..], rise, four);
    }
    gradient
}

#[tactic(auto, using(floats::proofs::Loops::tab_none, floats::proofs::Places::piece_length))]
fn back_four(
    mesh: Mesh,
    table: &PowerTable,
    params: &[f32],
    work: &mut [f32],
    from: usize,
    w: usize,
    to: usize,
    n: usize,
)
    requires { Within mesh.grid params.now work.old from w to n (to + w + n)
        × (mesh.calm ≡ true) }
    ensures { work.new ≡ written_at work.old to
        (back_layer (basis_of mesh.grid) params.now (part_at work.old from w)
        (part_at work.old (to + w) n)) }
{
    let end = from + w;
    let (before, rest) = work.split_at_mut(to);
    let (results, behind) = rest.split_at_mut(w);
    let inputs = &before[from..end];
    let ups = &behind[..n];
    for (i, result) in results.iter_mut().enumerate() {
        *result = input_gradient(mesh, table, params, w, inputs[i], ups, i);
    }
}

#[tactic(auto, using(floats::proofs::Loops::tab_none, floats::proofs::Places::piece_length))]
fn back_plain(
    mesh: Mesh,
    table: &PowerTable,
    params: &[f32],
    work: &mut [f32],
    from: usize,
    w: usize,
    to: usize,
    n: usize,
)
    requires { Within mesh.grid params.now work.old from w to n (to + w + n) }
    ensures { work.new ≡ written_at work.old to
        (back_layer (basis_of mesh.grid) params.now (part_at work.old from w)
        (part_at work.old (to + w) n)) }
{
    let end = from + w;
    let (before, rest) = work.split_at_mut(to);
    let (results, behind) = rest.split_at_mut(w);
    let inputs = &before[from..end];
    let ups = &behind[..n];
    for (i, result) in results.iter_mut().enumerate() {
        *result = gradients::input_gradient(mesh.grid, table, params, inputs, ups, i);
    }
}

pub fn back_layer(
    mesh: Mesh,
    table: &PowerTable,
    params: &[f32],
    work: &mut [f32],
    from: usize,
    w: usize,
    to: usize,
    n: usize,
)
    requires { Within mesh.grid params.now work.old from w to n (to + w + n) }
    ensures { work.new ≡ written_at work.old to
        (back_layer (basis_of mesh.grid) params.now (part_at work.old from w)
        (part_at work.old (to + w) n)) }
{
    if mesh.calm {
        back_four(mesh, table, params, work, from, w, to, n);
    } else {
        back_plain(mesh, table, params, work, from, w, to, n);
    }
}
