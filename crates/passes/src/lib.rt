// Inner crate: one row's way through all layers, in two lent slices. The row is first copied to the front of the second
// slice, so that every layer reads the one slice and writes the other, the first layer the first one.
#![tactic(auto)]

ghost use Rattle.std.specs.Prelude.{◌≡◌, ◌+◌, ◌*◌, ◌≤◌, ◌<◌, length, take};
ghost use Rattle.local_basis.specs.Fours.{Finite};
ghost use Rattle.layers.specs.Basis.{Basis};
ghost use Rattle.layers.specs.Net.{net_of, Net, basis_of};
ghost use Rattle.layers.specs.Widths.{width_at};
ghost use Rattle.layer_cursor.specs.Cursor.{Stands};
ghost use Rattle.passes.specs.Turns.{Turns, Turned, Fits, Layered, Ran};

use batches::check_row;
use exponential::PowerTable;
use layer_cursor::Layer;
use local_basis::Mesh;
use refusals::{Refusal, refuse_unless};
use spline::Grid;

// Layer l, from w numbers of the one slice to n of the other; 20 where these are not finite.
pub fn turn(
    mesh: Mesh,
    table: &PowerTable,
    params: &[f32],
    l: usize,
    w: usize,
    n: usize,
    first: &mut [f32],
    second: &mut [f32],
) -> Result<(), Refusal>
    requires { Turns mesh.grid params.now w n first.old second.old }
    ensures { Turned (basis_of mesh.grid) params.now l w n first.old second.old
        first.new second.new result }
{
    if l % 2 == 0 {
        fast_forward::layer_forward(mesh, table, params, &second[..w], first, n);
        refuse_unless(floats::all_finite(&first[..n]), 20)
    } else {
        fast_forward::layer_forward(mesh, table, params, &first[..w], second, n);
        refuse_unless(floats::all_finite(&second[..n]), 20)
    }
}

// All layers from the first one on, each on the part of the model that begins at its own first edge, up to the first
// value that is not finite. Their one mesh is read where it lies: copied with the cursor, it costs 3 ns a row.
fn run_layers(
    start: Layer,
    grid: Grid,
    table: &PowerTable,
    widths: &[usize],
    model: &[f32],
    first: &mut [f32],
    second: &mut [f32],
) -> Result<(), Refusal>
    requires { Fits grid model.now widths.now first.old second.old × Finite (length model.now) model.now × Stands grid widths.now 0 start }
    ensures { Layered (net_of grid) model.now widths.now
        (take (width_at widths.now 0) second.old) first.old second.old
        first.new second.new result }
{
    let mesh = start.mesh;
    let mut layer = start;
    for l in 0..widths.len() - 1 {
        let at = layer.at;
        turn(
            mesh,
            table,
            &model[at..],
            l,
            layer.inputs,
            layer.outputs,
            first,
            second,
        )?;
        layer = layer.next(widths, grid);
    }
    Ok(())
}

// A row may be refused by 14, 15 or 20. Its first layer is the same for every row of a batch, and so is worked out by
// the caller.
pub fn run_row(
    start: Layer,
    grid: Grid,
    table: &PowerTable,
    widths: &[usize],
    model: &[f32],
    row: &[f32],
    first: &mut [f32],
    second: &mut [f32],
) -> Result<(), Refusal>
    requires { Fits grid model.now widths.now first.old second.old × Finite (length model.now) model.now × Stands grid widths.now 0 start }
    ensures { Ran (net_of grid) model.now widths.now row.now
        first.old second.old first.new second.new result }
{
    check_row(row, widths[0], 14, 15)?;
    floats::copy(row, second);
    run_layers(start, grid, table, widths, model, first, second)
}
