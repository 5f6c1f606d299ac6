// Inner crate: which parameters a row touches (specs/), and its marks in a map of one byte per parameter. Each layer's
// are made from the numbers that it reads, before it runs.
#![tactic(auto)]

ghost use Rattle.std.specs.Prelude.{◌≡◌, take};
ghost use Rattle.layers.specs.Basis.{Basis};
ghost use Rattle.layers.specs.Net.{net_of, Net, basis_of};
ghost use Rattle.layers.specs.Widths.{width_at};
ghost use Rattle.passes.specs.Turns.{holder};
ghost use Rattle.touched_layer.specs.Touched.{layer_touched};
ghost use Rattle.touched_layer.specs.Marks.{marked_by};
ghost use Rattle.touched_row.specs.RowMarks.{Held, Markable, LayersMarked, RowMarked};

use batches::check_row;
use exponential::PowerTable;
use layer_cursor::Layer;
use local_basis::Mesh;
use refusals::Refusal;
use spline::Grid;
use touched_layer::mark_layer;

// Layer l, which reads w numbers of the slice that holds them.
fn mark_held(
    mesh: Mesh,
    l: usize,
    w: usize,
    n: usize,
    first: &[f32],
    second: &[f32],
    map: &mut [u8],
)
    requires { Held mesh.grid w n first.now second.now map.old }
    ensures { map.new ≡ marked_by (layer_touched (basis_of mesh.grid)
        (take w (holder l first.now second.now)) n) map.old }
{
    if l % 2 == 0 {
        mark_layer(mesh, &second[..w], n, map);
    } else {
        mark_layer(mesh, &first[..w], n, map);
    }
}

// All layers, up to the first value that is not finite.
fn mark_layers(
    grid: Grid,
    table: &PowerTable,
    widths: &[usize],
    model: &[f32],
    first: &mut [f32],
    second: &mut [f32],
    map: &mut [u8],
) -> Result<(), Refusal>
    requires { Markable grid model.now widths.now first.old second.old map.old }
    ensures { LayersMarked (net_of grid) model.now widths.now
        (take (width_at widths.now 0) second.old) first.old second.old
        map.old result first.new second.new map.new }
{
    let mut layer = Layer::first(widths, grid);
    for l in 0..widths.len() - 1 {
        let mesh = layer.mesh;
        let at = layer.at;
        let w = layer.inputs;
        let n = layer.outputs;
        mark_held(mesh, l, w, n, first, second, &mut map[at..]);
        passes::turn(mesh, table, &model[at..], l, w, n, first, second)?;
        layer = layer.next(widths, grid);
    }
    Ok(())
}

// The row's refusals are 14, 15 and 20. A refused row may leave marks of its first layers: the caller clears the map
// then anyway.
pub fn mark_row(
    grid: Grid,
    table: &PowerTable,
    widths: &[usize],
    model: &[f32],
    row: &[f32],
    first: &mut [f32],
    second: &mut [f32],
    map: &mut [u8],
) -> Result<(), Refusal>
    requires { Markable grid model.now widths.now first.old second.old map.old }
    ensures { RowMarked (net_of grid) model.now widths.now row.now
        first.old second.old map.old result first.new second.new
        map.new }
{
    check_row(row, widths[0], 14, 15)?;
    floats::copy(row, second);
    mark_layers(grid, table, widths, model, first, second, map)
}
