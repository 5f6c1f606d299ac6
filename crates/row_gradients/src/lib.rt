// Inner crate: one row's gradients, in a work slice of 2N: the node values in its first half, their gradients in its
// second, each layer's after those of the layer before. The slice is lent whole, so each step reads parts of it and
// writes it place by place.
#![tactic(auto)]

ghost use Rattle.std.specs.Prelude.{◌≡◌, true, ◌-◌, length};
ghost use Rattle.local_basis.specs.Fours.{Finite};
ghost use Rattle.layers.specs.Net.{net_of};
ghost use Rattle.layers.specs.Widths.{input_width, output_width};
ghost use Rattle.layer_cursor.specs.Cursor.{Walkable, Stands};
ghost use Rattle.fast_gradients.specs.Adding.{Clean};
ghost use Rattle.row_gradients.specs.Calls.{WorkFits, RowTaken};

mod adding;
mod backward;
mod forward;

use exponential::PowerTable;
use forward::fill_nodes;
use layer_cursor::Layer;
use refusals::Refusal;
use spline::Grid;

// The place past the last layer, where a walk forward ends: its node is the first output.
#[tactic(auto, using(crate::proofs::Spans::here))]
fn walk_end(widths: &[usize], grid: Grid) -> Layer
    requires { Walkable grid widths.now }
    ensures { Stands grid widths.now (length widths.now - 1) result }
{
    let layers = widths.len() - 1;
    let mut layer = Layer::first(widths, grid);
    for _ in 0..layers {
        layer = layer.next(widths, grid);
    }
    layer
}

// Takes a row through the layers, up to a node value that is not finite (20); then it takes the row back too and adds
// its gradients, where `add` says so. `clean` says that no gradient is -0.0, so that zeros need not be added.
#[tactic(auto, using(crate::proofs::Rows::passed, crate::proofs::Rows::only_tested))]
pub fn take_row(
    grid: Grid,
    table: &PowerTable,
    widths: &[usize],
    model: &[f32],
    row: &[f32],
    targets: &[f32],
    scale: f32,
    gradients: &mut [f32],
    work: &mut [f32],
    add: bool,
    clean: bool,
) -> Result<(), Refusal>
    requires { WorkFits grid model.now widths.now work.old × (length gradients.old ≡ length model.now)
        × (length row.now ≡ input_width widths.now) × (length targets.now ≡ output_width widths.now)
        × Finite (length model.now) model.now
        × (clean ≡ true → Clean (length gradients.old) gradients.old) }
    ensures { RowTaken (net_of grid) model.now widths.now row.now
        targets.now scale add gradients.old work.old gradients.new
        work.new result }
{
    fill_nodes(grid, table, widths, model, row, work)?;
    if !add {
        return Ok(());
    }
    let end = walk_end(widths, grid);
    backward::back_layers(grid, table, widths, model, targets, scale, end, work);
    adding::add_layers(grid, table, widths, model, work, end, gradients, clean);
    Ok(())
}
