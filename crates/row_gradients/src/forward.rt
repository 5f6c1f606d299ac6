// The node values of a row, layer by layer from the front of the work on.
ghost use Rattle.std.specs.Prelude.{◌≡◌, ◌+◌, length};
ghost use Rattle.local_basis.specs.Fours.{Finite};
ghost use Rattle.layers.specs.Basis.{Basis};
ghost use Rattle.layers.specs.Net.{net_of, Net, basis_of};
ghost use Rattle.layers.specs.Widths.{input_width};
ghost use Rattle.fast_forward.specs.Inputs.{Within};
ghost use Rattle.row_gradients.specs.Calls.{WorkFits, NodesFilled};
ghost use Rattle.row_gradients.specs.Steps.{LayerFilled};

use exponential::PowerTable;
use layer_cursor::Layer;
use local_basis::Mesh;
use refusals::{Refusal, refuse_unless};
use spline::Grid;

// One layer, from the w values at `from` to n values at `to`; 20 where one of these is not finite.
#[tactic(auto, using(crate::proofs::Values::tested))]
fn fill_layer(
    mesh: Mesh,
    table: &PowerTable,
    params: &[f32],
    work: &mut [f32],
    from: usize,
    w: usize,
    to: usize,
    n: usize,
) -> Result<(), Refusal>
    requires { Within mesh.grid params.now work.old from w to n (to + n) }
    ensures { LayerFilled (basis_of mesh.grid) params.now from w to n work.old
        work.new result }
{
    let end = to + n;
    fast_forward::layer_in(mesh, table, params, work, from, w, to, n);
    refuse_unless(floats::all_finite(&work[to..end]), 20)
}

// All layers, up to the first that has a value which is not finite (20).
pub fn fill_nodes(
    grid: Grid,
    table: &PowerTable,
    widths: &[usize],
    model: &[f32],
    row: &[f32],
    work: &mut [f32],
) -> Result<(), Refusal>
    requires { WorkFits grid model.now widths.now work.old × (length row.now ≡ input_width widths.now)
        × Finite (length model.now) model.now }
    ensures { NodesFilled (net_of grid) model.now widths.now row.now
        work.old work.new result }
{
    let layers = widths.len() - 1;
    floats::copy(row, work);
    let mut layer = Layer::first(widths, grid);
    for _ in 0..layers {
        let next = layer.next(widths, grid);
        let mesh = layer.mesh;
        let at = layer.at;
        fill_layer(
            mesh,
            table,
            &model[at..],
            work,
            layer.node,
            layer.inputs,
            next.node,
            layer.outputs,
        )?;
        layer = next;
    }
    Ok(())
}
