// What a row adds to the gradients of all parameters, layer by layer.
ghost use Rattle.std.specs.Prelude.{◌≡◌, true, ◌-◌, length};
ghost use Rattle.floats.specs.Sums.{flat_to};
ghost use Rattle.local_basis.specs.Fours.{Finite};
ghost use Rattle.layers.specs.Net.{net_of};
ghost use Rattle.layer_cursor.specs.Cursor.{Stands};
ghost use Rattle.gradients.specs.Steps.{plus_of};
ghost use Rattle.fast_gradients.specs.Adding.{Clean};
ghost use Rattle.row_gradients.specs.Calls.{WorkFits};
ghost use Rattle.row_gradients.specs.Steps.{slots_in};

use exponential::PowerTable;
use layer_cursor::Layer;
use spline::Grid;

// Every layer's part, from the values and gradients at its nodes; `end` is the place past the last layer.
// `clean` says that no gradient is -0.0. Then none becomes it: a sum is -0.0 only where both its terms are.
// Kept apart from its caller, as the walk back is.
#[inline(never)]
pub fn add_layers(
    grid: Grid,
    table: &PowerTable,
    widths: &[usize],
    model: &[f32],
    work: &[f32],
    end: Layer,
    gradients: &mut [f32],
    clean: bool,
)
    requires { WorkFits grid model.now widths.now work.now × (length gradients.old ≡ length model.now)
        × Stands grid widths.now (length widths.now - 1) end × Finite (length model.now) model.now
        × (clean ≡ true → Clean (length gradients.old) gradients.old) }
    ensures { gradients.new ≡ plus_of gradients.old
        (flat_to (slots_in (net_of grid) model.now widths.now work.now)
        (length widths.now - 1)) }
{
    let half = end.node + end.inputs;
    let mut layer = Layer::first(widths, grid);
    for _ in 0..end.index {
        let next = layer.next(widths, grid);
        let mesh = layer.mesh;
        let at = layer.at;
        let from = layer.node;
        let to = next.node;
        let ups = half + to;
        let ups_end = ups + layer.outputs;
        fast_gradients::add_layer(
            mesh,
            table,
            &model[at..],
            &work[from..to],
            &work[ups..ups_end],
            &mut gradients[at..],
            clean,
        );
        layer = next;
    }
}
