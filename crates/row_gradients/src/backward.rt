// The gradients at the nodes of a row, from the outputs back: in the second half of a work that has the values in its
// first.
ghost use Rattle.std.specs.Prelude.{◌≡◌, ◌+◌, ◌-◌, ◌≤◌, length, take};
ghost use Rattle.floats.specs.Places.{part_at, written_at};
ghost use Rattle.floats.specs.Sums.{tabulate};
ghost use Rattle.local_basis.specs.Fours.{Finite};
ghost use Rattle.layers.specs.Net.{net_of, Net};
ghost use Rattle.layers.specs.Widths.{input_width, output_width};
ghost use Rattle.layer_cursor.specs.Cursor.{Stands};
ghost use Rattle.row_gradients.specs.Backward.{output_gradient};
ghost use Rattle.row_gradients.specs.Calls.{WorkFits, Nodes};
ghost use Rattle.row_gradients.specs.Steps.{Backed};

use exponential::PowerTable;
use layer_cursor::Layer;
use spline::Grid;

// The gradients at the outputs, which stand at `from`: written at `to`.
#[tactic(auto, using(floats::proofs::Places::written_none, floats::proofs::Places::written_more, floats::proofs::Places::read_one))]
fn output_gradients(work: &mut [f32], from: usize, to: usize, targets: &[f32], scale: f32)
    requires { (from + length targets.now ≤ to) × (to + length targets.now ≤ length work.old) }
    ensures { work.new ≡ written_at work.old to
        (tabulate (output_gradient (part_at work.old from (length targets.now))
        targets.now scale) (length targets.now)) }
{
    // Outputs and gradients stand in one slice: places read plainer here than two parts split off.
    for (j, target) in targets.iter().enumerate() {
        let output = from + j;
        let place = to + j;
        work[place] = scale * (work[output] - *target);
    }
}

// All layers but the first, whose inputs' gradients nothing reads; `end` is the place past the last layer.
// Kept apart from its caller, whose frame stays small while a row runs forward, the deepest part of a call.
#[inline(never)]
pub fn back_layers(
    grid: Grid,
    table: &PowerTable,
    widths: &[usize],
    model: &[f32],
    targets: &[f32],
    scale: f32,
    end: Layer,
    work: &mut [f32],
)
    requires { WorkFits grid model.now widths.now work.old × (length targets.now ≡ output_width widths.now)
        × Nodes (net_of grid) model.now widths.now (take (input_width widths.now) work.old) work.old
        (length widths.now) × Stands grid widths.now (length widths.now - 1) end
        × Finite (length model.now) model.now }
    ensures { Backed (net_of grid) model.now widths.now
        (take (input_width widths.now) work.old) targets.now scale
        work.old work.new }
{
    let half = end.node + end.inputs;
    output_gradients(work, end.node, half + end.node, targets, scale);
    let mut layer = end;
    for _ in (1..end.index).rev() {
        layer = layer.previous(widths, grid);
        let mesh = layer.mesh;
        let at = layer.at;
        fast_backward::back_layer(
            mesh,
            table,
            &model[at..],
            work,
            layer.node,
            layer.inputs,
            half + layer.node,
            layer.outputs,
        );
    }
}
