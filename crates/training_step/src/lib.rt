// Inner crate: one step of training on a batch that is sound: gradients gathered from +0.0, then the model moved or
// left.
#![tactic(auto)]

ghost use Rattle.layers.specs.Net.{net_of};
ghost use Rattle.training_step.specs.Stages.{StepReady, GatherDone, StepDone};

use exponential::PowerTable;
use refusals::Refusal;
use spline::Grid;

// The batch's gradients from +0.0, in front of `gradients`, or 20.
fn gather(
    grid: Grid,
    table: &PowerTable,
    widths: &[usize],
    model: &[f32],
    inputs: &[f32],
    targets: &[f32],
    gradients: &mut [f32],
    work: &mut [f32],
) -> Result<(), Refusal>
    requires { StepReady grid widths.now model.now inputs.now targets.now gradients.old work.old }
    ensures { GatherDone (net_of grid) widths.now model.now inputs.now targets.now
        gradients.old work.old result gradients.new work.new }
{
    let scale = batch_gradients::scale_of(targets.len());
    let count = model.len();
    floats::clear(gradients, count);
    batch_gradients::take_rows(
        grid,
        table,
        widths,
        model,
        inputs,
        targets,
        scale,
        &mut gradients[..count],
        work,
        true,
        true,
    )
}

// Gathers, then moves all parameters or none: 20, then 23.
pub fn step(
    grid: Grid,
    table: &PowerTable,
    widths: &[usize],
    model: &mut [f32],
    inputs: &[f32],
    targets: &[f32],
    rate: f32,
    gradients: &mut [f32],
    work: &mut [f32],
) -> Result<(), Refusal>
    requires { StepReady grid widths.now model.old inputs.now targets.now gradients.old work.old }
    ensures { StepDone (net_of grid) widths.now model.old inputs.now targets.now rate
        gradients.old work.old result model.new gradients.new work.new }
{
    gather(grid, table, widths, model, inputs, targets, gradients, work)?;
    let count = model.len();
    update::move_or_leave(model, &gradients[..count], rate)
}
