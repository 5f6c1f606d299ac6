// `accumulate`: a batch's gradients, added to a lent slice.
ghost use Rattle.std.specs.Prelude.{◌≡◌, ◌≤◌, ◌<◌, length};
ghost use Rattle.layers.specs.Net.{net_of};
ghost use Rattle.layers.specs.Widths.{input_width, output_width};
ghost use Rattle.refusals.specs.Refusals.{◌then◌, outcome_of};
ghost use Rattle.batches.specs.Batch.{batch_fault};
ghost use Rattle.row_gradients.specs.Calls.{WorkFits};
ghost use Rattle.split_training.specs.Accumulating.{total_fault, Accumulated};
ghost use Rattle.split_training.specs.Stages.{AddReady, FurtherPassed, AddDone, AccumulateDone};

use admission::check_node_work;
use exponential::PowerTable;
use refusals::{Refusal, refuse_unless};
use spline::Grid;

// 28: the stated total of target values is 1 to 16,777,216.
#[tactic(auto, unfolding(crate::specs::Accumulating::total_fault))]
fn check_total(total: usize) -> Result<(), Refusal>
    ensures { result ≡ outcome_of (total_fault total) 0 }
{
    refuse_unless(total != 0, 28)?;
    refuse_unless(total <= 16_777_216, 28)
}

// The batch, and then its stated total.
fn check_batch_and_total(
    widths: &[usize],
    inputs: &[f32],
    targets: &[f32],
    total: usize,
) -> Result<(), Refusal>
    requires { (2 ≤ length widths.now) × (0 < input_width widths.now) × (0 < output_width widths.now) }
    ensures { result ≡ outcome_of (batch_fault (input_width widths.now) (output_width widths.now)
        inputs.now targets.now then total_fault total) 0 }
{
    let last = widths.len() - 1;
    batches::check_batch(inputs, targets, widths[0], widths[last])?;
    check_total(total)
}

// 20 for the rows of a batch of several, adding nothing: where it passes, those behind the first do. The row of a
// batch of one is tested when it is added, before anything is, so that it goes forward once.
fn check_further_rows(
    grid: Grid,
    table: &PowerTable,
    widths: &[usize],
    model: &[f32],
    inputs: &[f32],
    targets: &[f32],
    scale: f32,
    gradients: &mut [f32],
    work: &mut [f32],
) -> Result<(), Refusal>
    requires { AddReady grid widths.now model.now inputs.now targets.now gradients.old work.old }
    ensures { FurtherPassed (net_of grid) widths.now model.now inputs.now
        gradients.old work.old result gradients.new work.new }
{
    if inputs.len() <= widths[0] {
        return Ok(());
    }
    batch_gradients::take_rows(
        grid, table, widths, model, inputs, targets, scale, gradients, work, false, false,
    )
}

// Adds every row, or where one meets 20 none.
fn add_tested(
    grid: Grid,
    widths: &[usize],
    model: &[f32],
    inputs: &[f32],
    targets: &[f32],
    total: usize,
    gradients: &mut [f32],
    work: &mut [f32],
) -> Result<(), Refusal>
    requires { AddReady grid widths.now model.now inputs.now targets.now gradients.old work.old
        × (total ≤ 16777216) }
    ensures { AddDone (net_of grid) widths.now model.now inputs.now
        targets.now total gradients.old work.old result gradients.new
        work.new }
{
    let table = PowerTable::new();
    let scale = batch_gradients::scale_of(total);
    check_further_rows(
        grid, &table, widths, model, inputs, targets, scale, gradients, work,
    )?;
    let clean = fast_gradients::no_minus_zero(gradients);
    batch_gradients::take_rows(
        grid, &table, widths, model, inputs, targets, scale, gradients, work, true, clean,
    )
}

// Past check 9: 10, 11, the batch and the total, and then the rows. The model is P numbers long here.
#[tactic(auto, unfolding(crate::specs::Accumulating::from11_to28, passes::specs::Pass::from11_to18))]
fn accumulate_sound(
    grid: Grid,
    widths: &[usize],
    model: &[f32],
    inputs: &[f32],
    targets: &[f32],
    total: usize,
    gradients: &mut [f32],
    work: &mut [f32],
) -> Result<(), Refusal>
    requires { WorkFits grid model.now widths.now work.old }
    ensures { AccumulateDone (net_of grid) widths.now model.now inputs.now
        targets.now total gradients.old work.old result gradients.new
        work.new }
{
    refuse_unless(gradients.len() == model.len(), 10)?;
    refuse_unless(floats::all_finite(model), 11)?;
    check_batch_and_total(widths, inputs, targets, total)?;
    add_tested(grid, widths, model, inputs, targets, total, gradients, work)
}

// Adds the gradients of a batch, which is part of what `total` target values are gathered of. Refused, it adds nothing.
pub fn accumulate(
    widths: &[usize],
    grid: Grid,
    model: &[f32],
    inputs: &[f32],
    targets: &[f32],
    total: usize,
    gradients: &mut [f32],
    work: &mut [f32],
) -> Result<(), Refusal>
    ensures { Accumulated (net_of grid) widths.now grid model.now inputs.now
        targets.now total gradients.old work.old result gradients.new
        work.new }
{
    let sizes = check_node_work(widths, grid, model.len(), work.len())?;
    let answer = accumulate_sound(grid, widths, model, inputs, targets, total, gradients, work);
    floats::clear(work, 2 * sizes.nodes);
    answer
}
