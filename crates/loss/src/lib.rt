// Public crate: the mean squared error of a batch, row by row. It answers every argument, or refuses by number; one
// record says the answer and the final contents of everything that was lent.
#![tactic(auto)]

ghost use Rattle.std.specs.Prelude.{◌≡◌, ◌≤◌, length, take};
ghost use Rattle.layers.specs.Net.{net_of, Net};
ghost use Rattle.passes.specs.Turns.{Fits, holder};
ghost use Rattle.loss.specs.Loss.{squared, Lost};
ghost use Rattle.loss.specs.Steps.{added_to, errors_to, Summable, RowsSummed, LossPast9};

use admission::check_work;
use exponential::PowerTable;
use layer_cursor::Layer;
use refusals::{Refusal, refuse_unless};
use spline::Grid;

// One squared error more; it is one product.
fn add_error(sum: f32, output: f32, target: f32) -> Result<f32, Refusal>
    ensures { result ≡ added_to sum (squared output target) }
{
    let difference = output - target;
    let squared = difference * difference;
    refuse_unless(floats::is_finite(squared), 21)?;
    let next = sum + squared;
    refuse_unless(floats::is_finite(next), 22)?;
    Ok(next)
}

// The squared errors of one row more, output by output.
fn add_errors(sum: f32, outputs: &[f32], targets: &[f32]) -> Result<f32, Refusal>
    requires { length outputs.now ≤ length targets.now }
    ensures { result ≡ errors_to sum outputs.now targets.now (length outputs.now) }
{
    let mut total = sum;
    for (output, target) in outputs.iter().zip(targets) {
        total = add_error(total, *output, *target)?;
    }
    Ok(total)
}

// The errors of a row whose outputs lie at the front of one of the two slices.
fn row_errors(
    sum: f32,
    layers: usize,
    v: usize,
    first: &[f32],
    second: &[f32],
    targets: &[f32],
) -> Result<f32, Refusal>
    requires { (v ≤ length first.now) × (v ≤ length second.now) × (v ≤ length targets.now) }
    ensures { result
        ≡ errors_to sum (take v (holder layers first.now second.now)) targets.now v }
{
    if layers % 2 == 0 {
        add_errors(sum, &second[..v], targets)
    } else {
        add_errors(sum, &first[..v], targets)
    }
}

// Rows in order: 20, and then the row's errors. The batch's checks are behind, so that a row's only refusal is 20. By
// index, as batches::row and those checks say where a row lies: chunks would say it a second time.
fn sum_rows(
    grid: Grid,
    widths: &[usize],
    model: &[f32],
    inputs: &[f32],
    targets: &[f32],
    rows: usize,
    first: &mut [f32],
    second: &mut [f32],
) -> Result<f32, Refusal>
    requires { Summable grid model.now widths.now inputs.now targets.now first.old second.old rows }
    ensures { RowsSummed (net_of grid) model.now widths.now inputs.now
        targets.now first.old second.old result first.new second.new }
{
    let layers = widths.len() - 1;
    let w = widths[0];
    let v = widths[layers];
    let mut sum: f32 = 0.0;
    let table = PowerTable::new();
    let start = Layer::first(widths, grid);
    for r in 0..rows {
        passes::run_row(
            start,
            grid,
            &table,
            widths,
            model,
            batches::row(inputs, w, r),
            first,
            second,
        )?;
        sum = row_errors(sum, layers, v, first, second, batches::row(targets, v, r))?;
    }
    Ok(sum)
}

// Past check 9: 11, the batch, and then the rows.
#[tactic(auto, using(batches::proofs::Rows::batch_sound, passes::proofs::EachRow::wide_rows, crate::proofs::Losses::loss_mean, crate::proofs::Losses::loss_stopped, floats::proofs::Casts::exact), unfolding(passes::specs::Pass::from11_to18))]
fn loss_sound(
    grid: Grid,
    widths: &[usize],
    model: &[f32],
    inputs: &[f32],
    targets: &[f32],
    first: &mut [f32],
    second: &mut [f32],
) -> Result<f32, Refusal>
    requires { Fits grid model.now widths.now first.old second.old }
    ensures { LossPast9 (net_of grid) model.now widths.now inputs.now
        targets.now first.old second.old result first.new second.new }
{
    refuse_unless(floats::all_finite(model), 11)?;
    let layers = widths.len() - 1;
    let w = widths[0];
    batches::check_batch(inputs, targets, w, widths[layers])?;
    let rows = batches::rows_in(inputs.len(), w);
    let total = sum_rows(grid, widths, model, inputs, targets, rows, first, second)?;
    Ok(total / (targets.len() as f32))
}

// The mean over all rows and outputs of the squared error.
pub fn mse_loss(
    widths: &[usize],
    grid: Grid,
    model: &[f32],
    inputs: &[f32],
    targets: &[f32],
    first: &mut [f32],
    second: &mut [f32],
) -> Result<f32, Refusal>
    ensures { Lost (net_of grid) widths.now grid model.now inputs.now
        targets.now first.old second.old result first.new second.new }
{
    let sizes = check_work(widths, grid, model.len(), first.len(), second.len())?;
    let answer = loss_sound(grid, widths, model, inputs, targets, first, second);
    floats::clear(first, sizes.widest);
    floats::clear(second, sizes.widest);
    answer
}
