// The two calls: the checks, the steps, and the sweep of what was lent. Only they are public, and ask nothing.
ghost use Rattle.std.specs.Prelude.{◌≡◌, ◌≤◌, ◌<◌, length};
ghost use Rattle.layers.specs.Net.{net_of};
ghost use Rattle.layers.specs.Widths.{input_width, output_width};
ghost use Rattle.refusals.specs.Refusals.{◌otherwise◌, ◌then◌, outcome_of};
ghost use Rattle.batches.specs.Batch.{batch_fault};
ghost use Rattle.update.specs.Update.{rate_sound};
ghost use Rattle.training_step.specs.Stages.{TrainingRoom, StepReady};
ghost use Rattle.training.specs.Train.{Stepped, Trained};
ghost use Rattle.training.specs.Stages.{StepsDone, TrainDone};

use admission::check_training_work;
use exponential::PowerTable;
use refusals::{Refusal, refuse_unless};
use spline::Grid;

// A refusal, and how many steps were done before it.
#[derive(Clone, Copy, Debug, PartialEq, Eq)]
pub struct Stop {
    pub refusal: Refusal,
    pub done: usize,
}

// A check that refuses does so before the first step.
impl From<Refusal> for Stop {
    ghost from_gives = { λ refusal stop. stop ≡ record { refusal = refusal; done = 0 } };

    fn from(refusal: Refusal) -> Stop {
        Stop { refusal, done: 0 }
    }
}

// The batch, and then the rate.
fn check_training(
    widths: &[usize],
    inputs: &[f32],
    targets: &[f32],
    rate: f32,
) -> Result<(), Refusal>
    requires { (2 ≤ length widths.now) × (0 < input_width widths.now) × (0 < output_width widths.now) }
    ensures { result ≡ outcome_of (batch_fault (input_width widths.now) (output_width widths.now) inputs.now targets.now
        then rate_sound rate otherwise 19) 0 }
{
    let last = widths.len() - 1;
    batches::check_batch(inputs, targets, widths[0], widths[last])?;
    refuse_unless(update::rate_sound(rate), 19)
}

// Steps in order, up to the first that is refused; those before it stay. The table of E is laid out once for all.
fn run_steps(
    grid: Grid,
    widths: &[usize],
    model: &mut [f32],
    inputs: &[f32],
    targets: &[f32],
    steps: usize,
    rate: f32,
    gradients: &mut [f32],
    work: &mut [f32],
) -> Result<usize, Stop>
    requires { StepReady grid widths.now model.old inputs.now targets.now gradients.old work.old }
    ensures { StepsDone (net_of grid) widths.now model.old inputs.now targets.now steps
        rate gradients.old work.old result model.new gradients.new work.new }
{
    let table = PowerTable::new();
    for done in 0..steps {
        if let Err(refusal) = training_step::step(
            grid, &table, widths, model, inputs, targets, rate, gradients, work,
        ) {
            return Err(Stop { refusal, done });
        }
    }
    Ok(steps)
}

// Past check 9: 11, the batch and the rate, and then the steps.
#[tactic(auto, unfolding(crate::specs::Train::from11_to19, crate::specs::Train::model_after, passes::specs::Pass::from11_to18))]
fn train_sound(
    grid: Grid,
    widths: &[usize],
    model: &mut [f32],
    inputs: &[f32],
    targets: &[f32],
    steps: usize,
    rate: f32,
    gradients: &mut [f32],
    work: &mut [f32],
) -> Result<usize, Stop>
    requires { TrainingRoom grid widths.now model.old gradients.old work.old }
    ensures { TrainDone (net_of grid) widths.now model.old inputs.now targets.now steps
        rate gradients.old work.old result model.new gradients.new work.new }
{
    refuse_unless(floats::all_finite(model), 11)?;
    check_training(widths, inputs, targets, rate)?;
    run_steps(
        grid, widths, model, inputs, targets, steps, rate, gradients, work,
    )
}

// Makes `steps` steps on the whole batch. Refused at a later step, it keeps the earlier ones and says how many were
// done.
pub fn train(
    widths: &[usize],
    grid: Grid,
    model: &mut [f32],
    inputs: &[f32],
    targets: &[f32],
    steps: usize,
    rate: f32,
    gradients: &mut [f32],
    work: &mut [f32],
) -> Result<usize, Stop>
    ensures { Trained (net_of grid) widths.now grid model.old inputs.now targets.now
        rate gradients.old work.old steps result model.new gradients.new work.new }
{
    let sizes = check_training_work(widths, grid, model.len(), gradients.len(), work.len())?;
    let answer = train_sound(
        grid, widths, model, inputs, targets, steps, rate, gradients, work,
    );
    floats::clear(gradients, sizes.parameters);
    floats::clear(work, 2 * sizes.nodes);
    answer
}

// Makes one step on the whole batch.
pub fn train_step(
    widths: &[usize],
    grid: Grid,
    model: &mut [f32],
    inputs: &[f32],
    targets: &[f32],
    rate: f32,
    gradients: &mut [f32],
    work: &mut [f32],
) -> Result<(), Refusal>
    ensures { Stepped (net_of grid) widths.now grid model.old inputs.now targets.now
        rate gradients.old work.old result model.new gradients.new work.new }
{
    match train(
        widths, grid, model, inputs, targets, 1, rate, gradients, work,
    ) {
        Ok(_) => Ok(()),
        Err(stop) => Err(stop.refusal),
    }
}
