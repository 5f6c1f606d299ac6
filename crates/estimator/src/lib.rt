// Public crate: the C linkage, and nothing else. A slice is a pointer and a length in elements; an answer goes out as
// its number of refusal, 0 for none (R3.1, R14.2), and in lent numbers what that carries and what else the answer has.
#![tactic(auto)]

ghost use Rattle.std.specs.Prelude.{◌≡◌};
ghost use Rattle.layers.specs.Net.{net_of};
ghost use Rattle.config.specs.Config.{check_of};
ghost use Rattle.refusals.specs.Refusals.{refusal_of};
ghost use Rattle.initialisation.specs.Initialise.{Initialised};
ghost use Rattle.prediction.specs.Predict.{Predicted};
ghost use Rattle.loss.specs.Loss.{Lost};
ghost use Rattle.training.specs.Train.{Stepped, Trained, training_refusal, steps_done};
ghost use Rattle.split_training.specs.Accumulating.{Accumulated};
ghost use Rattle.split_training.specs.Applying.{Applied};
ghost use Rattle.visit_map.specs.Visits.{Visited};
ghost use Rattle.image_reading.specs.Image.{describe_of};
ghost use Rattle.image_writing.specs.Writing.{ImageWritten};
ghost use Rattle.image_unpacking.specs.Unpacking.{Unpacked};
ghost use Rattle.npy_writing.specs.Writing.{NpyWritten};
ghost use Rattle.npy_reading.specs.Reader.{NpyRead};
ghost use Rattle.estimator.specs.Linkage.{Linked, grid_of, description_of};
ghost use Rattle.estimator.specs.Linkage.{parameters_or, mean_or, description_or};

use spline::Grid;
use telling::tell;

mod telling;

pub fn kan_check(
    widths: &[usize],
    intervals: usize,
    lo: f32,
    hi: f32,
    parameters: &mut usize,
    carried: &mut usize,
) -> u32
    ensures { Linked refusal_of result carried.new (λ o.
        (o ≡ check_of widths.now (grid_of intervals lo hi))
        × (parameters.new ≡ parameters_or o parameters.old)) }
{
    let checked = config::check(widths, Grid { intervals, lo, hi });
    if let Ok(sizes) = checked {
        *parameters = sizes.parameters;
    }
    tell(checked, carried)
}

pub fn kan_initialise(
    widths: &[usize],
    intervals: usize,
    lo: f32,
    hi: f32,
    seed: u64,
    model: &mut [f32],
    carried: &mut usize,
) -> u32
    ensures { Linked refusal_of result carried.new (λ o.
        Initialised widths.now (grid_of intervals lo hi) seed model.old o model.new) }
{
    let outcome = initialisation::initialise(widths, Grid { intervals, lo, hi }, seed, model);
    tell(outcome, carried)
}

pub fn kan_predict(
    widths: &[usize],
    intervals: usize,
    lo: f32,
    hi: f32,
    model: &[f32],
    inputs: &[f32],
    first: &mut [f32],
    second: &mut [f32],
    outputs: &mut [f32],
    carried: &mut usize,
) -> u32
    ensures { Linked refusal_of result carried.new (λ o.
        Predicted (net_of (grid_of intervals lo hi)) widths.now (grid_of intervals lo hi) model.now
        inputs.now first.old second.old outputs.old o
        first.new second.new outputs.new) }
{
    let outcome = prediction::predict_batch(
        widths,
        Grid { intervals, lo, hi },
        model,
        inputs,
        first,
        second,
        outputs,
    );
    tell(outcome, carried)
}

pub fn kan_loss(
    widths: &[usize],
    intervals: usize,
    lo: f32,
    hi: f32,
    model: &[f32],
    inputs: &[f32],
    targets: &[f32],
    first: &mut [f32],
    second: &mut [f32],
    loss: &mut f32,
    carried: &mut usize,
) -> u32
    ensures { Linked refusal_of result carried.new (λ o.
        Lost (net_of (grid_of intervals lo hi)) widths.now (grid_of intervals lo hi) model.now
        inputs.now targets.now first.old second.old o
        first.new second.new
        × (loss.new ≡ mean_or o loss.old)) }
{
    let answer = loss::mse_loss(
        widths,
        Grid { intervals, lo, hi },
        model,
        inputs,
        targets,
        first,
        second,
    );
    if let Ok(mean) = answer {
        *loss = mean;
    }
    tell(answer, carried)
}

pub fn kan_train_step(
    widths: &[usize],
    intervals: usize,
    lo: f32,
    hi: f32,
    model: &mut [f32],
    inputs: &[f32],
    targets: &[f32],
    rate: f32,
    gradients: &mut [f32],
    work: &mut [f32],
    carried: &mut usize,
) -> u32
    ensures { Linked refusal_of result carried.new (λ o.
        Stepped (net_of (grid_of intervals lo hi)) widths.now (grid_of intervals lo hi) model.old
        inputs.now targets.now rate gradients.old work.old o
        model.new gradients.new work.new) }
{
    let outcome = training::train_step(
        widths,
        Grid { intervals, lo, hi },
        model,
        inputs,
        targets,
        rate,
        gradients,
        work,
    );
    tell(outcome, carried)
}

pub fn kan_train(
    widths: &[usize],
    intervals: usize,
    lo: f32,
    hi: f32,
    model: &mut [f32],
    inputs: &[f32],
    targets: &[f32],
    steps: usize,
    rate: f32,
    gradients: &mut [f32],
    work: &mut [f32],
    done: &mut usize,
    carried: &mut usize,
) -> u32
    ensures { Linked training_refusal result carried.new (λ o.
        Trained (net_of (grid_of intervals lo hi)) widths.now (grid_of intervals lo hi) model.old
        inputs.now targets.now rate gradients.old work.old steps o
        model.new gradients.new work.new
        × (done.new ≡ steps_done o)) }
{
    let answer = training::train(
        widths,
        Grid { intervals, lo, hi },
        model,
        inputs,
        targets,
        steps,
        rate,
        gradients,
        work,
    );
    *done = answer.unwrap_or_else(|stop| stop.done);
    tell(answer.map_err(|stop| stop.refusal), carried)
}

pub fn kan_accumulate(
    widths: &[usize],
    intervals: usize,
    lo: f32,
    hi: f32,
    model: &[f32],
    inputs: &[f32],
    targets: &[f32],
    total: usize,
    gradients: &mut [f32],
    work: &mut [f32],
    carried: &mut usize,
) -> u32
    ensures { Linked refusal_of result carried.new (λ o.
        Accumulated (net_of (grid_of intervals lo hi)) widths.now (grid_of intervals lo hi) model.now
        inputs.now targets.now total gradients.old work.old o
        gradients.new work.new) }
{
    let outcome = split_training::accumulate(
        widths,
        Grid { intervals, lo, hi },
        model,
        inputs,
        targets,
        total,
        gradients,
        work,
    );
    tell(outcome, carried)
}

pub fn kan_apply(
    widths: &[usize],
    intervals: usize,
    lo: f32,
    hi: f32,
    model: &mut [f32],
    gradients: &[f32],
    rate: f32,
    carried: &mut usize,
) -> u32
    ensures { Linked refusal_of result carried.new (λ o.
        Applied widths.now (grid_of intervals lo hi) model.old gradients.now rate o
        model.new) }
{
    let outcome = split_training::apply(widths, Grid { intervals, lo, hi }, model, gradients, rate);
    tell(outcome, carried)
}

pub fn kan_visits(
    widths: &[usize],
    intervals: usize,
    lo: f32,
    hi: f32,
    model: &[f32],
    inputs: &[f32],
    first: &mut [f32],
    second: &mut [f32],
    map: &mut [u8],
    carried: &mut usize,
) -> u32
    ensures { Linked refusal_of result carried.new (λ o.
        Visited (net_of (grid_of intervals lo hi)) widths.now (grid_of intervals lo hi) model.now
        inputs.now first.old second.old map.old o
        first.new second.new map.new) }
{
    let outcome = visit_map::visit_map(
        widths,
        Grid { intervals, lo, hi },
        model,
        inputs,
        first,
        second,
        map,
    );
    tell(outcome, carried)
}

pub fn kan_image_write(
    widths: &[usize],
    intervals: usize,
    lo: f32,
    hi: f32,
    model: &[f32],
    image: &mut [u8],
    carried: &mut usize,
) -> u32
    ensures { Linked refusal_of result carried.new (λ o.
        ImageWritten widths.now (grid_of intervals lo hi) model.now image.old o
        image.new) }
{
    let outcome = image_writing::write(widths, Grid { intervals, lo, hi }, model, image);
    tell(outcome, carried)
}

pub fn kan_image_read(
    image: &[u8],
    intervals: &mut usize,
    lo: &mut f32,
    hi: &mut f32,
    widths: &mut usize,
    parameters: &mut usize,
    carried: &mut usize,
) -> u32
    ensures { Linked refusal_of result carried.new (λ o.
        (o ≡ describe_of image.now)
        × (description_of intervals.new lo.new hi.new widths.new
        parameters.new ≡ description_or o (description_of intervals.old lo.old
        hi.old widths.old parameters.old))) }
{
    let described = image_reading::describe(image);
    if let Ok(description) = described {
        *intervals = description.grid.intervals;
        *lo = description.grid.lo;
        *hi = description.grid.hi;
        *widths = description.widths;
        *parameters = description.parameters;
    }
    tell(described, carried)
}

pub fn kan_image_unpack(
    image: &[u8],
    widths: &mut [usize],
    model: &mut [f32],
    carried: &mut usize,
) -> u32
    ensures { Linked refusal_of result carried.new (λ o.
        Unpacked image.now widths.old model.old o
        widths.new model.new) }
{
    let outcome = image_unpacking::unpack(image, widths, model);
    tell(outcome, carried)
}

pub fn kan_npy_write(
    widths: &[usize],
    intervals: usize,
    lo: f32,
    hi: f32,
    model: &[f32],
    layer: usize,
    file: &mut [u8],
    carried: &mut usize,
) -> u32
    ensures { Linked refusal_of result carried.new (λ o.
        NpyWritten widths.now (grid_of intervals lo hi) model.now layer file.old o
        file.new) }
{
    let outcome = npy_writing::write_npy(widths, Grid { intervals, lo, hi }, model, layer, file);
    tell(outcome, carried)
}

pub fn kan_npy_read(
    widths: &[usize],
    intervals: usize,
    lo: f32,
    hi: f32,
    model: &mut [f32],
    layer: usize,
    file: &[u8],
    carried: &mut usize,
) -> u32
    ensures { Linked refusal_of result carried.new (λ o.
        NpyRead widths.now (grid_of intervals lo hi) model.old layer file.now o
        model.new) }
{
    let outcome = npy_reading::read_npy(widths, Grid { intervals, lo, hi }, model, layer, file);
    tell(outcome, carried)
}
