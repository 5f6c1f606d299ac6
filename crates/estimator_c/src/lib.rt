// Public crate: the C linkage as an archive. Each C function is the function of `estimator` by the same name, with the
// same promise.
#![tactic(auto)]

ghost use Rattle.std.specs.Prelude.{◌≡◌};
ghost use Rattle.layers.specs.Net.{net_of};
ghost use Rattle.config.specs.Config.{check_of};
ghost use Rattle.refusals.specs.Refusals.{refusal_of};
ghost use Rattle.initialisation.specs.Initialise.{Initialised};
ghost use Rattle.prediction.specs.Predict.{Predicted};
ghost use Rattle.loss.specs.Loss.{Lost};
ghost use Rattle.training.specs.Train.{Stepped, Trained, training_refusal, steps_done};
ghost use Rattle.split_training.specs.Accumulating.{Accumulated};
ghost use Rattle.split_training.specs.Applying.{Applied};
ghost use Rattle.visit_map.specs.Visits.{Visited};
ghost use Rattle.image_reading.specs.Image.{describe_of};
ghost use Rattle.image_writing.specs.Writing.{ImageWritten};
ghost use Rattle.image_unpacking.specs.Unpacking.{Unpacked};
ghost use Rattle.npy_writing.specs.Writing.{NpyWritten};
ghost use Rattle.npy_reading.specs.Reader.{NpyRead};
ghost use Rattle.estimator.specs.Linkage.{Linked, grid_of, description_of};
ghost use Rattle.estimator.specs.Linkage.{parameters_or, mean_or, description_or};

#[unsafe(no_mangle)]
pub extern "C" fn kan_check(
    widths: &[usize],
    intervals: usize,
    lo: f32,
    hi: f32,
    parameters: &mut usize,
    carried: &mut usize,
) -> u32
    ensures { Linked refusal_of result carried.new (λ o.
        (o ≡ check_of widths.now (grid_of intervals lo hi))
        × (parameters.new ≡ parameters_or o parameters.old)) }
{
    estimator::kan_check(widths, intervals, lo, hi, parameters, carried)
}

#[unsafe(no_mangle)]
pub extern "C" fn kan_initialise(
    widths: &[usize],
    intervals: usize,
    lo: f32,
    hi: f32,
    seed: u64,
    model: &mut [f32],
    carried: &mut usize,
) -> u32
    ensures { Linked refusal_of result carried.new (λ o.
        Initialised widths.now (grid_of intervals lo hi) seed model.old o model.new) }
{
    estimator::kan_initialise(widths, intervals, lo, hi, seed, model, carried)
}

#[unsafe(no_mangle)]
pub extern "C" fn kan_predict(
    widths: &[usize],
    intervals: usize,
    lo: f32,
    hi: f32,
    model: &[f32],
    inputs: &[f32],
    first: &mut [f32],
    second: &mut [f32],
    outputs: &mut [f32],
    carried: &mut usize,
) -> u32
    ensures { Linked refusal_of result carried.new (λ o.
        Predicted (net_of (grid_of intervals lo hi)) widths.now (grid_of intervals lo hi) model.now
        inputs.now first.old second.old outputs.old o
        first.new second.new outputs.new) }
{
    estimator::kan_predict(
        widths, intervals, lo, hi, model, inputs, first, second, outputs, carried,
    )
}

#[unsafe(no_mangle)]
pub extern "C" fn kan_loss(
    widths: &[usize],
    intervals: usize,
    lo: f32,
    hi: f32,
    model: &[f32],
    inputs: &[f32],
    targets: &[f32],
    first: &mut [f32],
    second: &mut [f32],
    loss: &mut f32,
    carried: &mut usize,
) -> u32
    ensures { Linked refusal_of result carried.new (λ o.
        Lost (net_of (grid_of intervals lo hi)) widths.now (grid_of intervals lo hi) model.now
        inputs.now targets.now first.old second.old o
        first.new second.new
        × (loss.new ≡ mean_or o loss.old)) }
{
    estimator::kan_loss(
        widths, intervals, lo, hi, model, inputs, targets, first, second, loss, carried,
    )
}

#[unsafe(no_mangle)]
pub extern "C" fn kan_train_step(
    widths: &[usize],
    intervals: usize,
    lo: f32,
    hi: f32,
    model: &mut [f32],
    inputs: &[f32],
    targets: &[f32],
    rate: f32,
    gradients: &mut [f32],
    work: &mut [f32],
    carried: &mut usize,
) -> u32
    ensures { Linked refusal_of result carried.new (λ o.
        Stepped (net_of (grid_of intervals lo hi)) widths.now (grid_of intervals lo hi) model.old
        inputs.now targets.now rate gradients.old work.old o
        model.new gradients.new work.new) }
{
    estimator::kan_train_step(
        widths, intervals, lo, hi, model, inputs, targets, rate, gradients, work, carried,
    )
}

#[unsafe(no_mangle)]
pub extern "C" fn kan_train(
    widths: &[usize],
    intervals: usize,
    lo: f32,
    hi: f32,
    model: &mut [f32],
    inputs: &[f32],
    targets: &[f32],
    steps: usize,
    rate: f32,
    gradients: &mut [f32],
    work: &mut [f32],
    done: &mut usize,
    carried: &mut usize,
) -> u32
    ensures { Linked training_refusal result carried.new (λ o.
        Trained (net_of (grid_of intervals lo hi)) widths.now (grid_of intervals lo hi) model.old
        inputs.now targets.now rate gradients.old work.old steps o
        model.new gradients.new work.new
        × (done.new ≡ steps_done o)) }
{
    estimator::kan_train(
        widths, intervals, lo, hi, model, inputs, targets, steps, rate, gradients, work, done,
        carried,
    )
}

#[unsafe(no_mangle)]
pub extern "C" fn kan_accumulate(
    widths: &[usize],
    intervals: usize,
    lo: f32,
    hi: f32,
    model: &[f32],
    inputs: &[f32],
    targets: &[f32],
    total: usize,
    gradients: &mut [f32],
    work: &mut [f32],
    carried: &mut usize,
) -> u32
    ensures { Linked refusal_of result carried.new (λ o.
        Accumulated (net_of (grid_of intervals lo hi)) widths.now (grid_of intervals lo hi) model.now
        inputs.now targets.now total gradients.old work.old o
        gradients.new work.new) }
{
    estimator::kan_accumulate(
        widths, intervals, lo, hi, model, inputs, targets, total, gradients, work, carried,
    )
}

#[unsafe(no_mangle)]
pub extern "C" fn kan_apply(
    widths: &[usize],
    intervals: usize,
    lo: f32,
    hi: f32,
    model: &mut [f32],
    gradients: &[f32],
    rate: f32,
    carried: &mut usize,
) -> u32
    ensures { Linked refusal_of result carried.new (λ o.
        Applied widths.now (grid_of intervals lo hi) model.old gradients.now rate o
        model.new) }
{
    estimator::kan_apply(widths, intervals, lo, hi, model, gradients, rate, carried)
}

#[unsafe(no_mangle)]
pub extern "C" fn kan_visits(
    widths: &[usize],
    intervals: usize,
    lo: f32,
    hi: f32,
    model: &[f32],
    inputs: &[f32],
    first: &mut [f32],
    second: &mut [f32],
    map: &mut [u8],
    carried: &mut usize,
) -> u32
    ensures { Linked refusal_of result carried.new (λ o.
        Visited (net_of (grid_of intervals lo hi)) widths.now (grid_of intervals lo hi) model.now
        inputs.now first.old second.old map.old o
        first.new second.new map.new) }
{
    estimator::kan_visits(
        widths, intervals, lo, hi, model, inputs, first, second, map, carried,
    )
}

#[unsafe(no_mangle)]
pub extern "C" fn kan_image_write(
    widths: &[usize],
    intervals: usize,
    lo: f32,
    hi: f32,
    model: &[f32],
    image: &mut [u8],
    carried: &mut usize,
) -> u32
    ensures { Linked refusal_of result carried.new (λ o.
        ImageWritten widths.now (grid_of intervals lo hi) model.now image.old o
        image.new) }
{
    estimator::kan_image_write(widths, intervals, lo, hi, model, image, carried)
}

#[unsafe(no_mangle)]
pub extern "C" fn kan_image_read(
    image: &[u8],
    intervals: &mut usize,
    lo: &mut f32,
    hi: &mut f32,
    widths: &mut usize,
    parameters: &mut usize,
    carried: &mut usize,
) -> u32
    ensures { Linked refusal_of result carried.new (λ o.
        (o ≡ describe_of image.now)
        × (description_of intervals.new lo.new hi.new widths.new
        parameters.new ≡ description_or o (description_of intervals.old lo.old
        hi.old widths.old parameters.old))) }
{
    estimator::kan_image_read(image, intervals, lo, hi, widths, parameters, carried)
}

#[unsafe(no_mangle)]
pub extern "C" fn kan_image_unpack(
    image: &[u8],
    widths: &mut [usize],
    model: &mut [f32],
    carried: &mut usize,
) -> u32
    ensures { Linked refusal_of result carried.new (λ o.
        Unpacked image.now widths.old model.old o
        widths.new model.new) }
{
    estimator::kan_image_unpack(image, widths, model, carried)
}

#[unsafe(no_mangle)]
pub extern "C" fn kan_npy_write(
    widths: &[usize],
    intervals: usize,
    lo: f32,
    hi: f32,
    model: &[f32],
    layer: usize,
    file: &mut [u8],
    carried: &mut usize,
) -> u32
    ensures { Linked refusal_of result carried.new (λ o.
        NpyWritten widths.now (grid_of intervals lo hi) model.now layer file.old o
        file.new) }
{
    estimator::kan_npy_write(widths, intervals, lo, hi, model, layer, file, carried)
}

#[unsafe(no_mangle)]
pub extern "C" fn kan_npy_read(
    widths: &[usize],
    intervals: usize,
    lo: f32,
    hi: f32,
    model: &mut [f32],
    layer: usize,
    file: &[u8],
    carried: &mut usize,
) -> u32
    ensures { Linked refusal_of result carried.new (λ o.
        NpyRead widths.now (grid_of intervals lo hi) model.old layer file.now o
        model.new) }
{
    estimator::kan_npy_read(widths, intervals, lo, hi, model, layer, file, carried)
}
