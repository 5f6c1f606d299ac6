// `apply`: a model moved by gradients that were gathered for it.
ghost use Rattle.split_training.specs.Applying.{Applied};
ghost use Rattle.split_training.specs.Stages.{ApplyDone};

use admission::check_model;
use refusals::{Refusal, refuse_unless};
use spline::Grid;

// Past check 8: 10, 11 and the rate, and then the move or 23. The model is P numbers long here.
#[tactic(auto, unfolding(crate::specs::Applying::from10_to23))]
fn apply_sound(model: &mut [f32], gradients: &[f32], rate: f32) -> Result<(), Refusal>
    ensures { ApplyDone model.old gradients.now rate result model.new }
{
    refuse_unless(gradients.len() == model.len(), 10)?;
    refuse_unless(floats::all_finite(model), 11)?;
    refuse_unless(update::rate_sound(rate), 19)?;
    update::move_or_leave(model, gradients, rate)
}

// Moves all parameters by the gradients at a rate, or none. The gradients stay as they are.
pub fn apply(
    widths: &[usize],
    grid: Grid,
    model: &mut [f32],
    gradients: &[f32],
    rate: f32,
) -> Result<(), Refusal>
    ensures { Applied widths.now grid model.old gradients.now rate result
        model.new }
{
    check_model(widths, grid, model.len())?;
    apply_sound(model, gradients, rate)
}
