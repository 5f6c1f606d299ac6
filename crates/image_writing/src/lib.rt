// Public crate: the model image of version 1, written from a configuration and a model. The call takes all arguments
// and answers, or refuses by number (R3.1); one statement says the answer and the bytes that it leaves.
#![tactic(auto)]

ghost use Rattle.std.specs.Prelude.{◌≡◌};
ghost use Rattle.image_writing.specs.Writing.{image_of, ImageWritten};
ghost use Rattle.image_writing.specs.Steps.{Writable};

use admission::check_model;
use refusals::{Refusal, refuse_unless};
use spline::Grid;

// All bytes, from the front: the parameters, the widths, the trailer.
#[tactic(auto, using(crate::proofs::Placed::placed))]
fn put_image(widths: &[usize], grid: Grid, model: &[f32], image: &mut [u8])
    requires { Writable widths.now grid model.now image.old }
    ensures { image.new ≡ image_of widths.now grid model.now }
{
    words::put_floats(image, model);
    let after_model = 4 * model.len();
    words::put_sizes(&mut image[after_model..], widths);
    let after_widths = after_model + 4 * widths.len();
    let last = image_layout::trailer_words(widths.len(), model.len(), grid);
    words::put_words(&mut image[after_widths..], &last);
}

// Refused in the order configuration, 8, 10, 11, and then nothing is written.
#[tactic(auto, using(config::proofs::Answers::accepted, config::proofs::Answers::rejected, admission::proofs::Passed::past8, crate::proofs::Placed::in_words), unfolding(crate::specs::Writing::write_fault))]
pub fn write(widths: &[usize], grid: Grid, model: &[f32], image: &mut [u8]) -> Result<(), Refusal>
    ensures { ImageWritten widths.now grid model.now image.old result
        image.new }
{
    check_model(widths, grid, model.len())?;
    let length = image_layout::image_length(widths.len(), model.len());
    refuse_unless(image.len() == length, 10)?;
    refuse_unless(floats::all_finite(model), 11)?;
    put_image(widths, grid, model, image);
    Ok(())
}
