// Public crate: from a model image of version 1 to the widths and the model that the other calls take. The call takes
// all arguments and answers, or refuses by number (R3.1); one statement says the answer and what both slices
// hold.
#![tactic(auto)]

ghost use Rattle.image_unpacking.specs.Unpacking.{Unpacked};

use refusals::{Refusal, refuse_unless};

// Refused as `describe` is; then 10, unless `widths` has K places and `model` P.
#[tactic(auto, using(image_reading::proofs::Parts::described, image_reading::proofs::Parts::undescribed, image_reading::proofs::Parts::described_room), unfolding(crate::specs::Unpacking::unpack_fault))]
pub fn unpack(image: &[u8], widths: &mut [usize], model: &mut [f32]) -> Result<(), Refusal>
    ensures { Unpacked image.now widths.old model.old result
        widths.new model.new }
{
    let description = image_reading::describe(image)?;
    refuse_unless(widths.len() == description.widths, 10)?;
    refuse_unless(model.len() == description.parameters, 10)?;
    words::take_sizes(image, 4 * description.parameters, widths);
    words::take_floats(image, model);
    Ok(())
}
