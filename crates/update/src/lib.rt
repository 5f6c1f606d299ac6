// Inner crate: the update of a model, parameter less rate times gradient, and the test of the rate. A first pass
// tests, a second stores, so that a refusal leaves the model.
#![tactic(auto)]

ghost use Rattle.std.specs.Prelude.{◌≡◌, ◌≤◌, length};
ghost use Rattle.floats.specs.Sums.{all_finite};
ghost use Rattle.update.specs.Update.{rate_sound, moved_of};
ghost use Rattle.update.specs.Calls.{MovedOrLeft};

use refusals::{Refusal, refuse_unless};

// 19: the rate is finite and above 0.
#[tactic(auto, unfolding(crate::specs::Update::rate_sound))]
pub fn rate_sound(rate: f32) -> bool
    ensures { result ≡ rate_sound rate }
{
    floats::is_finite(rate) && !(rate <= 0.0)
}

#[tactic(auto, using(floats::proofs::Loops::all_none, floats::proofs::Loops::all_also, floats::proofs::Loops::all_table), unfolding(crate::specs::Update::moved_of))]
fn moves_finite(model: &[f32], gradients: &[f32], rate: f32) -> bool
    requires { length model.now ≤ length gradients.now }
    ensures { result ≡ all_finite (moved_of model.now gradients.now rate) }
{
    let mut sound = true;
    for (i, parameter) in model.iter().enumerate() {
        sound &= floats::is_finite(*parameter - rate * gradients[i]);
    }
    sound
}

#[tactic(auto, using(floats::proofs::Loops::tab_none, floats::proofs::Loops::tab_more, floats::proofs::Loops::tab_rest, floats::proofs::Loops::tab_whole), unfolding(crate::specs::Update::moved_of))]
fn move_all(model: &mut [f32], gradients: &[f32], rate: f32)
    requires { length model.old ≤ length gradients.now }
    ensures { model.new ≡ moved_of model.old gradients.now rate }
{
    for (i, parameter) in model.iter_mut().enumerate() {
        *parameter -= rate * gradients[i];
    }
}

// All parameters or none: stores the updated ones only where every one is finite (23).
pub fn move_or_leave(model: &mut [f32], gradients: &[f32], rate: f32) -> Result<(), Refusal>
    requires { length model.old ≤ length gradients.now }
    ensures { MovedOrLeft model.old gradients.now rate model.new result }
{
    refuse_unless(moves_finite(model, gradients, rate), 23)?;
    move_all(model, gradients, rate);
    Ok(())
}
