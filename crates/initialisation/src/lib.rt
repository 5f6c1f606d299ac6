// Public crate: the start of a model, its parameters drawn from a seed. It takes all arguments and answers, or refuses
// by number.
#![tactic(auto)]

ghost use Rattle.initialisation.specs.Initialise.{Initialised};

use admission::check_model;
use refusals::Refusal;
use spline::Grid;

// Fills the model from the seed; refused by the configuration or 8, it is left as it was.
#[tactic(auto, using(config::proofs::Answers::accepted, config::proofs::Answers::rejected, admission::proofs::Passed::past8, refusals::proofs::Firsts::past_stopped))]
pub fn initialise(widths: &[usize], grid: Grid, seed: u64, model: &mut [f32]) -> Result<(), Refusal>
    ensures { Initialised widths.now grid seed model.old result model.new }
{
    check_model(widths, grid, model.len())?;
    first_parameters::initialise(widths, grid, seed, model);
    Ok(())
}
