// Inner crate: the checks that every call on a model makes first. Each takes all arguments.
#![tactic(auto)]

ghost use Rattle.std.specs.Prelude.{◌≡◌};
ghost use Rattle.config.specs.Config.{sizes_of, checked_of};
ghost use Rattle.admission.specs.Admission.{up_to8, up_to9, up_to9_for_nodes, up_to9_in_training};

use config::Sizes;
use refusals::{Refusal, refuse_unless};
use spline::Grid;

// The configuration, then 8.
#[tactic(auto, using(config::proofs::Answers::accepted, config::proofs::Answers::rejected), unfolding(crate::specs::Admission::up_to8))]
pub fn check_model(widths: &[usize], grid: Grid, model: usize) -> Result<Sizes, Refusal>
    ensures { result ≡ checked_of (up_to8 widths.now grid model) (sizes_of widths.now grid) }
{
    let sizes = config::check(widths, grid)?;
    refuse_unless(model == sizes.parameters, 8)?;
    Ok(sizes)
}

// Then 9, for two work slices of at least W numbers each.
#[tactic(auto, using(config::proofs::Answers::accepted, config::proofs::Answers::rejected), unfolding(crate::specs::Admission::up_to9))]
pub fn check_work(
    widths: &[usize],
    grid: Grid,
    model: usize,
    first: usize,
    second: usize,
) -> Result<Sizes, Refusal>
    ensures { result
        ≡ checked_of (up_to9 widths.now grid model first second) (sizes_of widths.now grid) }
{
    let sizes = check_model(widths, grid, model)?;
    refuse_unless(sizes.widest <= first, 9)?;
    refuse_unless(sizes.widest <= second, 9)?;
    Ok(sizes)
}

// 9 for `accumulate`: 2N numbers of work. Twice the nodes could pass what a word holds, so half of the work is compared.
#[tactic(auto, using(config::proofs::Answers::accepted, config::proofs::Answers::rejected), unfolding(crate::specs::Admission::up_to9_for_nodes))]
pub fn check_node_work(
    widths: &[usize],
    grid: Grid,
    model: usize,
    work: usize,
) -> Result<Sizes, Refusal>
    ensures { result
        ≡ checked_of (up_to9_for_nodes widths.now grid model work) (sizes_of widths.now grid) }
{
    let sizes = check_model(widths, grid, model)?;
    refuse_unless(sizes.nodes <= work / 2, 9)?;
    Ok(sizes)
}

// 9 for training: P gradients as well.
#[tactic(auto, using(config::proofs::Answers::accepted, config::proofs::Answers::rejected), unfolding(crate::specs::Admission::up_to9_in_training))]
pub fn check_training_work(
    widths: &[usize],
    grid: Grid,
    model: usize,
    gradients: usize,
    work: usize,
) -> Result<Sizes, Refusal>
    ensures { result
        ≡ checked_of (up_to9_in_training widths.now grid model gradients work) (sizes_of widths.now grid) }
{
    let sizes = check_node_work(widths, grid, model, work)?;
    refuse_unless(sizes.parameters <= gradients, 9)?;
    Ok(sizes)
}
