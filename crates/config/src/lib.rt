// Public crate: the configuration checks (R3.4, R4.1 to R4.8), and the sizes that an accepted one has (R4.9).
#![tactic(auto)]

ghost use Rattle.std.specs.Prelude.{◌≡◌, ◌≤◌};
ghost use Rattle.config.specs.Config.{intervals_sound, ends_sound, steps_sound, checked_of, check_of, count_of};
ghost use Rattle.config.specs.Fold.{layer_of, add_layer, empty_shape, step_of, per_edge_of};
ghost use Rattle.config.specs.Fold.{given_sound, limits_fault, shape_fault, verdict_of};

use refusals::Refusal;
use spline::Grid;

// P, W and N (R2.4, R2.5): all parameters, the largest width, the sum of the widths.
#[derive(Clone, Copy, Debug, PartialEq, Eq)]
pub struct Sizes {
    pub parameters: usize,
    pub widest: usize,
    pub nodes: usize,
}

// What the widths taken so far come to: all that the checks ask of them. Widths are taken one at a time, so that those of
// a slice and those in the bytes of an image meet the same rules.
#[derive(Clone, Copy, Debug, PartialEq, Eq)]
pub struct Shape {
    // The width taken last; 0 before the first, which so makes a layer with no edge.
    pub last: usize,
    // Whether a width was 0.
    pub zero: bool,
    // Whether a product of neighbours was 2^64 or more.
    pub wide: bool,
    // The parameters so far, or the first 5 or 6.
    pub total: Result<usize, Refusal>,
    pub widest: usize,
    // The sum of the widths. It stops at 2^64 - 1, for widths whose sum is larger are refused.
    pub nodes: usize,
}

const MOST_PARAMETERS: usize = 250_000;
// 2^63 - 8
const MOST_INTERVALS: usize = 9_223_372_036_854_775_800;
// The first count of intervals g at which 2/g, as f32, no longer moves -1: the test of the domain [-1, 1] is a comparison
// with it (proofs/Threshold.antt).
const STUCK_INTERVALS: usize = 67_108_862;

#[tactic(auto, unfolding(crate::specs::Fold::whole_of))]
fn layer_size(edges: Option<usize>, per_edge: usize) -> Option<usize>
    ensures { result ≡ layer_of edges per_edge }
{
    edges?.checked_mul(per_edge)
}

// The running total with one more layer: 5 where the layer does not fit, and then 6 where the total does not.
#[tactic(auto, unfolding(crate::specs::Fold::whole_of))]
fn add_layer(total: Result<usize, Refusal>, layer: Option<usize>) -> Result<usize, Refusal>
    ensures { result ≡ add_layer total layer }
{
    let before = total?;
    let size = layer.ok_or(Refusal::new(5))?;
    before.checked_add(size).ok_or(Refusal::new(6))
}

#[tactic(auto, unfolding(crate::specs::Config::intervals_sound))]
fn intervals_sound(intervals: usize) -> bool
    ensures { result ≡ intervals_sound intervals }
{
    (1 <= intervals) & (intervals <= MOST_INTERVALS)
}

#[tactic(auto, unfolding(crate::specs::Config::ends_sound))]
fn ends_sound(grid: Grid) -> bool
    ensures { result ≡ ends_sound grid }
{
    floats::is_finite(grid.lo) & floats::is_finite(grid.hi) & !(grid.lo >= grid.hi)
}

// R4.4, the tests on the width and on the outermost knots: each step must be finite and move its end.
#[tactic(auto, unfolding(crate::specs::Config::steps_sound))]
fn steps_sound(grid: Grid) -> bool
    requires { grid.intervals ≤ 250000 }
    ensures { result ≡ steps_sound grid }
{
    let w = spline::width(grid);
    let a = grid.lo - 3.0 * w;
    let b = grid.hi + 3.0 * w;
    floats::is_finite(w)
        & !(w <= 0.0)
        & floats::is_finite(a)
        & floats::is_finite(b)
        & !(grid.lo + w <= grid.lo)
        & !(grid.hi - w >= grid.hi)
        & !(a >= grid.lo)
        & !(b <= grid.hi)
}

// 4 for the given domain. An edge has more parameters than the grid has intervals, so that no configuration that passes 7
// fails the first test here: it is for a state that no widths lead to.
#[tactic(auto, unfolding(crate::specs::Config::domain_sound, crate::specs::Fold::given_sound))]
fn given_sound(grid: Grid) -> bool
    ensures { result ≡ given_sound grid }
{
    if grid.intervals > MOST_PARAMETERS {
        return false;
    }
    ends_sound(grid) & steps_sound(grid)
}

// The last two checks, 7 and then 4 for the given domain: the number of the first that refuses, or 0. A number, since
// `verdict_of` says what is answered also of a state that carries a refusal of number 0, which no widths lead to.
#[tactic(auto, unfolding(crate::specs::Fold::limits_fault))]
fn limits_fault(total: usize, grid: Grid) -> u32
    ensures { result ≡ limits_fault total grid }
{
    let sound = given_sound(grid);
    if total > MOST_PARAMETERS {
        return 7;
    }
    if sound { 0 } else { 4 }
}

// The answer to a configuration of these sizes: accepted where the number of its refusal is 0. 7 carries the total.
fn answer(number: u32, sizes: Sizes) -> Result<Sizes, Refusal>
    ensures { result ≡ checked_of number sizes }
{
    match number {
        0 => Ok(sizes),
        7 => Err(Refusal {
            number,
            carried: sizes.parameters,
        }),
        _ => Err(Refusal::new(number)),
    }
}

// How many parameters an edge has: g + 5. It is 0 for a grid that is refused whatever its parameters are.
#[tactic(auto, using(crate::proofs::Tests::intervals_between), unfolding(crate::specs::Fold::per_edge_of))]
pub fn per_edge(grid: Grid) -> usize
    ensures { result ≡ per_edge_of grid.intervals }
{
    if intervals_sound(grid.intervals) {
        grid.intervals + 5
    } else {
        0
    }
}

impl Shape {
    #[tactic(auto, unfolding(crate::specs::Fold::empty_shape))]
    pub fn new() -> Shape
        ensures { result ≡ empty_shape }
    {
        Shape {
            last: 0,
            zero: false,
            wide: false,
            total: Ok(0),
            widest: 0,
            nodes: 0,
        }
    }

    // One more width, which makes a layer with the width before it.
    #[tactic(auto, unfolding(crate::specs::Fold::whole_of, crate::specs::Fold::step_of))]
    pub fn take(self, width: usize, per_edge: usize) -> Shape
        ensures { result ≡ step_of per_edge self width }
    {
        let edges = self.last.checked_mul(width);
        Shape {
            last: width,
            zero: self.zero | (width == 0),
            wide: self.wide | edges.is_none(),
            total: add_layer(self.total, layer_size(edges, per_edge)),
            widest: self.widest.max(width),
            nodes: self.nodes.saturating_add(width),
        }
    }

    // The number of the first refusal once all `count` widths are taken, or 0, as above. The given domain comes last, after all that is asked
    // with [-1, 1].
    #[tactic(auto, using(crate::proofs::UnitDomain::unit_domain), unfolding(crate::specs::Fold::shape_fault))]
    fn fault(self, count: usize, grid: Grid) -> u32
        ensures { result ≡ shape_fault self count grid }
    {
        let some_grid = intervals_sound(grid.intervals);
        if (count < 2) | self.zero {
            return 1;
        }
        if self.wide {
            return 2;
        }
        if !some_grid {
            return 3;
        }
        if grid.intervals >= STUCK_INTERVALS {
            return 4;
        }
        match self.total {
            Ok(parameters) => limits_fault(parameters, grid),
            Err(refusal) => refusal.number,
        }
    }

    // The answer once all `count` widths are taken.
    #[tactic(auto, unfolding(crate::specs::Fold::verdict_of))]
    pub fn verdict(self, count: usize, grid: Grid) -> Result<Sizes, Refusal>
        ensures { result ≡ verdict_of self count grid }
    {
        let sizes = Sizes {
            parameters: self.total.unwrap_or(0),
            widest: self.widest,
            nodes: self.nodes,
        };
        answer(self.fault(count, grid), sizes)
    }
}

// Accepted, with the sizes that all other calls go by, or the first refusal.
#[tactic(auto, using(crate::proofs::Folded::fold_none, crate::proofs::Folded::fold_more, crate::proofs::Folded::verdict_is))]
pub fn check(widths: &[usize], grid: Grid) -> Result<Sizes, Refusal>
    ensures { result ≡ check_of widths.now grid }
{
    let each = per_edge(grid);
    let mut shape = Shape::new();
    for width in widths {
        shape = shape.take(*width, each);
    }
    shape.verdict(widths.len(), grid)
}

// P, refused as `check` is.
pub fn parameter_count(widths: &[usize], grid: Grid) -> Result<usize, Refusal>
    ensures { result ≡ count_of (check_of widths.now grid) }
{
    let sizes = check(widths, grid)?;
    Ok(sizes.parameters)
}
