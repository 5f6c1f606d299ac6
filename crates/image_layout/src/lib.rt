// Inner crate: how an image of version 1 is laid out: the trailer at its end, and the lengths and distances that the
// trailer has to name. Callers have checked that the trailer lies within the bytes.
#![tactic(auto)]

ghost use Rattle.std.specs.Prelude.{◌≡◌, ◌+◌, ◌^◌, ◌≤◌, ◌<◌, length};
ghost use Rattle.image_layout.specs.Trailer.{widths_distance, image_length, trailer_at, trailer_words};
ghost use Rattle.image_layout.specs.Steps.{TrailerRead, TrailerWritable};

use spline::Grid;

// The eight words at the end of an image. A distance is counted from the end.
#[derive(Clone, Copy)]
pub struct Trailer {
    // The distance to the first parameter, and to the first width.
    pub parameters: usize,
    pub widths: usize,
    // How many widths there are.
    pub count: usize,
    pub grid: Grid,
    pub degree: usize,
    pub version: usize,
}

pub const TRAILER_BYTES: usize = 32;

pub const VERSION: usize = 1;

pub const DEGREE: usize = 3;

// How far from the end the first of `count` widths stands.
pub fn widths_distance(count: usize) -> usize
    requires { count < 2 ^ 32 }
    ensures { result ≡ widths_distance count }
{
    TRAILER_BYTES + 4 * count
}

// How long an image is, which is also how far from its end the first parameter stands.
pub fn image_length(count: usize, parameters: usize) -> usize
    requires { (count < 2 ^ 32) × (parameters < 2 ^ 32) }
    ensures { result ≡ image_length count parameters }
{
    widths_distance(count) + 4 * parameters
}

#[tactic(auto, unfolding(crate::specs::Trailer::trailer_at))]
fn grid_at(image: &[u8], at: usize) -> Grid
    requires { at + 32 ≤ length image.now }
    ensures { result ≡ (trailer_at image.now at).grid }
{
    Grid {
        intervals: words::size(image, at + 12),
        lo: words::float(image, at + 16),
        hi: words::float(image, at + 20),
    }
}

// The trailer that begins at `at`.
#[tactic(auto, unfolding(crate::specs::Trailer::trailer_at))]
pub fn trailer_at(image: &[u8], at: usize) -> Trailer
    requires { at + 32 ≤ length image.now }
    ensures { TrailerRead image.now at result }
{
    Trailer {
        parameters: words::size(image, at),
        widths: words::size(image, at + 4),
        count: words::size(image, at + 8),
        grid: grid_at(image, at),
        degree: words::size(image, at + 24),
        version: words::size(image, at + 28),
    }
}

// The words of the trailer of an image with `count` widths and `parameters` parameters.
#[tactic(auto, using(words::proofs::Patterns::finite_number), unfolding(crate::specs::Trailer::trailer_words))]
pub fn trailer_words(count: usize, parameters: usize, grid: Grid) -> [u32; 8]
    requires { TrailerWritable count parameters grid }
    ensures { result ≡ trailer_words count parameters grid }
{
    [
        image_length(count, parameters) as u32,
        widths_distance(count) as u32,
        count as u32,
        grid.intervals as u32,
        grid.lo.to_bits(),
        grid.hi.to_bits(),
        DEGREE as u32,
        VERSION as u32,
    ]
}
