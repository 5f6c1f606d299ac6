// Public crate: what a model image of version 1 describes, and its parameter bytes. Each call takes all bytes and
// answers, or refuses by number (R3.1); one statement says the answer and the final contents of what was lent.
#![tactic(auto)]

ghost use Rattle.std.specs.Prelude.{◌≡◌, ◌+◌, ◌*◌, ◌^◌, ◌≤◌, ◌<◌, length};
ghost use Rattle.config.specs.Config.{check_of};
ghost use Rattle.refusals.specs.Refusals.{answer_of, outcome_of};
ghost use Rattle.words.specs.Words.{words_from};
ghost use Rattle.image_reading.specs.Image.{trailer_fault, length_fault, describe_of, ImageRead};
ghost use Rattle.image_reading.specs.Stages.{description_by, version_carried, survey_of};

use config::{Shape, Sizes};
use image_layout::Trailer;
use refusals::{Refusal, refuse_unless};
use spline::Grid;

// The grid, K and P of an accepted image.
#[derive(Clone, Copy)]
pub struct Description {
    pub grid: Grid,
    pub widths: usize,
    pub parameters: usize,
}

const MOST_BYTES: usize = 8_388_608;

// 25, 26, and 27 for the widths' distance, of the trailer of an image of so many bytes. 25 carries the version.
#[tactic(auto, unfolding(crate::specs::Image::trailer_fault))]
fn check_trailer(trailer: Trailer, bytes: usize) -> Result<(), Refusal>
    requires { trailer.count < 2 ^ 32 }
    ensures { let fault = trailer_fault trailer bytes in
        result ≡ outcome_of fault (version_carried fault trailer) }
{
    if trailer.version != image_layout::VERSION {
        return Err(Refusal {
            number: 25,
            carried: trailer.version,
        });
    }
    refuse_unless(trailer.degree == image_layout::DEGREE, 26)?;
    refuse_unless(
        trailer.widths == image_layout::widths_distance(trailer.count),
        27,
    )?;
    refuse_unless(trailer.widths <= bytes, 27)
}

// 27 for the length, and for the first distance, of an image of so many bytes whose widths ask for so many parameters.
#[tactic(auto, unfolding(crate::specs::Image::length_fault))]
fn describe_length(
    trailer: Trailer,
    parameters: usize,
    bytes: usize,
) -> Result<Description, Refusal>
    requires { (trailer.count < 2 ^ 32) × (parameters < 2 ^ 32) }
    ensures { result ≡ answer_of (length_fault trailer parameters bytes) 0 (description_by trailer parameters) }
{
    refuse_unless(
        bytes == image_layout::image_length(trailer.count, parameters),
        27,
    )?;
    refuse_unless(trailer.parameters == bytes, 27)?;
    Ok(Description {
        grid: trailer.grid,
        widths: trailer.count,
        parameters,
    })
}

// The configuration, with the widths that begin at `from` in the bytes.
fn check_widths(image: &[u8], from: usize, count: usize, grid: Grid) -> Result<Sizes, Refusal>
    requires { from + 4 * count ≤ length image.now }
    ensures { result ≡ check_of (words_from image.now from count) grid }
{
    let each = config::per_edge(grid);
    let mut shape = Shape::new();
    for word in image[from..from + 4 * count].chunks_exact(4) {
        shape = shape.take(words::size(word, 0), each);
    }
    shape.verdict(count, grid)
}

// All checks but 11: what an image describes, whatever its parameters are.
pub fn survey(image: &[u8]) -> Result<Description, Refusal>
    ensures { result ≡ survey_of image.now }
{
    refuse_unless(image.len() <= MOST_BYTES, 24)?;
    refuse_unless(image_layout::TRAILER_BYTES <= image.len(), 27)?;
    let trailer = image_layout::trailer_at(image, image.len() - image_layout::TRAILER_BYTES);
    check_trailer(trailer, image.len())?;
    let from = image.len() - trailer.widths;
    let sizes = check_widths(image, from, trailer.count, trailer.grid)?;
    describe_length(trailer, sizes.parameters, image.len())
}

// The grid, K and P, or the first refusal and what it carries.
pub fn describe(image: &[u8]) -> Result<Description, Refusal>
    ensures { result ≡ describe_of image.now }
{
    let surveyed = survey(image)?;
    refuse_unless(words::all_finite(image, surveyed.parameters), 11)?;
    Ok(surveyed)
}

// The first 4P bytes of an accepted image, and none of a refused one; the number is the refusal's, or 0. It lends a number
// and is no `Result`, since R13.6 asks for both on a refusal, and `ImageRead` says where the empty part lies.
pub fn read<'a>(image: &'a [u8], number: &mut u32) -> &'a [u8]
    ensures { ImageRead image.now image.entry.ref_ptr result.now result.ref_ptr number.new }
{
    match describe(image) {
        Ok(description) => {
            *number = 0;
            let end = 4 * description.parameters;
            &image[..end]
        }
        Err(refusal) => {
            *number = refusal.number;
            &image[..0]
        }
    }
}
