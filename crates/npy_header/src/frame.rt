// What stands around a header's text: the magic bytes and the version before it, its length, and the numbers behind it.
ghost use Rattle.std.specs.Prelude.{◌≡◌, ◌≤◌, length};
ghost use Rattle.refusals.specs.Refusals.{outcome_of};
ghost use Rattle.npy_header.specs.File.{is_framed, body_at, file_fault};
ghost use Rattle.npy_header.specs.Steps.{Small};

use crate::entries::check_text;
use refusals::{Refusal, refuse_unless};

// Where the text of a header begins.
const TEXT_AT: usize = 10;

// Where the numbers begin, by the length that the file names.
pub fn body_at(file: &[u8]) -> usize
    requires { 10 ≤ length file.now }
    ensures { result ≡ body_at file.now }
{
    TEXT_AT + usize::from(u16::from_le_bytes([file[8], file[9]]))
}

fn is_framed(file: &[u8]) -> bool
    ensures { result ≡ is_framed file.now }
{
    if file.len() < TEXT_AT {
        return false;
    }
    let magic = npy_tokens::spells(file, 0, 8, b"\x93NUMPY\x01\x00");
    magic & (body_at(file) <= file.len())
}

// 29 for a file that does not begin with a header, and then 30 for another type, order or shape.
#[tactic(auto, using(crate::proofs::Frames::accepted_inside), unfolding(crate::specs::File::file_fault))]
pub fn check_header(file: &[u8], shape: &[usize]) -> Result<(), Refusal>
    requires { Small shape.now }
    ensures { result ≡ outcome_of (file_fault shape.now file.now) 0 }
{
    refuse_unless(is_framed(file), 29)?;
    let end = body_at(file);
    check_text(&file[TEXT_AT..end], shape)
}
