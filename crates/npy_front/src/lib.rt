// Inner crate: the header of an NPY file of f32 numbers in three dimensions, as it is written: 128 bytes, however many digits its
// sizes have.
#![tactic(auto)]

ghost use Rattle.std.specs.Prelude.{◌≡◌, ◌++◌, ◌+◌, ◌-◌, ◌≤◌, ◌<◌, length, drop, replicate};
ghost use Rattle.text.specs.Appended.{Appended, AppendedWithin};
ghost use Rattle.npy_front.specs.Front.{dictionary_text, header_bytes};

use text::{append, append_decimal};

pub const HEADER_BYTES: usize = 128;

fn append_dictionary(out: &mut [u8], at: usize, first: usize, second: usize, third: usize) -> usize
    requires { at + 119 ≤ length out.old }
    ensures { AppendedWithin 119 out.old at (dictionary_text first second third) out.new result }
{
    let opened = append(
        out,
        at,
        b"{'descr': '<f4', 'fortran_order': False, 'shape': (",
    );
    let one = append_decimal(out, opened, first);
    let parted = append(out, one, b", ");
    let two = append_decimal(out, parted, second);
    let again = append(out, two, b", ");
    let three = append_decimal(out, again, third);
    append(out, three, b"), }")
}

// Spaces up to a place.
fn append_spaces(out: &mut [u8], at: usize, to: usize) -> usize
    requires { (at ≤ to) × (to ≤ length out.old) }
    ensures { Appended out.old at (replicate (to - at) 32) out.new result }
{
    out[at..to].fill(b' ');
    to
}

// A header for sizes below a million. The file has room for it and at least a byte behind it.
pub fn put_header(file: &mut [u8], first: usize, second: usize, third: usize)
    requires { (129 ≤ length file.old) × (first < 1000000) × (second < 1000000) × (third < 1000000) }
    ensures { file.new ≡ header_bytes first second third ++ drop 128 file.old }
{
    let text_at = append(file, 0, b"\x93NUMPY\x01\x00\x76\x00");
    let padding_at = append_dictionary(file, text_at, first, second, third);
    let newline_at = append_spaces(file, padding_at, HEADER_BYTES - 1);
    append(file, newline_at, b"\n");
}
