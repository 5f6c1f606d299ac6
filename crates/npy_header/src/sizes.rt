// The numbers of a shape, compared with those asked for while they are read: there may be any number of them, of any
// length.
ghost use Rattle.std.specs.Prelude.{◌≤◌, length};
ghost use Rattle.npy_header.specs.Steps.{Small, Few, MatchedOne, SizesRead};

use npy_tokens::Class;

// Whether a shape is the one asked for, and the place behind it. No Option: both are asked for whatever was read.
#[derive(Clone, Copy)]
pub struct Sizes {
    pub asked: bool,
    pub next: usize,
}

// How many of the sizes asked for were found, with one number more; none once a number is another.
#[tactic(auto, using(crate::proofs::Walks::first_asked, crate::proofs::Walks::first_other, crate::proofs::Walks::first_too_many))]
fn match_one(shape: &[usize], matched: Option<usize>, value: usize) -> Option<usize>
    requires { Small shape.now × Few shape.now matched }
    ensures { MatchedOne shape.now matched value result }
{
    let count = matched?;
    if count < shape.len() && shape[count] == value {
        return Some(count + 1);
    }
    None
}

// The shape that begins at a place: numbers parted by commas, a last comma or none, and the parenthesis that closes it.
pub fn sizes_at(text: &[u8], shape: &[usize], at: usize) -> Sizes
    requires { Small shape.now × (at ≤ length text.now) }
    ensures { SizesRead text.now shape.now at result }
{
    let mut next = npy_tokens::past_token(text, at, b'(');
    let mut matched = Some(0);
    loop {
        let here = npy_tokens::end_of(text, next, Class::Space);
        if npy_tokens::stands_at(text, here, b')') {
            return Sizes {
                asked: matched == Some(shape.len()),
                next: here + 1,
            };
        }
        let number = npy_tokens::whole_number(text, next);
        matched = match_one(shape, matched, number.value);
        let after = npy_tokens::end_of(text, number.next, Class::Space);
        if !npy_tokens::stands_at(text, after, b',') {
            return Sizes {
                asked: matched == Some(shape.len()),
                next: npy_tokens::past_byte(text, after, b')'),
            };
        }
        next = after + 1;
    }
}
