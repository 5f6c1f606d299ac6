// Inner crate: settled cases of the calls on model images, each a slice of words. A case gives the arguments of one
// call, what the call must answer, and what it must leave in every slice that it was lent. An image is its bytes; f32
// numbers are words of 32 bits.
#![tactic(auto)]

mod images;
mod writer;

use case_reading::Case;

// A tag that is none of these agrees with nothing.
pub fn agrees(tag: u8, words: &[u64]) -> bool {
    let mut case = Case::new(words);
    let met = match tag {
        b'H' => images::describe(&mut case),
        b'J' => images::read(&mut case),
        b'Y' => images::unpack(&mut case),
        b'W' => writer::write(&mut case),
        _ => None,
    };
    met.is_some()
}
