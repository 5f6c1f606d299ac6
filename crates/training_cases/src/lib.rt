// Inner crate: settled cases of training, each a slice of words. A case gives the arguments of one call, what the call must
// answer, and what it must leave in the model and in both slices that it was lent. f32 numbers are words of 32 bits.
#![tactic(auto)]

mod calls;

use case_reading::Case;

// A tag that is none of these agrees with nothing.
pub fn agrees(tag: u8, words: &[u64]) -> bool {
    let mut case = Case::new(words);
    let met = match tag {
        b'O' => calls::train_step(&mut case),
        b'T' => calls::train(&mut case),
        _ => None,
    };
    met.is_some()
}
