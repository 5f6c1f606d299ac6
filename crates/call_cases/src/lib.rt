// Inner crate: settled cases of the check, initialisation, prediction and loss, each a slice of words. A case gives the
// arguments of one call, what the call must answer, and what it must leave in every slice that it was lent. f32 numbers are
// words of 32 bits.
#![tactic(auto)]

mod calls;

use case_reading::Case;

// A tag that is none of these agrees with nothing.
pub fn agrees(tag: u8, words: &[u64]) -> bool {
    let mut case = Case::new(words);
    let met = match tag {
        b'C' => calls::check(&mut case),
        b'I' => calls::initialise(&mut case),
        b'P' => calls::predict(&mut case),
        b'Q' => calls::drawn_predict(&mut case),
        b'L' => calls::mse_loss(&mut case),
        _ => None,
    };
    met.is_some()
}
