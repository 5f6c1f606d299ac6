// Inner crate: settled cases of training in two calls, each a slice of words: the arguments, what the call must answer, and what
// it must leave in what it may write. f32 numbers are words of 32 bits.
#![tactic(auto)]

mod calls;

use case_reading::Case;

// A tag that is none of these agrees with nothing.
pub fn agrees(tag: u8, words: &[u64]) -> bool {
    let mut case = Case::new(words);
    let met = match tag {
        b'A' => calls::accumulate(&mut case),
        b'X' => calls::apply(&mut case),
        _ => None,
    };
    met.is_some()
}
