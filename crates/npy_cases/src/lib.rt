// Inner crate: settled cases of the calls on a layer's NPY file, each a slice of words: the arguments, what the call must answer,
// and what it must leave in what it may write. A file is its bytes; f32 numbers are words of 32 bits.
#![tactic(auto)]

mod calls;

use case_reading::Case;

// A tag that is none of these agrees with nothing.
pub fn agrees(tag: u8, words: &[u64]) -> bool {
    let mut case = Case::new(words);
    let met = match tag {
        b'N' => calls::write(&mut case),
        b'R' => calls::read(&mut case),
        _ => None,
    };
    met.is_some()
}
