// Each kind of case has tags of its own. A tag that no kind has agrees with nothing.
pub fn agrees(tag: u8, words: &[u64]) -> bool {
    leaf_cases::agrees(tag, words)
        || call_cases::agrees(tag, words)
        || forward_cases::agrees(tag, words)
}
