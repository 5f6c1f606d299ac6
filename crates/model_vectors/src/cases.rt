// Each kind of case has tags of its own. A tag that no kind has agrees with nothing.
pub fn agrees(tag: u8, words: &[u64]) -> bool {
    training_cases::agrees(tag, words)
        || image_cases::agrees(tag, words)
        || visit_cases::agrees(tag, words)
        || split_cases::agrees(tag, words)
        || npy_cases::agrees(tag, words)
}
