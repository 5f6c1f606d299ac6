// Inner crate: lists of cases as text, read from a slice. A line that begins with `#` is a comment, a blank line is
// skipped, and every other line is a one-letter tag and words of 1 to 16 lower-case hexadecimal digits, one space
// between.
#![tactic(auto)]

ghost use Rattle.std.specs.Prelude.{◌≡◌, ◌≤◌, ◌<◌, length, MatchOption};
ghost use Rattle.replay.specs.Floats.{float_of, same_bits};
ghost use Rattle.replay.specs.Lines.{Before, LineEnd, digit_of, word_of, Tagged, Parsed};

use std::num::{f32_from_bits_with_nan, f32_to_bits_with_nan};

// What a line is. Its words are at the start of the slice that was lent.
#[derive(Clone, Copy, Debug, PartialEq, Eq)]
pub enum Line {
    Words { tag: u8, count: usize },
    Skipped,
    Malformed,
}

// How many bytes stand before the first `mark`; all of them where there is none.
fn bytes_before(text: &[u8], mark: u8) -> usize
    ensures { Before text.now mark result }
{
    text.iter()
        .position(|byte| *byte == mark)
        .unwrap_or(text.len())
}

// Where the line that begins at `from` ends: at its LF, or with the text.
pub fn line_end(text: &[u8], from: usize) -> usize
    requires { from ≤ length text.now }
    ensures { LineEnd text.now from result }
{
    from + bytes_before(&text[from..], b'\n')
}

// What a hexadecimal digit stands for.
#[tactic(auto, unfolding(crate::specs::Lines::digit_of))]
fn digit(byte: u8) -> Option<u64>
    ensures { MatchOption result (digit_of byte ≡ 16) (λ d. (d ≡ digit_of byte) × (d < 16)) }
{
    match byte {
        b'0'..=b'9' => Some(u64::from(byte - b'0')),
        b'a'..=b'f' => Some(u64::from(byte - b'a') + 10),
        _ => None,
    }
}

#[tactic(auto, using(crate::proofs::Digits::word_none, crate::proofs::Digits::word_long, crate::proofs::Digits::word_other, crate::proofs::Digits::word_number, crate::proofs::Digits::read_none, crate::proofs::Digits::read_other, crate::proofs::Digits::read_all, crate::proofs::Digits::word_room))]
fn hex_word(text: &[u8]) -> Option<u64>
    ensures { result ≡ word_of text.now }
{
    if text.is_empty() || 16 < text.len() {
        return None;
    }
    let mut number = 0;
    for byte in text {
        number = number * 16 + digit(*byte)?;
    }
    Some(number)
}

// What follows a tag: words, each behind one space.
#[tactic(auto, using(crate::proofs::Words::taken_none, crate::proofs::Words::taken_other))]
fn tagged(tag: u8, rest: &[u8], words: &mut [u64]) -> Line
    ensures { Tagged tag rest.now words.old words.new result }
{
    let mut left = rest;
    let mut count = 0;
    while let Some((mark, behind)) = left.split_first() {
        if *mark != b' ' || count == words.len() {
            return Line::Malformed;
        }
        let (word, after) = behind.split_at(bytes_before(behind, b' '));
        let Some(number) = hex_word(word) else {
            return Line::Malformed;
        };
        words[count] = number;
        count += 1;
        left = after;
    }
    Line::Words { tag, count }
}

// A line without its LF. One of more words than there is room for is malformed.
#[tactic(auto, using(crate::proofs::Words::skipped, crate::proofs::Words::malformed), unfolding(crate::specs::Lines::line_of, crate::specs::Lines::letter_of))]
pub fn parse_line(line: &[u8], words: &mut [u64]) -> Line
    ensures { Parsed line.now words.old words.new result }
{
    let Some((tag, rest)) = line.split_first() else {
        return Line::Skipped;
    };
    match *tag {
        b'#' => Line::Skipped,
        b'A'..=b'Z' | b'a'..=b'z' => tagged(*tag, rest, words),
        _ => Line::Malformed,
    }
}

// The f32 of a pattern of 32 bits, and a NaN for a NaN's pattern or a number that is no pattern.
#[tactic(auto, using(crate::proofs::Patterns::nan_read), unfolding(crate::specs::Floats::float_of))]
pub fn float_of(bits: u64) -> f32
    ensures { result ≡ float_of bits }
{
    match u32::try_from(bits) {
        Ok(pattern) => f32_from_bits_with_nan(pattern),
        Err(_) => f32::NAN,
    }
}

// Whether x has this pattern. A NaN's pattern is the machine's own affair, and a list writes every NaN as 7fc00000.
#[tactic(auto, unfolding(crate::specs::Floats::same_bits))]
pub fn same_bits(x: f32, bits: u64) -> bool
    ensures { result ≡ same_bits x bits }
{
    bits == u64::from(f32_to_bits_with_nan(x))
}
