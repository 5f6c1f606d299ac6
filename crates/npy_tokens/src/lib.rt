// Inner crate: the tokens of an NPY file's header in a lent text, each read from a place on. A reader answers the place behind
// what it found, and the text's end where it found something else: nothing is found there, so that a text that fails once
// fails to its end, and callers need not ask after every token.
#![tactic(auto)]

ghost use Rattle.std.specs.Prelude.{◌≡◌, ◌*◌, ◌+◌, ◌-◌, ◌≤◌, ◌<◌, length, drop};
ghost use Rattle.npy_tokens.specs.Tokens.{belongs, after_byte, after_bytes, after_token, begins_with, is_quote};
ghost use Rattle.npy_tokens.specs.Tokens.{plain, value_of, same};
ghost use Rattle.npy_tokens.specs.Places.{Place, part, Ended, StringRead, Digits, counted, NumberRead};

// A class of bytes.
#[derive(Clone, Copy)]
pub enum Class {
    Space,
    Digit,
    // What may stand in a string that this quote closes.
    Within(u8),
}

// A string: where it begins and ends between its quotes, and the place behind them.
#[derive(Clone, Copy)]
pub struct Quoted {
    pub from: usize,
    pub end: usize,
    pub next: usize,
}

// A whole number, counted up to `MOST`, and the place behind its last digit.
#[derive(Clone, Copy)]
pub struct Number {
    pub value: usize,
    pub next: usize,
}

// Numbers are counted up to here, and no further: those of a shape that fits are smaller, and no number wraps.
const MOST: usize = 1_000_000;

#[tactic(auto, unfolding(crate::specs::Tokens::belongs))]
fn is_in(class: Class, byte: u8) -> bool
    ensures { result ≡ belongs class byte }
{
    match class {
        Class::Space => byte == b' ',
        Class::Digit => byte.is_ascii_digit(),
        Class::Within(quote) => (b' '..=b'~').contains(&byte) && byte != b'\\' && byte != quote,
    }
}

// Where the bytes of a class end that begin at `from`.
pub fn end_of(text: &[u8], from: usize, class: Class) -> usize
    requires { from ≤ length text.now }
    ensures { Ended text.now from class result }
{
    from + text[from..]
        .iter()
        .take_while(|byte| is_in(class, **byte))
        .count()
}

// Whether the text has this byte at a place.
#[tactic(auto, using(crate::proofs::Texts::begins_here, crate::proofs::Texts::begins_nowhere))]
pub fn stands_at(text: &[u8], at: usize, byte: u8) -> bool
    ensures { result ≡ begins_with byte (drop at text.now) }
{
    text.get(at) == Some(&byte)
}

#[tactic(auto, using(crate::proofs::Texts::one_byte))]
pub fn past_byte(text: &[u8], at: usize, byte: u8) -> usize
    ensures { Place text.now result (after_byte byte (drop at text.now)) }
{
    if stands_at(text, at, byte) {
        at + 1
    } else {
        text.len()
    }
}

pub fn past_bytes(text: &[u8], at: usize, bytes: &[u8]) -> usize
    requires { at ≤ length text.now }
    ensures { Place text.now result (after_bytes bytes.now (drop at text.now)) }
{
    bytes
        .iter()
        .fold(at, |next, byte| past_byte(text, next, *byte))
}

// Spaces or none, and then the byte.
pub fn past_token(text: &[u8], at: usize, byte: u8) -> usize
    requires { at ≤ length text.now }
    ensures { Place text.now result (after_token byte (drop at text.now)) }
{
    let token = end_of(text, at, Class::Space);
    past_byte(text, token, byte)
}

// Whether the bytes from one place up to another are these.
#[tactic(auto, using(crate::proofs::Texts::same_pointwise))]
pub fn spells(text: &[u8], from: usize, end: usize, word: &[u8]) -> bool
    requires { (from ≤ end) × (end ≤ length text.now) }
    ensures { result ≡ same (part text.now from end) word.now }
{
    &text[from..end] == word
}

fn is_quote(byte: u8) -> bool
    ensures { result ≡ is_quote byte }
{
    matches!(byte, b'\'' | b'"')
}

// Spaces or none, and a string between two quotes of one kind.
pub fn string(text: &[u8], at: usize) -> Quoted
    requires { at ≤ length text.now }
    ensures { StringRead text.now at result }
{
    let open = end_of(text, at, Class::Space);
    match text.get(open) {
        Some(&quote) if is_quote(quote) => {
            let from = open + 1;
            let end = end_of(text, from, Class::Within(quote));
            let next = past_byte(text, end, quote);
            Quoted { from, end, next }
        }
        _ => {
            let nowhere = text.len();
            Quoted {
                from: nowhere,
                end: nowhere,
                next: nowhere,
            }
        }
    }
}

// Whether the digits from one place up to another are a number as it is written: some, and no 0 before others.
#[tactic(auto, using(crate::proofs::Texts::plains))]
fn is_plain(text: &[u8], from: usize, end: usize) -> bool
    requires { (from ≤ end) × (end ≤ length text.now) }
    ensures { result ≡ plain (part text.now from end) }
{
    match &text[from..end] {
        [] => false,
        [_] => true,
        [first, ..] => *first != b'0',
    }
}

// What a number comes to with one digit more.
fn with_digit(n: usize, digit: u8) -> usize
    requires { (n ≤ 1000000) × (48 ≤ digit) }
    ensures { result ≡ counted (n * 10 + (digit - 48)) }
{
    (n * 10 + usize::from(digit - b'0')).min(MOST)
}

// What the digits from one place up to another come to.
#[tactic(auto, using(crate::proofs::Texts::digit_steps), unfolding(crate::specs::Tokens::value_from))]
fn value(text: &[u8], from: usize, end: usize) -> usize
    requires { Digits text.now from end }
    ensures { result ≡ counted (value_of (part text.now from end)) }
{
    let mut n = 0;
    for digit in &text[from..end] {
        n = with_digit(n, *digit);
    }
    n
}

// Spaces or none, and a whole number.
#[tactic(auto, using(crate::proofs::Readings::numbers))]
pub fn whole_number(text: &[u8], at: usize) -> Number
    requires { at ≤ length text.now }
    ensures { NumberRead text.now at result }
{
    let from = end_of(text, at, Class::Space);
    let end = end_of(text, from, Class::Digit);
    let value = value(text, from, end);
    let next = if is_plain(text, from, end) {
        end
    } else {
        text.len()
    };
    Number { value, next }
}
