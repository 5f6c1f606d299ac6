// The three entries of a header's dictionary, in any order.
ghost use Rattle.std.specs.Prelude.{◌≡◌, ◌≤◌, length, drop};
ghost use Rattle.refusals.specs.Refusals.{outcome_of};
ghost use Rattle.npy_tokens.specs.Places.{Place, part};
ghost use Rattle.npy_header.specs.Reading.{after_optional_comma, is_closed, with_descr, with_order};
ghost use Rattle.npy_header.specs.Reading.{with_shape, with_value, entry_of, comma_of, entries_of};
ghost use Rattle.npy_header.specs.Reading.{header_of, header_fault};
ghost use Rattle.npy_header.specs.Steps.{Small, Follows, found_fault, Keeps, Always, Fails, TruthRead};

use crate::sizes::sizes_at;
use npy_tokens::{Class, Quoted};
use refusals::{Refusal, refuse_unless};

// Which entries were found so far, and of each whether its value is the one asked for; and the place behind the last.
#[derive(Clone, Copy)]
pub struct Found {
    pub next: usize,
    pub descr: Option<bool>,
    pub order: Option<bool>,
    pub shape: Option<bool>,
}

// True or False, and the place behind it. No Option: a place is asked for whatever was read.
#[derive(Clone, Copy)]
pub struct Truth {
    pub holds: bool,
    pub next: usize,
}

fn truth_at(text: &[u8], at: usize) -> Truth
    requires { at ≤ length text.now }
    ensures { TruthRead text.now at result }
{
    let word = npy_tokens::end_of(text, at, Class::Space);
    if npy_tokens::stands_at(text, word, b'T') {
        return Truth {
            holds: true,
            next: npy_tokens::past_bytes(text, word, b"True"),
        };
    }
    Truth {
        holds: false,
        next: npy_tokens::past_bytes(text, word, b"False"),
    }
}

// The same with nothing left to read. No Result: by the definition `header_of`, what fails once fails to its end.
fn failed(text: &[u8], found: Found) -> Found
    ensures { Fails text.now found result }
{
    Found {
        next: text.len(),
        ..found
    }
}

// Each takes the value that begins at a place, unless there was one: a key may come once.
fn take_descr(text: &[u8], found: Found, at: usize) -> Found
    requires { at ≤ length text.now }
    ensures { Always text.now (λ s. with_descr s.descr s (drop at text.now)) found result }
{
    if found.descr.is_some() {
        return failed(text, found);
    }
    let value = npy_tokens::string(text, at);
    let asked = npy_tokens::spells(text, value.from, value.end, b"<f4");
    Found {
        next: value.next,
        descr: Some(asked),
        ..found
    }
}

fn take_order(text: &[u8], found: Found, at: usize) -> Found
    requires { at ≤ length text.now }
    ensures { Always text.now (λ s. with_order s.fortran_order s (drop at text.now)) found result }
{
    if found.order.is_some() {
        return failed(text, found);
    }
    let value = truth_at(text, at);
    Found {
        next: value.next,
        order: Some(!value.holds),
        ..found
    }
}

fn take_shape(text: &[u8], shape: &[usize], found: Found, at: usize) -> Found
    requires { Small shape.now × (at ≤ length text.now) }
    ensures { Keeps text.now shape.now (λ s. with_shape s.shape s (drop at text.now))
        found result }
{
    if found.shape.is_some() {
        return failed(text, found);
    }
    let value = sizes_at(text, shape, at);
    Found {
        next: value.next,
        shape: Some(value.asked),
        ..found
    }
}

// Takes the value that begins at a place, by its key.
fn take_value(text: &[u8], shape: &[usize], found: Found, key: Quoted, at: usize) -> Found
    requires { Small shape.now × (key.from ≤ key.end) × (key.end ≤ length text.now) × (at ≤ length text.now) }
    ensures { Keeps text.now shape.now
        (λ s. with_value (part text.now key.from key.end) s (drop at text.now)) found result }
{
    if npy_tokens::spells(text, key.from, key.end, b"descr") {
        return take_descr(text, found, at);
    }
    if npy_tokens::spells(text, key.from, key.end, b"fortran_order") {
        return take_order(text, found, at);
    }
    if npy_tokens::spells(text, key.from, key.end, b"shape") {
        return take_shape(text, shape, found, at);
    }
    failed(text, found)
}

// One entry: its key, a colon, its value.
fn take_entry(text: &[u8], shape: &[usize], found: Found) -> Found
    requires { Small shape.now × (found.next ≤ length text.now) }
    ensures { Keeps text.now shape.now entry_of found result }
{
    let key = npy_tokens::string(text, found.next);
    let value = npy_tokens::past_token(text, key.next, b':');
    take_value(text, shape, found, key, value)
}

fn comma(text: &[u8], found: Found) -> Found
    requires { found.next ≤ length text.now }
    ensures { Always text.now comma_of found result }
{
    Found {
        next: npy_tokens::past_token(text, found.next, b','),
        ..found
    }
}

// The three entries behind the brace that opens the dictionary.
fn entries(text: &[u8], shape: &[usize]) -> Found
    requires { Small shape.now }
    ensures { Follows text.now shape.now (entries_of text.now) result }
{
    let none = Found {
        next: npy_tokens::past_byte(text, 0, b'{'),
        descr: None,
        order: None,
        shape: None,
    };
    let first = take_entry(text, shape, none);
    let second = take_entry(text, shape, comma(text, first));
    take_entry(text, shape, comma(text, second))
}

// Past a comma, where there is one.
fn past_optional_comma(text: &[u8], at: usize) -> usize
    requires { at ≤ length text.now }
    ensures { Place text.now result (after_optional_comma (drop at text.now)) }
{
    let here = npy_tokens::end_of(text, at, Class::Space);
    if npy_tokens::stands_at(text, here, b',') {
        return here + 1;
    }
    at
}

// Whether the text ends as it should behind the last entry: a comma or none, the brace, spaces, and the newline as last
// byte.
fn is_closed(text: &[u8], at: usize) -> bool
    requires { at ≤ length text.now }
    ensures { result ≡ is_closed (drop at text.now) }
{
    let last = past_optional_comma(text, at);
    let brace = npy_tokens::past_token(text, last, b'}');
    let newline = npy_tokens::end_of(text, brace, Class::Space);
    npy_tokens::spells(text, newline, text.len(), b"\n")
}

// 29 where an entry is missing, and then 30 where one is not the one asked for.
fn check_entries(found: Found) -> Result<(), Refusal>
    ensures { result ≡ outcome_of (found_fault found.descr found.order found.shape) 0 }
{
    let (Some(descr), Some(order), Some(shape)) = (found.descr, found.order, found.shape) else {
        return Err(Refusal::new(29));
    };
    refuse_unless(descr && order && shape, 30)
}

// 29 for a text that is no header, and then 30 for one of another type, order or shape.
pub fn check_text(text: &[u8], shape: &[usize]) -> Result<(), Refusal>
    requires { Small shape.now }
    ensures { result ≡ outcome_of (header_fault shape.now (header_of text.now)) 0 }
{
    let found = entries(text, shape);
    refuse_unless(is_closed(text, found.next), 29)?;
    check_entries(found)
}
