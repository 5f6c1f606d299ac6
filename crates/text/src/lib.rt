// Inner crate: text put at a place of lent bytes, where the caller has left room. Each function answers the next place.
#![tactic(auto)]

ghost use Rattle.std.specs.Prelude.{◌≡◌, ◌+◌, ◌≤◌, ◌<◌, length};
ghost use Rattle.text.specs.Text.{glyph, decimal_of, bits_text, number_text, pattern_text, labelled_line};
ghost use Rattle.text.specs.Appended.{Appended, AppendedWithin};

pub fn append(out: &mut [u8], at: usize, text: &[u8]) -> usize
    requires { at + length text.now ≤ length out.old }
    ensures { Appended out.old at text.now out.new result }
{
    let end = at + text.len();
    out[at..end].copy_from_slice(text);
    end
}

#[tactic(auto, unfolding(crate::specs::Text::glyph))]
fn digit(n: u32) -> u8
    requires { n < 16 }
    ensures { result ≡ glyph n }
{
    if n < 10 {
        b'0' + n as u8
    } else {
        b'a' - 10 + n as u8
    }
}

// Eight hexadecimal digits.
#[tactic(auto, unfolding(crate::specs::Text::bits_text))]
pub fn append_bits(out: &mut [u8], at: usize, bits: u32) -> usize
    requires { at + 8 ≤ length out.old }
    ensures { AppendedWithin 8 out.old at (bits_text bits) out.new result }
{
    let text = [
        digit(bits >> 28),
        digit(bits >> 24 & 0xf),
        digit(bits >> 20 & 0xf),
        digit(bits >> 16 & 0xf),
        digit(bits >> 12 & 0xf),
        digit(bits >> 8 & 0xf),
        digit(bits >> 4 & 0xf),
        digit(bits & 0xf),
    ];
    append(out, at, &text)
}

// The digits are worked out from the last one on, and so fill the array from its end. By hand, since `write!` could
// fail for want of room, which a caller has already seen to.
pub fn append_decimal(out: &mut [u8], at: usize, n: usize) -> usize
    requires { at + 20 ≤ length out.old }
    ensures { AppendedWithin 20 out.old at (decimal_of n) out.new result }
{
    let mut digits = [0u8; 20];
    let mut from = 20;
    let mut rest = n;
    while rest >= 10 {
        from -= 1;
        digits[from] = b'0' + (rest % 10) as u8;
        rest /= 10;
    }
    let first = from - 1;
    digits[first] = b'0' + (rest % 10) as u8;
    append(out, at, &digits[first..])
}

// A number in decimal, and the byte behind it.
pub fn append_number(out: &mut [u8], at: usize, n: usize, after: u8) -> usize
    requires { at + 21 ≤ length out.old }
    ensures { AppendedWithin 21 out.old at (number_text n after) out.new result }
{
    let next = append_decimal(out, at, n);
    append(out, next, &[after])
}

// A pattern of bits, and the byte behind it.
pub fn append_pattern(out: &mut [u8], at: usize, bits: u32, after: u8) -> usize
    requires { at + 9 ≤ length out.old }
    ensures { AppendedWithin 9 out.old at (pattern_text bits after) out.new result }
{
    let next = append_bits(out, at, bits);
    append(out, next, &[after])
}

// A label, a number and the line's end.
pub fn append_labelled(out: &mut [u8], at: usize, label: &[u8], n: usize) -> usize
    requires { at + (length label.now + 21) ≤ length out.old }
    ensures { AppendedWithin (length label.now + 21) out.old at
        (labelled_line label.now n) out.new result }
{
    let next = append(out, at, label);
    append_number(out, next, n, b'\n')
}
