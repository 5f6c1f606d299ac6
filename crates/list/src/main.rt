// Program: the listing of the image on standard input (R15.1). Its `stdin` and `stdout` are the example of R16.4.
#![tactic(auto)]

ghost use Rattle.std.specs.Prelude.{◌≤◌, length};

use std::io;
use std::io::Read;

// Reads until `image` is full or the input ends, and answers how many bytes were read. A failed read counts as the input's end.
fn read_image(input: &mut impl Read, image: &mut [u8]) -> usize
    ensures { result ≤ length image.new }
{
    let mut filled = 0;
    while filled < image.len() {
        match input.read(&mut image[filled..]) {
            Ok(0) | Err(_) => break,
            Ok(count) => filled += count,
        }
    }
    filled
}

fn main(rt: HostRuntime) -> io::Result<()> {
    // One byte more than the longest image that is listed tells a longer one.
    let mut image = [0u8; 65537];
    let length = read_image(&mut rt.stdin(), &mut image);
    let mut text = listing::room();
    let end = listing::render(&mut text, &image[..length]);
    rt.write_all(&text[..end])
}
