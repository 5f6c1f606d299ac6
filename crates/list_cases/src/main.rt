// Program: listings of images that differ from the example of R16.4 in their length or in a few bytes. Its file
// `stdout` holds what R15.2 and R15.4 ask for each.
#![tactic(auto)]

ghost use Rattle.std.specs.Prelude.{◌≤◌};

use std::io;

// The longest image here: a byte more than a listing takes.
const LONGEST: usize = 65_537;

// One byte that differs from the example's: how many bytes follow it, and what it becomes.
type Change = (u8, u8);

// The example of R16.4: shape [1, 1], g 2, domain [-1, 1], all parameters 0.0 but spline weight 1.0.
const EXAMPLE: [u32; 17] = [
    0,
    0x3f80_0000,
    0,
    0,
    0,
    0,
    0,
    1,
    1,
    68,
    40,
    2,
    2,
    0xbf80_0000,
    0x3f80_0000,
    3,
    1,
];

// The example at the end of zeros, which are further parameters where the image is longer.
fn example() -> [u8; LONGEST] {
    let mut image = [0; LONGEST];
    words::put_words(&mut image[LONGEST - 68..], &EXAMPLE);
    image
}

fn show(rt: &impl Print, name: &str, image: &[u8]) -> io::Result<()> {
    println!(rt; "{name}:")?;
    let mut text = listing::room();
    let end = listing::render(&mut text, image);
    rt.write_all(&text[..end])
}

// The last `count` bytes, with the changes.
fn list(rt: &impl Print, name: &str, count: usize, changes: &[Change]) -> io::Result<()>
    requires { count ≤ 65537 }
{
    let mut image = example();
    for (following, byte) in changes {
        image[LONGEST - 1 - usize::from(*following)] = *byte;
    }
    show(rt, name, &image[LONGEST - count..])
}

fn list_accepted(rt: &impl Print) -> io::Result<()> {
    list(rt, "the example", 68, &[])?;
    list(rt, "base weight -0.0", 68, &[(64, 128)])?;
    list(
        rt,
        "shape [2, 3, 1]",
        296,
        &[(43, 2), (39, 3), (23, 3), (27, 44), (31, 40), (30, 1)],
    )
}

fn list_refused_by_length(rt: &impl Print) -> io::Result<()> {
    list(rt, "65,537 bytes", 65_537, &[])?;
    list(rt, "65,536 bytes", 65_536, &[])?;
    list(rt, "31 bytes", 31, &[])?;
    list(rt, "no bytes", 0, &[])
}

fn list_refused_by_trailer(rt: &impl Print) -> io::Result<()> {
    list(rt, "version 2", 68, &[(3, 2)])?;
    list(rt, "version 2, degree 2", 68, &[(3, 2), (7, 2)])?;
    list(rt, "degree 2", 68, &[(7, 2)])?;
    list(
        rt,
        "degree 2, distance to the widths 44",
        68,
        &[(7, 2), (27, 44)],
    )?;
    list(rt, "distance to the widths 44", 68, &[(27, 44)])?;
    list(rt, "16 widths in 68 bytes", 68, &[(27, 96), (23, 16)])
}

fn list_refused_by_configuration(rt: &impl Print) -> io::Result<()> {
    list(rt, "one width", 68, &[(27, 36), (23, 1)])?;
    list(rt, "a zero width", 68, &[(35, 0)])?;
    list(rt, "no intervals", 68, &[(19, 0)])?;
    list(rt, "domain [-1, -1]", 68, &[(8, 191)])?;
    list(rt, "domain up to a NaN", 68, &[(8, 127), (9, 192)])?;
    list(rt, "both widths 4,278,190,081", 68, &[(36, 255), (32, 255)])?;
    list(rt, "262,146 intervals", 68, &[(17, 4)])?;
    list(
        rt,
        "262,146 intervals, domain [-1, -1]",
        68,
        &[(17, 4), (8, 191)],
    )
}

fn list_refused_by_body(rt: &impl Print) -> io::Result<()> {
    list(rt, "3 intervals in 68 bytes", 68, &[(19, 3)])?;
    list(rt, "distance to the parameters 64", 68, &[(31, 64)])?;
    list(rt, "spline weight +infinity", 68, &[(60, 127)])?;
    list(rt, "spline weight NaN", 68, &[(60, 127), (61, 192)])
}

fn main(rt: HostRuntime) -> io::Result<()> {
    list_accepted(&rt)?;
    list_refused_by_length(&rt)?;
    list_refused_by_trailer(&rt)?;
    list_refused_by_configuration(&rt)?;
    list_refused_by_body(&rt)
}
