// Inner crate: settled cases of the leaves, each a slice of words. f32 numbers are words of 32 bits. A wrong count of
// words agrees with nothing.
#![tactic(auto)]

use generator::SplitMix64;
use replay::{float_of, same_bits};
use spline::Grid;

// A tag that is none of these agrees with nothing.
pub fn agrees(tag: u8, words: &[u64]) -> bool {
    match tag {
        b'E' => answer_agrees(words, |x| exponential::exponential(float_of(x))),
        b'S' => answer_agrees(words, |x| spline::silu(float_of(x))),
        b'D' => answer_agrees(words, |x| spline::silu_derivative(float_of(x))),
        b'R' => answer_agrees(words, |n| generator::root(n as usize)),
        b'M' => draws_agree(words),
        b'U' => uniform_draws_agree(words),
        b'K' => knots_agree(words),
        b'B' => basis_agrees(words),
        _ => false,
    }
}

// E x y, S x y, D x y, R n y
fn answer_agrees<F: Fn(u64) -> f32>(words: &[u64], call: F) -> bool
    requires { F.IsAlwaysCallable call }
{
    let [x, y] = *words else {
        return false;
    };
    same_bits(call(x), y)
}

// M seed d0 d1 ..
fn draws_agree(words: &[u64]) -> bool {
    let [seed, draws @ ..] = words else {
        return false;
    };
    let mut generator = SplitMix64::new(*seed);
    for draw in draws {
        let drawn = generator.next_u64();
        if drawn.value != *draw {
            return false;
        }
        generator = drawn.next;
    }
    !draws.is_empty()
}

// U seed u0 u1 ..
fn uniform_draws_agree(words: &[u64]) -> bool {
    let [seed, draws @ ..] = words else {
        return false;
    };
    let mut generator = SplitMix64::new(*seed);
    for draw in draws {
        let drawn = generator.signed_uniform();
        if !same_bits(drawn.value, *draw) {
            return false;
        }
        generator = drawn.next;
    }
    !draws.is_empty()
}

fn grid_of(intervals: u64, lo: u64, hi: u64) -> Grid {
    Grid {
        intervals: intervals as usize,
        lo: float_of(lo),
        hi: float_of(hi),
    }
}

// K g lo hi k0 .. k(g+6)
fn knots_agree(words: &[u64]) -> bool {
    let [intervals, lo, hi, knots @ ..] = words else {
        return false;
    };
    let grid = grid_of(*intervals, *lo, *hi);
    if 250_000 < grid.intervals || knots.len() != grid.intervals + 7 {
        return false;
    }
    knots
        .iter()
        .enumerate()
        .all(|(i, knot)| same_bits(spline::knot(grid, i), *knot))
}

// B g lo hi x v0 .. v(g+2) s0 .. s(g+2)
fn basis_agrees(words: &[u64]) -> bool {
    let [intervals, lo, hi, x, basis @ ..] = words else {
        return false;
    };
    let grid = grid_of(*intervals, *lo, *hi);
    if 250_000 < grid.intervals {
        return false;
    }
    let count = grid.intervals + 3;
    if basis.len() != 2 * count {
        return false;
    }
    let x = float_of(*x);
    let (values, slopes) = basis.split_at(count);
    values.iter().zip(slopes).enumerate().all(|(i, (value, slope))| {
        same_bits(spline::basis_value(grid, i, x), *value)
            && same_bits(spline::basis_slope(grid, i, x), *slope)
    })
}
