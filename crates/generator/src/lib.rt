// Inner crate: SplitMix64, handed back by value, and the root of a whole number. Every public function answers all arguments.
#![tactic(auto)]

ghost use Rattle.std.specs.Prelude.{◌≡◌, ◌*◌, ◌%◌, ◌^◌, ◌<◌, false};
ghost use Rattle.std.specs.Float.{binary32};
ghost use Rattle.std.specs.Float.Ieee.{round};
ghost use Rattle.generator.specs.Generator.{seeded_of, draw_of, uniform_of};
ghost use Rattle.generator.specs.Root.{whole_root, root_of};

#[derive(Clone, Copy)]
pub struct SplitMix64 {
    pub state: u64,
}

// 64 bits, and the generator after them.
#[derive(Clone, Copy)]
pub struct Draw {
    pub value: u64,
    pub next: SplitMix64,
}

// A number from -1 to 1, and the generator after it.
#[derive(Clone, Copy)]
pub struct Uniform {
    pub value: f32,
    pub next: SplitMix64,
}

// Products of 32-bit halves fit a u64. That of the two high halves is a multiple of 2^64, and of the cross products' sum only the low
// half stays below 2^64 once it is moved up. It is built here and not std's `wrapping_mul`: a form of this repository's
// (docs/DECISIONS.md, "Forms").
#[tactic(auto, using(crate::proofs::Halves::halves_fit, crate::proofs::Halves::product))]
pub fn wrapping_mul(a: u64, b: u64) -> u64
    ensures { result ≡ (a * b) % 2 ^ 64 }
{
    let a_high = a >> 32;
    let a_low = a % 4_294_967_296;
    let b_high = b >> 32;
    let b_low = b % 4_294_967_296;
    let cross = (a_high * b_low).wrapping_add(a_low * b_high) % 4_294_967_296;
    (a_low * b_low).wrapping_add(cross * 4_294_967_296)
}

impl SplitMix64 {
    #[tactic(auto, unfolding(crate::specs::Generator::seeded_of))]
    pub fn new(seed: u64) -> SplitMix64
        ensures { result ≡ seeded_of seed }
    {
        SplitMix64 { state: seed }
    }

    #[tactic(auto, unfolding(crate::specs::Generator::draw_of))]
    pub fn next_u64(self) -> Draw
        ensures { result ≡ draw_of self }
    {
        let state = self.state.wrapping_add(0x9e37_79b9_7f4a_7c15);
        let once = wrapping_mul(state ^ (state >> 30), 0xbf58_476d_1ce4_e5b9);
        let twice = wrapping_mul(once ^ (once >> 27), 0x94d0_49bb_1331_11eb);
        Draw {
            value: twice ^ (twice >> 31),
            next: SplitMix64 { state },
        }
    }

    // 24 bits are exact in an f32, so that only the quotient and the two operations after it round.
    #[tactic(auto, unfolding(crate::specs::Generator::uniform_of))]
    pub fn signed_uniform(self) -> Uniform
        ensures { result ≡ uniform_of self }
    {
        let drawn = self.next_u64();
        let next = drawn.next;
        let unit = ((drawn.value >> 40) as f32) / 16_777_215.0;
        Uniform {
            value: 2.0 * unit - 1.0,
            next,
        }
    }
}

#[tactic(auto, using(crate::proofs::Squares::whole_root_only))]
fn whole_root(n: u64) -> u64
    ensures { result ≡ whole_root n }
{
    n.isqrt()
}

// v / 2^25, rounded once: v has more digits than an f32, so two exact quotients meet in one rounded sum.
fn fraction(v: u64) -> f32
    requires { v < 2 ^ 34 }
    ensures { result ≡ round binary32 false v (2 ^ 25) }
{
    let high = v >> 16;
    let low = v % 65_536;
    (high as f32) / 512.0 + (low as f32) / 33_554_432.0
}

// With n times 2^48 the whole root has 24 more binary digits; the half added to it keeps it off every midpoint.
#[tactic(auto, using(crate::proofs::Squares::whole_root_below, crate::proofs::Range::root_within, crate::proofs::Range::root_elsewhere))]
pub fn root(n: usize) -> f32
    ensures { result ≡ root_of n }
{
    if n < 1 {
        return 0.0;
    }
    if 41_666 < n {
        return 0.0;
    }
    let whole = whole_root((n as u64) * 281_474_976_710_656);
    fraction(2 * whole + 1)
}
