// Where the four numbers of a triangle stand. Near the ends of the knots some of them belong to no basis function: the
// others move up or down to indices that the grid has, and zeros take their places.
ghost use Rattle.std.specs.Prelude.{◌≡◌, ◌+◌, ◌-◌, ◌≤◌};
ghost use Rattle.local_basis.specs.Fours.{down_by, up_by, placed_of};

use crate::Four;

#[tactic(auto, unfolding(crate::specs::Fours::down_by))]
fn down_one(four: Four) -> Four
    ensures { result ≡ down_by 1 four }
{
    Four {
        start: four.start,
        first: four.second,
        second: four.third,
        third: four.fourth,
        fourth: 0.0,
    }
}

#[tactic(auto, unfolding(crate::specs::Fours::up_by))]
fn up_one(four: Four) -> Four
    requires { 1 ≤ four.start }
    ensures { result ≡ up_by 1 four }
{
    Four {
        start: four.start - 1,
        first: 0.0,
        second: four.first,
        third: four.second,
        fourth: four.third,
    }
}

// By 1, 2 or 3 places. Test by test: of a loop the compiler makes a jump by a table, and `scripts/stack.sh` could then not
// tell where a call goes.
#[tactic(auto, using(crate::proofs::Moved::down_more), unfolding(crate::specs::Fours::down_by))]
fn down(four: Four, n: usize) -> Four
    requires { (1 ≤ n) × (n ≤ 3) }
    ensures { result ≡ down_by n four }
{
    let one = down_one(four);
    if n == 1 {
        return one;
    }
    let two = down_one(one);
    if n == 2 {
        return two;
    }
    down_one(two)
}

#[tactic(auto, using(crate::proofs::Moved::up_more, crate::proofs::Moved::up_start), unfolding(crate::specs::Fours::up_by))]
fn up(four: Four, n: usize) -> Four
    requires { (1 ≤ n) × (n ≤ 3) × (n ≤ four.start) }
    ensures { result ≡ up_by n four }
{
    let one = up_one(four);
    if n == 1 {
        return one;
    }
    let two = up_one(one);
    if n == 2 {
        return two;
    }
    up_one(two)
}

// The four for an x from knot `at` up to the next.
#[tactic(auto, using(crate::proofs::Moved::down_none, crate::proofs::Moved::up_none))]
pub fn placed(intervals: usize, at: usize, four: Four) -> Four
    requires { (intervals ≤ 250000) × (1 ≤ intervals) × (at ≤ intervals + 5) × (four.start ≡ at - 3) }
    ensures { result ≡ placed_of intervals at four }
{
    let last = intervals + 2;
    if at < 3 {
        down(four, 3 - at)
    } else if last < at {
        up(four, at - last)
    } else {
        four
    }
}
