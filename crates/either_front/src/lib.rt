// Inner crate: the part of two lent work slices that is handed back.
#![tactic(auto)]

ghost use Rattle.std.specs.Prelude.{◌≡◌, cond, ◌≤◌, length, take};
ghost use Rattle.std.specs.Borrow.{fsep, sem};
ghost use denote.Slice.{finally};
ghost use denote.Builtin as builtin;

// The first n numbers of `a`, or of `b`, where they lie.
fn choose<'a>(first: bool, n: usize, a: &'a [f32], b: &'a [f32]) -> &'a [f32]
    requires { (n ≤ length a.now) × (n ≤ length b.now) }
    ensures { (result.now ≡ take n (cond first a.now b.now))
        × (result.ref_ptr ≡ cond first a.entry.ref_ptr b.entry.ref_ptr) }
{
    if first {
        return &a[..n];
    }
    &b[..n]
}

// The same of two work slices, which the part spends. Neither is written: `finally` says that each ends as it came.
pub fn pick<'a>(first: bool, n: usize, a: &'a mut [f32], b: &'a mut [f32]) -> &'a [f32]
    requires { (n ≤ length a.old) × (n ≤ length b.old) }
    ensures* { sem 𝓛 (fsep (finally builtin.f32 a.entry.ghost_name a.old)
        (finally builtin.f32 b.entry.ghost_name b.old))
        ∗ ⌜ (result.now ≡ take n (cond first a.old b.old))
        × (result.ref_ptr ≡ cond first a.entry.ref_ptr b.entry.ref_ptr) ⌝ }
{
    choose(first, n, &a[..], &b[..])
}
