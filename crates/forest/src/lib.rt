// Parents and sizes in lent words: find and union over a slice of run words, and the struct `Uf` that holds the slice. A slice begins with
// the first run's words. No parent is ever above its run, so the root of a group is its first run. A root's size is its group's cell
// count. Only parents and sizes are written.
//
//     reset    makes runs groups of their own
//     find     the root of a run; every root stands
//     union    makes one group of two runs' groups, with the sum of their sizes; true where they were two
//     Uf       find and union over a held slice
//     unite    union through a `Uf`, for callers that have the slice
#![tactic(auto)]

ghost use Rattle.std.specs.Prelude.{◌≡◌, suc, max};
ghost use denote.Ref.{at_last};
ghost use Rattle.forest.specs.Unions.{Parents, Sized, Finds, Unites, ToJoin, joined, ToReset, Reset};

// Makes each run from `a` to before `b` a group of its own: its own parent, with its length as its size. In union and unite `a` and `b` are
// two runs and no bounds, so that no struct is for both.
pub fn reset(p: &mut [u32], a: usize, b: usize)
    requires { ToReset p.old a b }
    ensures { Reset p.old p.new a b }
{
    for r in a..b {
        let s = p[frame::STRIDE * r];
        let e = p[frame::STRIDE * r + frame::END];
        p[frame::STRIDE * r + frame::PARENT] = r as u32;
        p[frame::STRIDE * r + frame::SIZE] = e - s;
    }
}

// The root of run `x`. Each second run on the way gets its parent's parent for a parent, so that the next way is shorter. A root and a
// run right below one take the same branch.
pub fn find(p: &mut [u32], x: usize) -> usize
    requires { Parents p.old (suc x) }
    ensures { Finds p.old p.new x result }
{
    let mut at = x;
    loop {
        let up = p[frame::STRIDE * at + frame::PARENT] as usize;
        let over = p[frame::STRIDE * up + frame::PARENT] as usize;
        if over == up {
            return up;
        }
        p[frame::STRIDE * at + frame::PARENT] = over as u32;
        at = over;
    }
}

// Makes one group of the groups of runs `a` and `b`; true where they were two. The smaller root stays a root, and gets both sizes. A root
// above `b` is in another group, as a run that no union has reached yet is; and most other unions are of runs that share a parent already.
pub fn union(p: &mut [u32], a: usize, b: usize) -> bool
    requires { Sized p.old (suc (max a b)) }
    ensures { Unites p.old p.new a b result }
{
    if (p[frame::STRIDE * a + frame::PARENT] as usize == a) & (b < a) {
        let root = find(p, b);
        join(p, root, a);
        return true;
    }
    if p[frame::STRIDE * a + frame::PARENT] == p[frame::STRIDE * b + frame::PARENT] {
        return false;
    }
    let ra = find(p, a);
    let rb = find(p, b);
    if ra == rb {
        return false;
    }
    join(p, ra.min(rb), ra.max(rb));
    true
}

// Makes the root `lo` the parent of the root `hi`, which is above it, and gives it both sizes.
fn join(p: &mut [u32], lo: usize, hi: usize)
    requires { ToJoin p.old lo hi }
    ensures { p.new ≡ joined p.old lo hi }
{
    let own = p[frame::STRIDE * lo + frame::SIZE];
    let more = p[frame::STRIDE * hi + frame::SIZE];
    p[frame::STRIDE * hi + frame::PARENT] = lo as u32;
    p[frame::STRIDE * lo + frame::SIZE] = own + more;
}

// The run words, held.
#[derive(Drop)]
pub struct Uf<'a> {
    pub p: &'a mut [u32],
}

// Both contracts say besides that the struct still holds the same slice.
impl<'a> Uf<'a> {
    pub fn find(&mut self, x: usize) -> usize
        requires { Parents self.old.p.now (suc x) }
        ensures { Finds self.old.p.now self.new.p.now x result
            × (self.new.p ≡ at_last self.old.p self.new.p.now) }
    {
        find(&mut *self.p, x)
    }

    pub fn union(&mut self, a: usize, b: usize) -> bool
        requires { Sized self.old.p.now (suc (max a b)) }
        ensures { Unites self.old.p.now self.new.p.now a b result
            × (self.new.p ≡ at_last self.old.p self.new.p.now) }
    {
        union(&mut *self.p, a, b)
    }
}

// Makes a `Uf`, unites runs `a` and `b` through it, and hands the slice back.
pub fn unite(p: &mut [u32], a: usize, b: usize) -> bool
    requires { Sized p.old (suc (max a b)) }
    ensures { Unites p.old p.new a b result }
{
    let mut u = Uf { p };
    u.union(a, b)
}
