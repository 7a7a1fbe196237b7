// Sessions at run time, against a plain labelling by flood fill: random calls, sizes after each line, structure changes, records of other
// origin, damaged records and memories, and fixed cases of the causes.
#![tactic(auto)]

mod counts;
mod damage;
mod fixed;
mod origin;
mod sessions;
mod tested;

use counts::Counts;
use flood::Frame;

// One random frame. Half of the sessions of random calls begin under a structure of few bytes, so that changes of it make fewer groups.
fn try_frame(counts: &mut Counts) {
    let drawn = counts.tally.draw_frame();
    let thin = drawn.structure.thinned(counts.tally.draw());
    let shape = drawn.shape.used();
    let frame = Frame::new(shape, drawn.structure.used(), &drawn.flags);
    sessions::try_calls(Frame::new(shape, thin.used(), &drawn.flags), counts);
    sessions::try_lines(frame, counts);
    origin::try_origin(frame, counts);
    damage::try_damaged(frame, counts);
}

fn main(rt: HostRuntime) {
    let mut counts = Counts::new();
    fixed::try_all(&mut counts);
    for _ in 0..4000 {
        try_frame(&mut counts);
    }
    counts.report(&rt);
}
