// A list of calls, and what it should answer.
use crate::counts::Counts;
use crate::plain::{Accepted, Plain, Refusal};
use crate::random::{Call, draw_call};
use arrayvec::ArrayVec;
use flood::layout::word;
use flood::{CELLS, Groups};
use frame::Figures;
use samples::first;
use trial::{NumberKind, OutputKind};

// The most numbers of a list: of 60 calls, and three left over.
const NUMBERS: usize = 243;

// The places for answers.
pub const ANSWERS: usize = 16384;

// The numbers answered are as many as there are places for, and all below 2^32; `answered` counts those past the places too.
#[derive(Drop)]
pub struct List {
    pub calls: ArrayVec<usize, NUMBERS>,
    pub answers: ArrayVec<u32, ANSWERS>,
    pub answered: usize,
}

// The number answered to what is no call.
const NO_CALL: u32 = 101;

// The eight numbers of an answer, of which the last three are 0.
fn numbers(answer: Result<Accepted, Refusal>) -> [u32; 8] {
    let number = match answer {
        Ok(_) => 0,
        Err(Refusal::NoCall) => NO_CALL,
        Err(Refusal::Cause(cause)) => cause.number(),
    };
    let Accepted { count, figures } = answer.unwrap_or(Accepted {
        count: 0,
        figures: Figures::zero(),
    });
    let Figures { runs, joins, cells } = figures;
    [
        number,
        word(count),
        word(runs),
        word(joins),
        word(cells),
        0,
        0,
        0,
    ]
}

// What each place of an output holds before: as much of a number as its kind can.
fn held(into: OutputKind, value: usize) -> u32 {
    match into {
        OutputKind::Numbers(NumberKind::U8) => word(value % 256),
        OutputKind::Numbers(NumberKind::U16) => word(value % 65536),
        OutputKind::Numbers(NumberKind::U32) | OutputKind::Sizes => word(value),
    }
}

// A reading writes numbers, the size call sizes.
fn written(into: OutputKind, groups: &Groups) -> [u32; CELLS] {
    match into {
        OutputKind::Numbers(_) => groups.numbers,
        OutputKind::Sizes => groups.sizes(),
    }
}

impl List {
    pub fn new() -> List {
        List {
            calls: ArrayVec::new(),
            answers: ArrayVec::new(),
            answered: 0,
        }
    }

    // Another number of an answer.
    fn put(&mut self, number: u32) {
        if !self.answers.is_full() {
            self.answers.push(number);
        }
        self.answered = self.answered.wrapping_add(1);
    }

    fn put_all(&mut self, numbers: [u32; 8]) {
        for number in numbers {
            self.put(number);
        }
    }

    // The answer, and for a reading or a size call, unless it is no call, the places of its output.
    fn answer(&mut self, call: Call, answer: Result<Accepted, Refusal>, groups: &Groups) {
        self.put_all(numbers(answer));
        let Call::Read {
            into,
            places,
            value,
            ..
        } = call
        else {
            return;
        };
        let output = match answer {
            Ok(_) => written(into, groups),
            Err(Refusal::Cause(_)) => [held(into, value); CELLS],
            Err(Refusal::NoCall) => return,
        };
        for place in first(&output, places) {
            self.put(*place);
        }
    }

    // Another random call, whose span is of these cells. It is answered even if there is no room for it, so that the answers differ then.
    fn add_call(&mut self, plain: &mut Plain, cells: &[u8], counts: &mut Counts) {
        let groups = plain.groups();
        let call = draw_call(plain, groups.count.n, counts.tally.draw());
        let answer = plain.make(call, cells, &groups);
        counts.count_call(call, plain, answer.err());
        let _ = self.calls.try_extend_from_slice(&call.numbers());
        self.answer(call, answer, &groups);
    }

    // So many random calls.
    pub fn add_calls(
        &mut self,
        count: usize,
        plain: &mut Plain,
        cells: &[u8],
        counts: &mut Counts,
    ) {
        for _ in 0..count {
            self.add_call(plain, cells, counts);
        }
    }

    // Numbers left over at the end of a list are no call.
    pub fn answer_rest(&mut self, rest: usize, counts: &mut Counts) {
        if rest == 0 {
            return;
        }
        counts.count_refusal(Refusal::NoCall);
        self.put_all(numbers(Err(Refusal::NoCall)));
    }

    // Adds zeros to the calls, up to so many numbers.
    pub fn fill(&mut self, count: usize) {
        let zeros = count.saturating_sub(self.calls.len());
        let _ = self
            .calls
            .try_extend_from_slice(first(&[0; NUMBERS], zeros));
    }
}
