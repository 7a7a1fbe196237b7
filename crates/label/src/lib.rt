// The record and its calls: opening, feeds, structure changes, readings, sizes. What each call promises is in specs/: Opening, Feeding,
// Widening, Reading; no call asks anything of its caller. WholeFrame has the promise of a whole frame, which crate whole keeps.
//
//     Session::open     a record of a shape, a structure and working memory
//     Session::feed     the next lines of the frame, for each kind of cell
//     Session::widen    a wider structure, under which the session goes on
//     Session::read     each cell's number, for each kind of number
//     Session::sizes    each number's cell count
//
// The record is a value: a call takes it and hands it back, beside what it answers or the cause of a refusal. specs/Cases.antt gives
// document 01's values for each case, and crate causes the number of each cause.
//
// A call is a check and then the work: sound_check, feed_check, widen_check, read_check and sizes_check answer the cause, or the record's
// geometry; what follows works on a record that is known to be sound.
#![tactic(auto)]

ghost use Rattle.std.specs.Prelude.{◌≡◌, Bool, List, map, ℕ, ◌-◌, ◌≤◌, length};
ghost use Rattle.frame.specs.Kinds.{Number, largest};
ghost use Rattle.label.specs.Cases.{open_number, opened, feed_answer, read_answer};
ghost use Rattle.label.specs.Record.{with_structure};
ghost use Rattle.label.specs.Opening.{OpenPromise, open_record};
ghost use Rattle.label.specs.Feeding.{feed_cause_of, FeedPromise};
ghost use Rattle.label.specs.Widening.{widen_cause_of, WidenPromise};
ghost use Rattle.label.specs.Reading.{read_cause_of, sizes_cause_of, ReadPromise, SizesPromise};
ghost use Rattle.label.specs.Steps.{sound_cause_of, RecordFound, FeedExtracted, FeedDone, SomeExtracted};

// Shape and structure, then lines fed and the figures, so far. Entries past the rank are 0 after an opening.
// Arrays with the rank beside them, and not slices: the C interface hands a record back as words (record_c), and there is no heap.
#[derive(Clone, Copy, PartialEq, Eq, Debug)]
pub struct Session {
    pub rank: usize,
    pub shape: [usize; 4],
    pub structure: [u8; 81],
    pub fed: usize,
    pub figures: frame::Figures,
}

// What a feed and a structure change answer: lines fed and the figures, so far.
#[derive(Clone, Copy, PartialEq, Eq, Debug)]
pub struct FedLines {
    pub lines: usize,
    pub figures: frame::Figures,
}

// What a reading, a size call and a whole frame answer: n and the figures.
#[derive(Clone, Copy, PartialEq, Eq, Debug)]
pub struct Counted {
    pub n: usize,
    pub figures: frame::Figures,
}

// What a call on a record gives: its answer, and the record afterwards, which a refusal, a reading and a size call leave as it was.
#[derive(Clone, Copy, PartialEq, Eq, Debug)]
pub struct Answered<A> {
    pub answer: Result<A, causes::Cause>,
    pub session: Session,
}

// Of a feed and of a structure change.
pub type Fed = Answered<FedLines>;

// Of a reading and of a size call.
pub type Read = Answered<Counted>;

// ---- opening

impl Session {
    // Opens a session: on success word 0 is written, and no other.
    pub fn open(
        shape: &[usize],
        structure: &[u8],
        words: &mut [u32],
    ) -> Result<Session, causes::Cause>
        ensures { OpenPromise shape.now structure.now words.old
            (open_number result) (opened result) words.new }
    {
        causes::open_check(shape, structure, words.len())?;
        words[0] = 0;
        Ok(open_record(shape, structure))
    }
}

// The record of an opening that has no cause.
fn open_record(shape: &[usize], structure: &[u8]) -> Session
    requires { (length shape.now ≤ 4) × (length structure.now ≤ 81) }
    ensures { result ≡ open_record shape.now structure.now }
{
    Session {
        rank: shape.len(),
        shape: geo::shape_of(shape),
        structure: geo::structure_of(structure),
        fed: 0,
        figures: frame::Figures::zero(),
    }
}

// ---- soundness

impl Session {
    // 6: whether the record is sound with these words, whatever both hold.
    fn sound_check(self, words: &[u32]) -> Result<geo::Geo, causes::Cause>
        ensures { RecordFound self (sound_cause_of self words.now) result }
    {
        let shaped = geo::shape_sound(
            self.rank,
            self.shape,
            &self.structure,
            words.len(),
            self.fed,
        );
        let g = shaped.ok_or(causes::Cause::Unsound)?;
        if !sound::words_sound(words, g, self.fed, self.figures) {
            return Err(causes::Cause::Unsound);
        }
        Ok(g)
    }
}

// ---- feeding

impl Session {
    // 6, 7, 8.
    fn feed_check(self, words: &[u32], k: usize, cells: usize) -> Result<geo::Geo, causes::Cause>
        ensures { (flags : List Bool) → length flags ≡ cells →
            RecordFound self (feed_cause_of self words.now k flags) result }
    {
        let g = self.sound_check(words)?;
        causes::feed_check(g, self.fed, k, cells)?;
        Ok(g)
    }

    // The next `k` lines of the frame.
    pub fn feed<T: runs::Nz>(self, words: &mut [u32], k: usize, cells: &[T]) -> Fed
        ensures { FeedPromise self words.old k (map T.nonzero cells.now)
            (feed_answer result.answer) result.session words.new }
    {
        match self.feed_check(words, k, cells.len()) {
            Err(cause) => Fed {
                answer: Err(cause),
                session: self,
            },
            Ok(g) => {
                let new = block::extract_block(cells, g, words, self.fed, self.figures.runs, k);
                let session = self.union_lines(words, g, k, new);
                Fed {
                    answer: Ok(session.fed_lines()),
                    session,
                }
            }
        }
    }

    // Unites the extracted lines with their neighbours, and gives the record afterwards. `new` counts their runs and nonzero cells.
    fn union_lines(self, words: &mut [u32], g: geo::Geo, k: usize, new: runs::Counts) -> Session
        requires { SomeExtracted self g k words.old new }
        ensures { (ws : List ℕ) (cells : List Bool) → FeedExtracted self ws k cells g words.old new →
            FeedDone self ws k cells result words.new }
    {
        let joins = block::union_block(words, g, &self.structure, self.fed, k);
        let more = frame::Figures {
            runs: new.runs,
            joins,
            cells: new.cells,
        };
        Session {
            fed: self.fed + k,
            figures: self.figures.plus(more),
            ..self
        }
    }

    // Lines fed and the figures.
    fn fed_lines(self) -> FedLines
        ensures { result ≡ record { lines = self.fed; figures = self.figures } }
    {
        FedLines {
            lines: self.fed,
            figures: self.figures,
        }
    }
}

// ---- structure change

impl Session {
    // 6, 2, 12, 19.
    fn widen_check(self, words: &[u32], structure: &[u8]) -> Result<geo::Geo, causes::Cause>
        ensures { RecordFound self (widen_cause_of self words.now structure.now) result }
    {
        let g = self.sound_check(words)?;
        causes::widen_check(self.rank, &self.structure, structure)?;
        Ok(g)
    }

    // Goes on under a wider structure: the stored lines are united again, from the first, whatever grouping the words held.
    pub fn widen(self, words: &mut [u32], structure: &[u8]) -> Fed
        ensures { WidenPromise self words.old structure.now
            (feed_answer result.answer) result.session words.new }
    {
        match self.widen_check(words, structure) {
            Err(cause) => Fed {
                answer: Err(cause),
                session: self,
            },
            Ok(g) => {
                let joins = block::union_block(words, g, structure, 0, self.fed);
                let session = self.with_structure(structure, joins);
                Fed {
                    answer: Ok(session.fed_lines()),
                    session,
                }
            }
        }
    }

    // The record under another structure, with the joins that its lines then have.
    fn with_structure(self, structure: &[u8], joins: usize) -> Session
        requires { length structure.now ≤ 81 }
        ensures { result ≡ with_structure self structure.now joins }
    {
        let mut figures = self.figures;
        figures.joins = joins;
        Session {
            structure: geo::structure_of(structure),
            figures,
            ..self
        }
    }
}

// ---- reading

impl Session {
    // 6, 9, 10, where `most` is the kind's largest number. n is runs - joins.
    fn read_check(self, words: &[u32], places: usize, most: u64) -> Result<geo::Geo, causes::Cause>
        ensures { (kind : Number) → most ≡ largest kind →
            RecordFound self (read_cause_of kind self words.now places) result }
    {
        let g = self.sound_check(words)?;
        causes::read_check(g, self.figures.runs - self.figures.joins, places, most)?;
        Ok(g)
    }

    // Each cell's number.
    pub fn read<T: write::FromU32>(self, words: &mut [u32], out: &mut [T]) -> Read
        ensures { ReadPromise T.kind self words.old (map T.value out.old)
            (read_answer result.answer) result.session words.new (map T.value out.new) }
    {
        Read {
            answer: self.write_numbers(words, out),
            session: self,
        }
    }

    // What a reading answers. The record stands.
    fn write_numbers<T: write::FromU32>(
        self,
        words: &mut [u32],
        out: &mut [T],
    ) -> Result<Counted, causes::Cause>
        ensures { ReadPromise T.kind self words.old (map T.value out.old)
            (read_answer result) self words.new (map T.value out.new) }
    {
        let g = self.read_check(words, out.len(), T::MAXV)?;
        write::write_block(words, g, self.fed, out);
        Ok(self.counted())
    }

    // n and the figures.
    fn counted(self) -> Counted
        requires { self.figures.joins ≤ self.figures.runs }
        ensures { result ≡ record { n = self.figures.runs - self.figures.joins; figures = self.figures } }
    {
        Counted {
            n: self.figures.runs - self.figures.joins,
            figures: self.figures,
        }
    }
}

// ---- sizes

impl Session {
    // 6, 9.
    fn sizes_check(self, words: &[u32], places: usize) -> Result<geo::Geo, causes::Cause>
        ensures { RecordFound self (sizes_cause_of self words.now places) result }
    {
        let g = self.sound_check(words)?;
        causes::sizes_check(self.figures.runs - self.figures.joins, places)?;
        Ok(g)
    }

    // Each number's cell count.
    pub fn sizes(self, words: &mut [u32], sizes: &mut [u32]) -> Read
        ensures { SizesPromise self words.old sizes.old
            (read_answer result.answer) result.session words.new sizes.new }
    {
        Read {
            answer: self.write_sizes(words, sizes),
            session: self,
        }
    }

    // What a size call answers. The record stands.
    fn write_sizes(self, words: &mut [u32], sizes: &mut [u32]) -> Result<Counted, causes::Cause>
        ensures { SizesPromise self words.old sizes.old (read_answer result) self words.new sizes.new }
    {
        let g = self.sizes_check(words, sizes.len())?;
        write::size_block(words, g.lines, self.figures.runs, sizes);
        Ok(self.counted())
    }
}
