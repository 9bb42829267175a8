ghost use Rattle.std.specs.Prelude.{◌≡◌, ◌<◌, ◌++◌, ◌∷◌, [], length, take};
ghost use Rattle.sg_serial.specs.Runs.{nth_mark};
ghost use Rattle.sg_core.specs.Slots.{kept_marks};

use sg_base::Lsn;

/// The most marks of one transaction.
pub const MOST_MARKS: usize = 16;

// The numbers of the records at a transaction's marks, the first one first: the first `count` of these.
#[derive(Clone, Copy)]
pub(crate) struct Marks {
    at: [Lsn; MOST_MARKS],
    count: usize,
}

impl Marks {
    // No mark.
    pub(crate) fn none() -> Marks
        ensures { kept_marks result ≡ [] }
    {
        Marks {
            at: [0; MOST_MARKS],
            count: 0,
        }
    }

    // One more mark, at this record.
    pub(crate) fn with(self, at: Lsn) -> Marks
        requires { length (kept_marks self) < MOST_MARKS }
        ensures { kept_marks result ≡ kept_marks self ++ at ∷ [] }
    {
        let mut marks = self;
        marks.at[marks.count] = at;
        marks.count += 1;
        marks
    }

    // The first so many of them, or all.
    pub(crate) fn first(self, count: usize) -> Marks
        ensures { kept_marks result ≡ take count (kept_marks self) }
    {
        let mut marks = self;
        marks.count = marks.count.min(count);
        marks
    }

    // The mark with this number, of which the first is 1.
    pub(crate) fn nth(&self, number: usize) -> Option<Lsn>
        ensures { result ≡ nth_mark number (kept_marks self.now) }
    {
        if number == 0 || number > self.count {
            return None;
        }
        self.at.get(number - 1).copied()
    }

    // How many there are.
    pub(crate) fn len(&self) -> usize
        ensures { result ≡ length (kept_marks self.now) }
    {
        self.count.min(MOST_MARKS)
    }
}
