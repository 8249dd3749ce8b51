// The columns of the rows of a list: how many numbers a row has, and the range of each.
ghost use Rattle.std.specs.Prelude.{◌≡◌, []};
ghost use Rattle.cells.specs.Columns.{range_of, ByteRange, of_thread, per_thread, step_columns, push_columns, pop_columns, error_columns};
ghost use Rattle.cells.specs.Stages.{below};

// A column of a row. One that is not there takes no bytes.
// `Absent` is a variant and no None of an Option of a column: `OutOf` and `cell_at` of specs/ have a case for it.
#[derive(Clone, Copy, Debug, PartialEq, Eq)]
pub enum Column {
    Within { low: u8, most: u8 },
    Below { end: u8 },
    Absent,
}

// How many threads, shared stores, local stores and frames there are.
#[derive(Clone, Copy, Debug, PartialEq, Eq)]
pub struct Sizes {
    pub threads: u8,
    pub shared: u8,
    pub locals: u8,
    pub frames: u8,
}

impl Column {
    // The column of thread t, where there are n threads.
    pub fn of_thread(self, n: u8, t: u8) -> Column
        ensures { result ≡ of_thread n t self }
    {
        if t < n { self } else { Column::Absent }
    }

    // One column for each thread, where there are n threads.
    pub fn per_thread(self, n: u8) -> [Column; 4]
        ensures { result ≡ per_thread n self [] }
    {
        [0, 1, 2, 3].map(|t| self.of_thread(n, t))
    }

    // The range of a column's numbers, the first and the one past the last; none where the column is not there.
    pub fn range(self) -> Option<(u32, u32)>
        ensures value { result ≡ range_of self }
        ensures byte { ByteRange result }
    {
        match self {
            Column::Within { low, most } => Some((u32::from(low), u32::from(most) + 1)),
            Column::Below { end } => Some((0, u32::from(end))),
            Column::Absent => None,
        }
    }
}

impl Sizes {
    // The columns of a thread, a shared store, a local store and a frame, each below how many there are.
    fn below(self) -> [Column; 4]
        ensures { result ≡ below self }
    {
        [self.threads, self.shared, self.locals, self.frames].map(|end| Column::Below { end })
    }

    // A step row: t, g, l, g', l'.
    pub fn step_columns(self) -> [Column; 5]
        ensures { result ≡ step_columns self }
    {
        let [thread, shared, local, _] = self.below();
        [thread, shared, local, shared, local]
    }

    // A push row: t, g, l, l', f.
    pub fn push_columns(self) -> [Column; 5]
        ensures { result ≡ push_columns self }
    {
        let [thread, shared, local, frame] = self.below();
        [thread, shared, local, local, frame]
    }

    // A pop row: t, g, l, f, l'.
    pub fn pop_columns(self) -> [Column; 5]
        ensures { result ≡ pop_columns self }
    {
        let [thread, shared, local, frame] = self.below();
        [thread, shared, local, frame, local]
    }

    // An error row: a shared cell, and one for each thread.
    pub fn error_columns(self) -> [Column; 5]
        ensures { result ≡ error_columns self }
    {
        let shared = Column::Within {
            low: 0,
            most: self.shared,
        };
        let local = Column::Within {
            low: 0,
            most: self.locals,
        };
        let [first, second, third, fourth] = local.per_thread(self.threads);
        [shared, first, second, third, fourth]
    }
}
