// The refusals of a file: 1 to 6 of document 01's table, each with what its value says.
ghost use Rattle.std.specs.Prelude.{◌≡◌};
ghost use Rattle.numbers.specs.Refusals.{told_of};

// Why a file is refused. Places are counted in bytes, from 0.
#[derive(Clone, Copy, Debug, PartialEq, Eq)]
pub enum Refusal {
    // The bytes end inside a number or before one that is due; the value is how many there are.
    Cut { length: usize },
    // A number is too long or not in its shortest form; the value is its first byte's place.
    Long { at: usize },
    // The version is not 1.
    Version,
    // A number is outside its column's range; the value is its first byte's place.
    Outside { at: usize },
    // A row is not above the one before; the value is the row's first byte's place.
    NotAbove { at: usize },
    // There are bytes after the end; the value is the first one's place.
    After { at: usize },
}

// Document 01's number of an answer, and its value. They are numbers and no enum: C and the printed lines tell them so.
#[derive(Clone, Copy, Debug, PartialEq, Eq)]
pub struct Told {
    pub number: u32,
    pub value: usize,
}

// The number and the value of a refusal.
impl From<Refusal> for Told {
    ghost from_gives = { λ refusal told. told ≡ told_of refusal };

    fn from(refusal: Refusal) -> Told {
        match refusal {
            Refusal::Cut { length } => Told {
                number: 1,
                value: length,
            },
            Refusal::Long { at } => Told {
                number: 2,
                value: at,
            },
            Refusal::Version => Told {
                number: 3,
                value: 0,
            },
            Refusal::Outside { at } => Told {
                number: 4,
                value: at,
            },
            Refusal::NotAbove { at } => Told {
                number: 5,
                value: at,
            },
            Refusal::After { at } => Told {
                number: 6,
                value: at,
            },
        }
    }
}
