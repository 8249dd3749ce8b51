// The training table of document 01, built in: the program Simple of document 004 with three threads; and its table of two threads with a
// true/false mutex.
#![tactic(auto)]

ghost use Rattle.std.specs.Prelude.{◌≡◌};
ghost use Rattle.files.specs.Layout.{numbers_of};
ghost use Rattle.training.specs.Training.{training, mutex};

// 576 numbers, all below 128, so that each is one byte of the file. The step rows of a thread at a shared store have a line.
#[rattlefmt::skip]
const TRAINING: [u8; 576] = [
    // version, threads, shared stores, local stores, frames, failed, initial shared store; initial local stores
    1, 3, 8, 7, 0, 7, 1,  0, 0, 0,
    // step rows
    90,
    0, 0, 0, 2, 1,  0, 0, 1, 0, 2,  0, 0, 2, 1, 3,  0, 0, 3, 0, 6,  0, 0, 4, 0, 5,
    0, 1, 0, 3, 1,  0, 1, 1, 0, 2,  0, 1, 3, 1, 4,  0, 1, 4, 1, 5,
    0, 2, 1, 2, 2,  0, 2, 2, 3, 3,  0, 2, 3, 2, 6,  0, 2, 4, 0, 5,
    0, 3, 1, 2, 2,  0, 3, 3, 3, 4,  0, 3, 4, 1, 5,
    0, 4, 1, 4, 2,  0, 4, 2, 5, 3,  0, 4, 3, 4, 6,  0, 4, 4, 0, 5,
    0, 5, 1, 4, 2,  0, 5, 3, 5, 4,  0, 5, 4, 1, 5,
    0, 6, 1, 6, 2,  0, 6, 2, 7, 3,  0, 6, 3, 6, 6,  0, 6, 4, 0, 5,
    0, 7, 1, 6, 2,  0, 7, 3, 7, 4,  0, 7, 4, 1, 5,
    1, 0, 0, 4, 1,  1, 0, 1, 0, 2,  1, 0, 2, 1, 3,  1, 0, 3, 0, 6,  1, 0, 4, 0, 5,
    1, 1, 0, 5, 1,  1, 1, 1, 0, 2,  1, 1, 3, 1, 4,  1, 1, 4, 1, 5,
    1, 2, 1, 2, 2,  1, 2, 2, 3, 3,  1, 2, 3, 2, 6,  1, 2, 4, 0, 5,
    1, 3, 1, 2, 2,  1, 3, 3, 3, 4,  1, 3, 4, 1, 5,
    1, 4, 1, 4, 2,  1, 4, 2, 5, 3,  1, 4, 3, 4, 6,  1, 4, 4, 0, 5,
    1, 5, 1, 4, 2,  1, 5, 3, 5, 4,  1, 5, 4, 1, 5,
    1, 6, 1, 6, 2,  1, 6, 2, 7, 3,  1, 6, 3, 6, 6,  1, 6, 4, 0, 5,
    1, 7, 1, 6, 2,  1, 7, 3, 7, 4,  1, 7, 4, 1, 5,
    2, 0, 0, 6, 1,  2, 0, 1, 0, 2,  2, 0, 2, 1, 3,  2, 0, 3, 0, 6,  2, 0, 4, 0, 5,
    2, 1, 0, 7, 1,  2, 1, 1, 0, 2,  2, 1, 3, 1, 4,  2, 1, 4, 1, 5,
    2, 2, 1, 2, 2,  2, 2, 2, 3, 3,  2, 2, 3, 2, 6,  2, 2, 4, 0, 5,
    2, 3, 1, 2, 2,  2, 3, 3, 3, 4,  2, 3, 4, 1, 5,
    2, 4, 1, 4, 2,  2, 4, 2, 5, 3,  2, 4, 3, 4, 6,  2, 4, 4, 0, 5,
    2, 5, 1, 4, 2,  2, 5, 3, 5, 4,  2, 5, 4, 1, 5,
    2, 6, 1, 6, 2,  2, 6, 2, 7, 3,  2, 6, 3, 6, 6,  2, 6, 4, 0, 5,
    2, 7, 1, 6, 2,  2, 7, 3, 7, 4,  2, 7, 4, 1, 5,
    // push rows, pop rows
    0, 0,
    // error rows
    28,
    0, 0, 2, 2,  0, 0, 2, 3,  0, 0, 2, 4,
    0, 0, 3, 2,  0, 0, 3, 3,  0, 0, 3, 4,
    0, 0, 4, 2,  0, 0, 4, 3,  0, 0, 4, 4,
    0, 2, 0, 2,  0, 2, 0, 3,  0, 2, 0, 4,
    0, 2, 2, 0,  0, 2, 3, 0,  0, 2, 4, 0,
    0, 3, 0, 2,  0, 3, 0, 3,  0, 3, 0, 4,
    0, 3, 2, 0,  0, 3, 3, 0,  0, 3, 4, 0,
    0, 4, 0, 2,  0, 4, 0, 3,  0, 4, 0, 4,
    0, 4, 2, 0,  0, 4, 3, 0,  0, 4, 4, 0,
    1, 0, 0, 0,
];

// The same with two threads and a true/false mutex: 173 numbers, all below 128. Its step rows stand as above.
#[rattlefmt::skip]
const MUTEX: [u8; 173] = [
    1, 2, 4, 7, 0, 7, 1,  0, 0,
    32,
    0, 0, 0, 2, 1,  0, 0, 1, 0, 2,  0, 0, 2, 1, 3,  0, 0, 3, 0, 6,  0, 0, 4, 0, 5,
    0, 1, 0, 3, 1,  0, 1, 1, 0, 2,  0, 1, 3, 1, 4,  0, 1, 4, 1, 5,
    0, 2, 1, 2, 2,  0, 2, 2, 3, 3,  0, 2, 3, 2, 6,  0, 2, 4, 0, 5,
    0, 3, 1, 2, 2,  0, 3, 3, 3, 4,  0, 3, 4, 1, 5,
    1, 0, 0, 2, 1,  1, 0, 1, 0, 2,  1, 0, 2, 1, 3,  1, 0, 3, 0, 6,  1, 0, 4, 0, 5,
    1, 1, 0, 3, 1,  1, 1, 1, 0, 2,  1, 1, 3, 1, 4,  1, 1, 4, 1, 5,
    1, 2, 1, 2, 2,  1, 2, 2, 3, 3,  1, 2, 3, 2, 6,  1, 2, 4, 0, 5,
    1, 3, 1, 2, 2,  1, 3, 3, 3, 4,  1, 3, 4, 1, 5,
    // push rows, pop rows, error rows
    0, 0, 0,
];

// The file of the training table.
pub fn file() -> [u8; 576]
    ensures { result ≡ numbers_of training }
{
    TRAINING
}

// The file of the table with the true/false mutex.
pub fn mutex_file() -> [u8; 173]
    ensures { result ≡ numbers_of mutex }
{
    MUTEX
}
