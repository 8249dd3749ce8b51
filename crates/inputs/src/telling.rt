// What is printed, and what is said on standard error.
ghost use Rattle.inputs.specs.Outputs.{Printed};

use check_call::answer::Reply;
use report::answers::reason_of_reply;
use std::env::FillError;
use std::fmt::InlineText;
use std::io;

// What says bytes on standard error. `Eprint` takes text alone, and the name of a file may be none.
pub trait Say {
    // Where the system does not take them, there is no place left to say so.
    fn say(&self, bytes: &[u8]);
}

impl Say for HostRuntime {
    fn say(&self, bytes: &[u8]) {
        let _ = self.stderr().write_all(bytes);
    }
}

// Room for an error as `Display` writes it: the system's reason, of some 50 bytes at most, and its number, as ` (os error 2)`.
const WHY: usize = 128;

// Ends a line with the system's reason.
fn say_why(rt: &impl Say, why: io::Error) {
    let told = InlineText::<WHY>::of(why);
    let told = told.as_str();
    let (reason, _) = told.split_once(" (os error ").unwrap_or((told, ""));
    rt.say(b": ");
    rt.say(reason.as_bytes());
    rt.say(b"\n");
}

// What failed is said on standard error, and no more is to be said of it.
#[derive(Clone, Copy, Debug)]
pub struct Said;

// Says what cannot be done with a file, by its name and the system's reason.
pub fn cannot(rt: &impl Say, what: &[u8], name: &[u8], why: io::Error) -> Said {
    rt.say(what);
    rt.say(name);
    say_why(rt, why);
    Said
}

// The system's numbers of the errors that an argument is not valid, and that a name is too long.
const NOT_VALID: i32 = 22;

const TOO_LONG: i32 = 36;

// Says what cannot be done with argument i where `Env::arg` gives no name: it is too long for one, or missing.
pub fn cannot_argument(rt: &impl Say, what: &[u8], i: usize, why: FillError) -> Said {
    let number = match why {
        FillError::NotPresent => NOT_VALID,
        FillError::TooLong => TOO_LONG,
    };
    // 20 digits at most
    let name = InlineText::<32>::of(format_args!("argument {i}"));
    let why = io::Error::from_raw_os_error(number);
    cannot(rt, what, name.as_str().as_bytes(), why)
}

// Prints bytes on standard output. Where they are not printed says so. No bytes are always printed.
pub fn print(rt: &(impl Print + Say), bytes: &[u8]) -> Result<(), Said>
    ensures { Printed bytes.now result }
{
    if bytes.is_empty() {
        return Ok(());
    }
    rt.write_all(bytes).map_err(|why| cannot(rt, b"cannot write ", b"standard output", why))
}

// Says a refusal in words, on standard error: what its value counts, and what is wrong. Of an answer that is none, nothing.
pub fn say_refusal(rt: &impl Say, reply: Reply) {
    if let Some(line) = reason_of_reply(reply) {
        rt.say(line.as_bytes());
    }
}
