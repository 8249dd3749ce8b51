// Names of files.
ghost use Rattle.std.specs.Prelude.{◌≡◌, ◌↔◌, IfErr, IfOk, IsOk, IsUtf8};
ghost use Rattle.std.specs.IoError.{raw_os_error};
ghost use Rattle.inputs.specs.Names.{SameName};

use std::io;

// Whether two names are the same, byte by byte.
// It stands for its contract, which docs/AUDIT.md names.
pub fn same_name(a: &[u8], b: &[u8]) -> bool
    ensures { SameName a.now b.now result }
{
    a == b
}

// The system's number of the error that bytes are no text.
const NO_TEXT: i32 = 84;

// A name as std takes it to open a file: as text. Bytes that are none are refused as the system refuses them where it asks for text.
pub fn path_of(name: &[u8]) -> io::Result<&str>
    ensures text { IsOk result ↔ IsUtf8 name.now }
    ensures same { IfOk result (λ path. path.now ≡ name.now) }
    ensures refused { IfErr result (λ why. raw_os_error why ≡ Some NO_TEXT) }
{
    str::from_utf8(name).map_err(|_| io::Error::from_raw_os_error(NO_TEXT))
}
