//! A virtual machine for Smalltalk images: the program.
//!
//! It ends with the status that the words behind its name lead to, and with 12 where the system can't
//! give them, or with 8 where memory for them is refused; then it prints nothing.
#![tactic(auto)]

ghost use Rattle.std.specs.Prelude.{◌≡◌, ◌≢◌};
ghost use Rattle.std.specs.IoError.{error_kind};

use cs_cli::cogstack;
use cs_shelf::{FileShelf, OutSink};
use std::io::ErrorKind;
use std::process::ExitCode;
use std::{env, io};

/// The words behind the program's name.
fn words(rt: &HostRuntime) -> io::Result<Vec<String>> {
    let words = env::args(rt)?.skip(1).collect(rt.alloc())?;
    Ok(words)
}

/// The status where the words can't be had.
fn status_of(error: &io::Error) -> u8
    ensures memory { error_kind error.now ≡ ErrorKind.OutOfMemory → result ≡ 8 }
    ensures other { error_kind error.now ≢ ErrorKind.OutOfMemory → result ≡ 12 }
{
    match error.kind() {
        ErrorKind::OutOfMemory => 8,
        _ => 12,
    }
}

fn main(rt: HostRuntime) -> ExitCode {
    let status = match words(&rt) {
        Ok(words) => {
            let mut shelf = FileShelf::new(&rt);
            let mut out = OutSink::new(&rt);
            cogstack(rt.alloc(), words.as_slice(), &mut shelf, &mut out)
        }
        Err(error) => status_of(&error),
    };
    ExitCode::from(status)
}
