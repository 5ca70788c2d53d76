//! The exit status of a program, and what is said of it.

ghost use Rattle.std.specs.Prelude.{◌≡◌, ℕ};
ghost use Rattle.std.specs.Process.{exit_status};
ghost use Rattle.dali_console.specs.Status.{status_after};

use std::fmt;
use std::io::Eprint;
use std::process::ExitCode;

/// Why a program ends without having done what was asked for.
///
/// Contracts see its exit status as the ghost member `status_of`.
pub trait Failed {
    ghost status_of: { Self → ℕ };

    /// The exit status of a program that ends so.
    fn status(&self) -> u8
        ensures { result ≡ status_of self.now };
}

/// The exit status of a program that has done what was asked for, 0, or that ends without.
pub fn exit_code<F: Failed + Drop>(ended: Result<(), F>) -> ExitCode
    ensures { exit_status result ≡ status_after F.status_of ended }
{
    match ended {
        Ok(()) => ExitCode::SUCCESS,
        Err(failure) => ExitCode::from(failure.status()),
    }
}

/// The same, and it is said on standard error why the program ends without, behind this text. What is said changes
/// nothing, also if it cannot be said.
pub fn say_and_exit<S: Eprint, F: Failed + fmt::Display + Drop>(
    system: &S,
    before: &str,
    ended: Result<(), F>,
) -> ExitCode
    ensures { exit_status result ≡ status_after F.status_of ended }
{
    if let Err(why) = &ended {
        let _ = eprintln!(system; "{before}{why}");
    }
    exit_code(ended)
}
