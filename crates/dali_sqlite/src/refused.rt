ghost use Rattle.std.specs.Prelude.{◌≡◌};
ghost use Rattle.dali_sqlite.specs.Refused.{refusal_of, HasFailed};

use dali_reserve::KeepError;
use sqlite::{Error, ErrorCode};

/// What a refusal of SQLite is to a store: `NoMemory`, or else `StoreFailed`.
pub fn refusal(error: Error) -> KeepError
    ensures value { result ≡ refusal_of error }
    ensures failed { HasFailed result }
{
    match error {
        Error::SqliteFailure(ErrorCode::OutOfMemory) => KeepError::NoMemory,
        _ => KeepError::StoreFailed,
    }
}
