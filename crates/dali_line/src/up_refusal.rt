use dali_world::Refusal;
use thiserror::Error;

/// Why a controller of a line does not come up.
#[derive(Clone, Copy, Debug, PartialEq, Eq, Error)]
pub enum UpRefusal {
    /// The site refuses it.
    #[error("{0}")]
    Site(Refusal),
    /// These records are behind the store, or may fall behind it. Either a worker has begun a commit for this
    /// controller, and has not ended it. Or it has made one that it could not tell, and these records are without it.
    /// Read the store once the worker has given it back.
    #[error("a commit for the controller is open")]
    CommitOpen,
}
