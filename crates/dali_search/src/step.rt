use dali_frame::Random24;

/// What an answer leads to.
#[derive(Clone, Copy, Debug, PartialEq, Eq)]
pub enum Step {
    /// The search goes on with another probe.
    Again,
    /// The search has ended: this is the least member.
    Found(Random24),
    /// The search has ended: there is no member.
    Nobody,
}
