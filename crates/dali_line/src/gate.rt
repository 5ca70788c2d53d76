use std::sync::Wait;

/// Where a worker or a pumper stands in its turn.
#[derive(Clone, Copy, Debug, PartialEq, Eq)]
pub enum Moment {
    /// Before a worker asks its store to commit.
    BeforeCommit,
    /// After its store answered, and before the controller is told.
    AfterCommit,
    /// At the end of a turn.
    AfterTurn,
}

/// What a worker or a pumper asks at some moments of its turns, without the line's lock: it may wait there, or look.
///
/// The controller's number is 255 if a pumper asks.
pub trait Gate: Drop {
    /// The worker of this controller, or the pumper, is at this moment. It goes on when the call returns.
    fn at<R: Wait>(&self, rt: &R, controller: u8, moment: Moment);
}

/// A gate that is always open.
#[derive(Clone, Copy, Debug, PartialEq, Eq)]
pub struct OpenGate;

impl Gate for OpenGate {
    fn at<R: Wait>(&self, _rt: &R, _controller: u8, _moment: Moment) {}
}
