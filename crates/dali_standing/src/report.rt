use dali_frame::{Answer, Forward};

/// What came of the next frame.
#[derive(Clone, Copy, Debug, PartialEq, Eq)]
pub enum Report {
    /// No request was next.
    Idle,
    /// The controller's frame was sent, and this was heard.
    Sent(u8, Forward, Answer),
    /// The controller's frame was destroyed.
    Destroyed(u8, Forward),
    /// The frames of two controllers collided.
    Collided(u8, Forward, u8, Forward),
}
