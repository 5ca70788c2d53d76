/// What a driver may do.
#[derive(Clone, Copy, Debug, PartialEq, Eq)]
pub enum Ready {
    /// Nothing more: the line is stopped.
    Stopped,
    /// To pump: a request is next.
    Next,
    /// To let the bus lapse: no request more may wait, and the owner of the bus has none among them. So no controller
    /// sends anything, and each controller that acts is refused.
    Full,
    /// Nothing more: each controller has ended, has halted or is down, and no request waits.
    Over,
}
