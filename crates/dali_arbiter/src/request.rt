use dali_frame::{Forward, Priority};
use dali_ring::Sent;

/// One forward frame that waits for the bus.
#[derive(Clone, Copy, Debug, PartialEq, Eq)]
pub struct Request {
    /// The number of the application controller that sends it.
    pub sender: u8,
    /// The list that it waits in.
    pub priority: Priority,
    /// What is sent.
    pub frame: Forward,
}

impl Sent for Request {
    ghost from = { λ r. r.sender };

    fn sender(&self) -> u8 {
        self.sender
    }
}
