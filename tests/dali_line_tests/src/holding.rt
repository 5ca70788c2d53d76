//! A gate that holds one worker at a commit until another one is at a commit of its own.

use dali_line::{Gate, Moment};
use std::sync::{Mutex, Wait};

/// How often a gate looks before it gives up.
const LOOKS: u32 = 100_000_000;

/// What a gate has seen.
#[derive(Drop)]
pub struct Seen {
    /// Controller 0 is before its first commit, or was.
    pub first: bool,
    /// Another controller is before a commit, or was.
    pub second: bool,
    /// Neither came within so many looks.
    pub has_failed: bool,
}

/// A gate that holds the first commit of controller 0 until another controller is before a commit of its own.
#[derive(Drop)]
pub struct Holding {
    pub seen: Mutex<Seen>,
}

impl Holding {
    /// Whether controller 0 is before its first commit now.
    fn comes_first<R: Wait>(&self, rt: &R) -> bool {
        let mut seen = self.seen.lock(rt);
        let comes = !seen.first;
        seen.first = true;
        comes
    }

    /// Waits until another controller is before a commit.
    fn await_second<R: Wait>(&self, rt: &R) {
        for _ in 0..LOOKS {
            if self.seen.lock(rt).second {
                return;
            }
        }
        self.seen.lock(rt).has_failed = true;
    }

    /// Waits until controller 0 is before its first commit.
    pub fn await_first<R: Wait>(&self, rt: &R) {
        for _ in 0..LOOKS {
            if self.seen.lock(rt).first {
                return;
            }
        }
        self.seen.lock(rt).has_failed = true;
    }
}

impl Gate for &Holding {
    fn at<R: Wait>(&self, rt: &R, controller: u8, moment: Moment) {
        if moment != Moment::BeforeCommit {
            return;
        }
        if controller != 0 {
            self.seen.lock(rt).second = true;
        } else if self.comes_first(rt) {
            self.await_second(rt);
        }
    }
}
