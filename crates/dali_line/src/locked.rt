ghost use Rattle.std.specs.Prelude.{◌≡◌, IsTrue, true, false, ◌↔◌, MatchOption};

use crate::counted::{CountedSite, has_due, is_down, is_over, may_offer};
use crate::ready::Ready;
use std::sync::ledger::Ledger;

/// What lies under a line's lock: a site with what is counted of it, and whether the line is stopped.
#[derive(Drop)]
pub(crate) struct Locked<P0: Ledger, P1: Ledger, P2: Ledger, P3: Ledger, D: Ledger> {
    pub(crate) counted: CountedSite<P0, P1, P2, P3, D>,
    stopped: bool,
}

impl<P0: Ledger, P1: Ledger, P2: Ledger, P3: Ledger, D: Ledger> Locked<P0, P1, P2, P3, D> {
    ghost use Rattle.dali_line.specs.Found.{Wakes, WakesForRoom, IsBusy, IsReady};

    /// The site of a line that is not stopped.
    pub(crate) fn new(counted: CountedSite<P0, P1, P2, P3, D>) -> Locked<P0, P1, P2, P3, D>
        ensures counted { result.counted ≡ counted }
        ensures stopped { result.stopped ≡ false }
    {
        Locked {
            counted,
            stopped: false,
        }
    }

    /// Whether a controller has no reason to wait: the line is stopped, something is due for it, or it is down.
    pub(crate) fn wakes(&self, c: u8) -> bool
        ensures { IsTrue result ↔ Wakes self.now.stopped self.now.counted.site c }
    {
        self.stopped || has_due(&self.counted.site, c) || is_down(&self.counted.site, c)
    }

    /// Whether a controller has no reason to wait for room: the line is stopped, or `may_offer` says so.
    pub(crate) fn wakes_for_room(&self, c: u8) -> bool
        ensures { IsTrue result ↔ WakesForRoom self.now.stopped self.now.counted.site c }
    {
        self.stopped || may_offer(&self.counted.site, c)
    }

    /// What a driver may do, if there is anything to say.
    pub(crate) fn may_do(&self) -> Option<Ready>
        ensures { MatchOption result (IsBusy self.now.stopped self.now.counted.site)
            (IsReady self.now.stopped self.now.counted.site) }
    {
        if self.stopped {
            return Some(Ready::Stopped);
        }
        if !self.counted.site.idle() {
            return Some(Ready::Next);
        }
        if self.counted.site.is_crowded() {
            return Some(Ready::Full);
        }
        if is_over(&self.counted.site) {
            return Some(Ready::Over);
        }
        None
    }

    /// Whether a driver has no reason to wait.
    pub(crate) fn wakes_driver(&self) -> bool
        ensures { IsTrue result ↔ (IsBusy self.now.stopped self.now.counted.site → ⊥) }
    {
        self.may_do().is_some()
    }

    /// Whether no thread waits any more.
    pub(crate) fn is_stopped(&self) -> bool
        ensures { result ≡ self.now.stopped }
    {
        self.stopped
    }

    /// No thread waits any more.
    pub(crate) fn stop(&mut self)
        ensures stopped { self.new.stopped ≡ true }
        ensures counted { self.new.counted ≡ self.old.counted }
    {
        self.stopped = true;
    }
}
