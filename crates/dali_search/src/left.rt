ghost use Rattle.std.specs.Prelude.{◌≡◌, ◌+◌, ◌^◌, ◌<◌, ◌==◌, true, nat_lt, if◌then◌else◌};
ghost use Rattle.dali_search.specs.Least.{step_between, probe_between};
ghost use Rattle.dali_search.specs.Narrowing.{left_of};

use crate::step::Step;
use dali_frame::Random24;

/// The numbers that answers leave, from `low` to `high`. Here `FFFFFF`, which no gear draws, stands for no member.
#[derive(Clone, Copy)]
pub(crate) struct Left {
    pub low: u32,
    pub high: u32,
}

impl Left {
    /// The number that stands for no member.
    const NONE: u32 = 0xFFFFFF;

    /// The numbers that are left before the first answer.
    pub(crate) const ALL: Left = Left {
        low: 0,
        high: Left::NONE,
    };

    /// The numbers that a further answer leaves.
    pub(crate) fn narrowed(self, asked: Random24, yes: bool) -> Left
        ensures low { result.low ≡ (if yes then self.low else asked + 1) }
        ensures high { result.high ≡ (if yes then asked else self.high) }
    {
        let asked = asked.value();
        if yes {
            Left {
                low: self.low,
                high: asked,
            }
        } else {
            Left {
                low: asked + 1,
                high: self.high,
            }
        }
    }

    /// The numbers that so many answers of a set leave, by its least member.
    pub(crate) fn led_to(answers: u8, least: Random24) -> Left
        ensures low { result.low ≡ (left_of answers least).0 }
        ensures high { result.high ≡ (left_of answers least).1 }
        ensures below { result.low < 2 ^ 24 }
        ensures above { result.high < 2 ^ 24 }
    {
        let least = least.value();
        let mut left = Left::ALL;
        for _ in 0..answers {
            let asked = left.probe();
            left = left.narrowed(asked, least <= asked.value());
        }
        left
    }

    /// What the answers lead to.
    pub(crate) fn step(self) -> Step
        requires { self.low < 2 ^ 24 }
        ensures { result ≡ step_between self.low self.high }
    {
        if self.low < self.high {
            return Step::Again;
        }
        match Random24::of(self.low) {
            Some(found) if self.low != Left::NONE => Step::Found(found),
            _ => Step::Nobody,
        }
    }

    /// The number to ask next: the middle of those that are left, but `FFFFFE` while `FFFFFF` is one of them.
    pub(crate) fn probe(self) -> Random24
        requires low { self.low < 2 ^ 24 }
        requires high { self.high < 2 ^ 24 }
        ensures { result ≡ probe_between self.low self.high }
    {
        let middle = if self.high == Left::NONE {
            Left::NONE - 1
        } else {
            (self.low + self.high) / 2
        };
        Random24::of(middle).unwrap()
    }

    /// Whether a number may be the probe: it is the number to ask next, or there is nothing more to ask.
    pub(crate) fn may_ask(self, probe: Random24) -> bool
        requires low { self.low < 2 ^ 24 }
        requires high { self.high < 2 ^ 24 }
        ensures { result ≡ (if nat_lt self.low self.high then probe == probe_between self.low self.high else true) }
    {
        if self.low < self.high {
            probe == self.probe()
        } else {
            true
        }
    }

    /// The number to ask next, or the last that was asked if there is nothing more to ask.
    pub(crate) fn probe_after(self, asked: Random24) -> Random24
        requires low { self.low < 2 ^ 24 }
        requires high { self.high < 2 ^ 24 }
        ensures { result ≡ (if nat_lt self.low self.high then probe_between self.low self.high else asked) }
    {
        if self.low < self.high {
            self.probe()
        } else {
            asked
        }
    }
}
