ghost use Rattle.std.specs.Prelude.{◌≡◌, ℕ, ◌+◌, ◌<◌, ◌≤◌, Bool, false, [], ◌∷◌, ◌++◌, length, IfSome, Some};
ghost use Rattle.dali_search.specs.declared.step.Step.{Step};
ghost use Rattle.dali_search.specs.declared.step.Step.TheVariants.{Again, Nobody};
ghost use Rattle.dali_search.specs.Least.{Search, at_first, step_after, probe_after, lowest, IsBelow, Agrees, Says};
ghost use Rattle.dali_search.specs.Least.{NumberOf};
ghost use Rattle.dali_search.specs.Narrowing.{IsSearch};

use crate::left::Left;
use crate::step::Step;
use dali_frame::Random24;
use std::marker::Model;

/// The answers that a search takes at most.
const MOST: u8 = 25;

/// A search for the least member of a set of numbers below `FFFFFF`, as the random addresses of the gear that answer
/// COMPARE (IEC 62386-102:2014, COMPARE).
///
/// It asks whether some member is at most a number, the probe, at most 25 times. The first probe is `FFFFFE`. Contracts
/// see the probes with their answers so far, the probe that is next, and what the last answer led to.
#[derive(Drop)]
pub struct Search {
    /// How many answers there were.
    answers: u8,
    /// The numbers that they leave.
    left: Left,
    /// The number that is asked next; after an end the last one that was asked.
    probe: Random24,
    /// What the last answer led to.
    step: Step,
}

impl Model for Search {
    ghost use Rattle.std.specs.Prelude.{◌≡◌};
    ghost use Rattle.dali_search.specs.Least.{Search};
    ghost use Rattle.dali_search.specs.Narrowing.{Narrows, answers_of, left_of};

    ghost Value = { Search };

    ghost view = { λ s. record { answers = answers_of s.answers s.left.low; probe = s.probe; step = s.step } };

    ghost invariant = { λ s. Narrows s.left.low s.left.high
        (record { answers = answers_of s.answers s.left.low; probe = s.probe; step = s.step })
        × (left_of s.answers s.left.low ≡ (s.left.low, s.left.high)) };
}

impl Search {
    /// A search that has asked nothing.
    pub fn new() -> Search
        ensures { result ≡ at_first }
    {
        Search {
            answers: 0,
            left: Left::ALL,
            probe: Left::ALL.probe(),
            step: Step::Again,
        }
    }

    /// The same search once more.
    pub fn copy(&self) -> Search
        ensures { result ≡ self.now }
    {
        Search {
            answers: self.answers,
            left: self.left,
            probe: self.probe,
            step: self.step,
        }
    }

    /// The number that is asked next; after an end the last one that was asked.
    pub fn probe(&self) -> Random24
        ensures value { result ≡ self.now.probe }
        ensures step { self.now.step ≡ step_after self.now.answers }
        ensures half { self.now.step ≡ Again → result ≡ probe_after self.now.answers }
        ensures count { length self.now.answers ≤ 25 }
    {
        self.probe
    }

    /// What the last answer led to: `Again` before the first.
    pub fn step(&self) -> Step
        ensures { result ≡ self.now.step }
    {
        self.step
    }

    /// How many answers there were, 0 to 25.
    pub fn answers(&self) -> u8
        ensures value { result ≡ length self.now.answers }
        ensures search { IsSearch self.now }
    {
        self.answers
    }

    /// The least number that the answers leave; `FFFFFF` if they leave none.
    pub fn least(&self) -> Random24
        ensures value { result ≡ lowest self.now.answers }
    {
        Random24::of(self.left.low).unwrap()
    }

    /// The search that has had so many answers, which leave this as the least number, and has this probe. So a search
    /// is laid down as three numbers, and made again. None if no search has these.
    pub fn of(answers: u8, least: Random24, probe: Random24) -> Option<Search>
        ensures numbers { IfSome result (λ s. (length s.answers ≡ answers) × (lowest s.answers ≡ least)
            × (s.probe ≡ probe)) }
        ensures same { (s : Search) → IsSearch s → length s.answers ≡ answers → lowest s.answers ≡ least
            → s.probe ≡ probe → result ≡ Some s }
    {
        if answers > MOST || probe >= Random24::MASK {
            return None;
        }
        let left = Left::led_to(answers, least);
        if left.low != least.value() {
            return None;
        }
        if !left.may_ask(probe) {
            return None;
        }
        Some(Search {
            answers,
            left,
            probe,
            step: left.step(),
        })
    }

    /// Takes the answer to the question whether some member is at most the probe.
    ///
    /// After an end it gives the same end again, whatever is answered.
    pub fn answer(&mut self, yes: bool) -> Step
        // What changes.
        ensures asked { self.old.step ≡ Again → self.new.answers ≡ self.old.answers ++ (self.old.probe, yes) ∷ [] }
        ensures step { self.old.step ≡ Again → result ≡ step_after self.new.answers }
        ensures next { result ≡ Again → self.new.probe ≡ probe_after self.new.answers }
        ensures last { (result ≡ Again → ⊥) → self.new.probe ≡ self.old.probe }
        ensures kept { self.new.step ≡ result }
        ensures over { (self.old.step ≡ Again → ⊥) → self.new ≡ self.old }

        // What an end says of every set that agrees with the answers.
        ensures least { (has : ℕ → Bool) → IsBelow has 0xFFFFFF → Agrees has self.new.answers → Says has result }
        ensures below { NumberOf result (λ r. r < 0xFFFFFF) }
        ensures nobody { self.old.step ≡ Again → result ≡ Nobody → (yes ≡ false) × (self.old.probe ≡ 0xFFFFFE) }

        // It ends.
        ensures count { length self.new.answers ≤ 25 }
        ensures ends { result ≡ Again → length self.new.answers < 25 }
    {
        let Step::Again = self.step else {
            return self.step;
        };
        let asked = self.probe;
        self.answers += 1;
        self.left = self.left.narrowed(asked, yes);
        self.step = self.left.step();
        self.probe = self.left.probe_after(asked);
        self.step
    }
}
