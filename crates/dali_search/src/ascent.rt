ghost use Rattle.std.specs.Prelude.{◌≡◌, ℕ, ◌<◌, ◌≤◌, ◌^◌, Bool, true, false, MatchOption};
ghost use Rattle.dali_search.specs.declared.step.Step.TheVariants.{Again, Found, Nobody};
ghost use Rattle.dali_search.specs.Least.{IsBelow, Gives, Says, NumberOf};
ghost use Rattle.dali_search.specs.Ascending.{with_ones, apart, end_of_block, scale, from_known, asked_next};
ghost use Rattle.dali_search.specs.Ascending.{leads_to, told_yes, told_no, steps_after, silent_after, ascended};
ghost use Rattle.dali_search.specs.Ascending.{IsAscent, Knows, answers_left};
ghost use Rattle.dali_search.specs.Ascending.{ascent_at_first, ascent_of, above, begun_anew, gone_on};

use crate::step::Step;
use dali_frame::Random24;
use std::marker::Model;

/// The number that stands for nothing known; no gear draws it.
const NONE: u32 = 0xFFFFFF;

/// How many steps up there are: of the mean distance of what was found, and of twice, four and eight times that.
const STEPS: u8 = 4;

/// How often no gear must have answered under the greatest number that gear draw.
const SILENCES: u8 = 2;

/// A search for one member of a set of numbers below `FFFFFF` after the other, as the random addresses of the gear that
/// answer COMPARE (IEC 62386-102:2014, COMPARE), each of which is taken out of the set when it was found.
///
/// It goes up from the number that was found last, so it asks under `FFFFFE` only if no gear is left nearby, and says
/// that no gear is left only after two silences there. Each of its searches takes at most 31 answers. Two numbers that
/// it asks one after the other mostly differ in one byte.
#[derive(Drop)]
pub struct Ascent {
    /// No member is below this number.
    low: u32,
    /// Some member is at most this number; `NONE` if that is not known.
    high: u32,
    /// How many steps up were answered no.
    steps: u8,
    /// Whether it begins anew, below members that were found.
    is_anew: bool,
    /// How often no gear answered under `FFFFFE`.
    silent: u8,
    /// How many members were found, 255 for more.
    found: u8,
    /// The greatest member that was found; 0 if none was.
    top: u32,
}

impl Model for Ascent {
    ghost use Rattle.dali_search.specs.Ascending.{Ascent, IsAscent};

    ghost Value = { Ascent };

    ghost view = { λ a. record {
      low = a.low;
      high = a.high;
      steps = a.steps;
      is_anew = a.is_anew;
      silent = a.silent;
      found = a.found;
      top = a.top;
    } };

    ghost invariant = { λ a. IsAscent (record {
      low = a.low;
      high = a.high;
      steps = a.steps;
      is_anew = a.is_anew;
      silent = a.silent;
      found = a.found;
      top = a.top;
    }) };
}

/// A number with its lowest bits set to one, so many of them.
fn with_ones(bits: u8, number: u32) -> u32
    requires bits { bits < 30 }
    requires number { number < 2 ^ 24 }
    ensures { result ≡ with_ones bits number }
{
    let size = 1u32 << bits;
    number / size * size + (size - 1)
}

/// How many of their lowest bits two numbers of 24 bits do not share.
fn apart(one: u32, other: u32) -> u8
    ensures value { result ≡ apart one other }
    ensures most { result ≤ 24 }
{
    let (mut one, mut other, mut bits) = (one, other, 0);
    for _ in 0..24u8 {
        if one != other {
            one /= 2;
            other /= 2;
            bits += 1;
        }
    }
    bits
}

/// The last number of the block of a number, but the greatest that gear draw in place of `NONE`.
fn end_of_block(bits: u8, number: u32) -> u32
    requires bits { bits < 30 }
    requires number { number < 2 ^ 24 }
    ensures { result ≡ end_of_block bits number }
{
    let last = with_ones(bits, number);
    if last < NONE { last } else { NONE - 1 }
}

impl Ascent {
    /// An ascent that has found no gear, and has asked nothing.
    pub fn new() -> Ascent
        ensures { result ≡ ascent_at_first }
    {
        Ascent {
            low: 0,
            high: NONE,
            steps: 0,
            is_anew: false,
            silent: 0,
            found: 0,
            top: 0,
        }
    }

    /// The same ascent once more.
    pub fn copy(&self) -> Ascent
        ensures { result ≡ self.now }
    {
        Ascent {
            low: self.low,
            high: self.high,
            steps: self.steps,
            is_anew: self.is_anew,
            silent: self.silent,
            found: self.found,
            top: self.top,
        }
    }

    /// The ascent with these parts, as its readers give them. So an ascent is laid down as its parts, and made again.
    /// None if no ascent has these.
    pub fn of(
        low: Random24,
        high: Random24,
        steps: u8,
        is_anew: bool,
        silent: u8,
        found: u8,
        top: Random24,
    ) -> Option<Ascent>
        ensures { MatchOption result
            (IsAscent (ascent_of low high steps is_anew silent found top) → ⊥)
            (λ a. IsAscent a × (a ≡ ascent_of low high steps is_anew silent found top)) }
    {
        if silent > SILENCES || steps > STEPS + silent || top >= Random24::MASK {
            return None;
        }
        if 0 < silent && (is_anew || low < Random24::MASK) {
            return None;
        }
        Some(Ascent {
            low: low.value(),
            high: high.value(),
            steps,
            is_anew,
            silent,
            found,
            top: top.value(),
        })
    }

    /// No member is below this number.
    pub fn low(&self) -> Random24
        ensures value { result ≡ self.now.low }
        ensures ascent { IsAscent self.now }
    {
        Random24::of(self.low).unwrap()
    }

    /// Some member is at most this number; `FFFFFF` if that is not known.
    pub fn high(&self) -> Random24
        ensures { result ≡ self.now.high }
    {
        Random24::of(self.high).unwrap()
    }

    /// How many steps up were answered no.
    pub fn steps(&self) -> u8
        ensures { result ≡ self.now.steps }
    {
        self.steps
    }

    /// Whether it begins anew, below members that were found.
    pub fn is_anew(&self) -> bool
        ensures { result ≡ self.now.is_anew }
    {
        self.is_anew
    }

    /// How often no gear answered under `FFFFFE`.
    pub fn silent(&self) -> u8
        ensures { result ≡ self.now.silent }
    {
        self.silent
    }

    /// How many members were found, 255 for more.
    pub fn found(&self) -> u8
        ensures { result ≡ self.now.found }
    {
        self.found
    }

    /// The greatest member that was found; 0 if none was.
    pub fn top(&self) -> Random24
        ensures { result ≡ self.now.top }
    {
        Random24::of(self.top).unwrap()
    }

    /// The bits of the numbers of a block of about the mean distance of the members that were found.
    fn scale(&self) -> u8
        requires { 0 < self.now.found }
        ensures value { result ≡ scale self.now }
        ensures most { result < 24 }
    {
        apart((self.top + 1) / u32::from(self.found), 0).saturating_sub(1)
    }

    /// The number to ask while no gear has answered.
    fn step_up(&self) -> u32
        ensures value { result ≡ from_known self.now }
        ensures drawn { result < 0xFFFFFF }
    {
        if self.found == 0 {
            NONE - 1
        } else if self.is_anew {
            self.top
        } else if self.steps < STEPS {
            end_of_block(self.scale() + self.steps, self.low)
        } else {
            NONE - 1
        }
    }

    /// The number that is asked next.
    fn asked(&self) -> u32
        ensures value { result ≡ asked_next self.now }
        ensures fits { result < 2 ^ 24 }
    {
        if self.high < NONE {
            with_ones(apart(self.low, self.high).saturating_sub(1), self.low)
        } else {
            self.step_up()
        }
    }

    /// The number that is asked next, while it goes on.
    pub fn probe(&self) -> Random24
        ensures { result ≡ asked_next self.now }
    {
        Random24::of(self.asked()).unwrap()
    }

    /// What the answers lead to.
    pub fn step(&self) -> Step
        ensures value { result ≡ leads_to self.now }
        ensures ascent { IsAscent self.now }
    {
        if self.high < NONE {
            return match Random24::of(self.high) {
                Some(found) if self.low >= self.high => Step::Found(found),
                _ => Step::Again,
            };
        }
        if self.silent < SILENCES {
            Step::Again
        } else {
            Step::Nobody
        }
    }

    /// What is known once some member is at most the number that was asked.
    fn told_yes(&self, asked: u32) -> Ascent
        requires asked { asked ≡ asked_next self.now }
        requires goes_on { leads_to self.now ≡ Again }
        ensures { result ≡ told_yes self.now asked }
    {
        Ascent {
            low: self.low,
            high: asked,
            steps: self.steps,
            is_anew: self.is_anew,
            silent: self.silent,
            found: self.found,
            top: self.top,
        }
    }

    /// How many steps up were answered no, with one more answer.
    fn steps_after(&self) -> u8
        ensures { result ≡ steps_after self.now }
    {
        if self.high < NONE || self.is_anew {
            self.steps
        } else {
            self.steps + 1
        }
    }

    /// How often `FFFFFE` was answered no, with a no for this number.
    fn silent_after(&self, asked: u32) -> u8
        ensures { result ≡ silent_after self.now asked }
    {
        if asked == NONE - 1 {
            self.silent + 1
        } else {
            self.silent
        }
    }

    /// What is known once no member is at most the number that was asked.
    fn told_no(&self, asked: u32) -> Ascent
        requires drawn { asked < 0xFFFFFF }
        requires asked { asked ≡ asked_next self.now }
        requires goes_on { leads_to self.now ≡ Again }
        ensures { result ≡ told_no self.now asked }
    {
        Ascent {
            low: asked + 1,
            high: self.high,
            steps: self.steps_after(),
            is_anew: false,
            silent: self.silent_after(asked),
            found: self.found,
            top: self.top,
        }
    }

    /// Takes the answer to the question whether some member is at most the probe. After an end it gives the same end
    /// again, whatever is answered.
    pub fn answer(&mut self, yes: bool) -> Step
        // What changes.
        ensures told { leads_to self.old ≡ Again → self.new ≡ ascended self.old yes }
        ensures over { (leads_to self.old ≡ Again → ⊥) → self.new ≡ self.old }
        ensures step { result ≡ leads_to self.new }

        // What it says of every set that agrees with the answers.
        ensures knows { (has : ℕ → Bool) → leads_to self.old ≡ Again → Knows has self.old
            → Gives has (asked_next self.old) yes → Knows has self.new }
        ensures says { (has : ℕ → Bool) → IsBelow has 0xFFFFFF → Knows has self.new → Says has result }
        ensures below { NumberOf result (λ r. r < 0xFFFFFF) }
        ensures nobody { leads_to self.old ≡ Again → result ≡ Nobody
            → (yes ≡ false) × (asked_next self.old ≡ 0xFFFFFE) × (self.old.silent ≡ 1) }

        // It ends.
        ensures fewer { leads_to self.old ≡ Again → answers_left self.new < answers_left self.old }
        ensures count { answers_left self.new ≤ 31 }
    {
        if let Step::Again = self.step() {
            let asked = self.asked();
            *self = if yes {
                self.told_yes(asked)
            } else {
                self.told_no(asked)
            };
        }
        self.step()
    }

    /// The member that was found is taken out of the set: the search goes on above it. If none was found nothing
    /// changes.
    pub fn go_above(&mut self)
        ensures changed { (r : ℕ) → leads_to self.old ≡ Found r → self.new ≡ above self.old r }
        ensures over { ((r : ℕ) → leads_to self.old ≡ Found r → ⊥) → self.new ≡ self.old }
        ensures knows { (has : ℕ → Bool) (r : ℕ) → leads_to self.old ≡ Found r → ((m : ℕ) → has m ≡ true → r < m)
            → Knows has self.new }
    {
        if let Step::Found(found) = self.step() {
            let found = found.value();
            self.low = found + 1;
            self.high = NONE;
            self.steps = 0;
            self.is_anew = false;
            self.silent = 0;
            self.found = self.found.saturating_add(1);
            self.top = if self.top < found { found } else { self.top };
        }
    }

    /// No gear answered under the number that was found: the search begins anew, and asks first whether a member was
    /// passed over.
    pub fn begin_anew(&mut self)
        ensures changed { self.new ≡ begun_anew self.old }
        ensures knows { (has : ℕ → Bool) → Knows has self.new }
    {
        self.low = 0;
        self.high = NONE;
        self.steps = 0;
        self.is_anew = 0 < self.found;
        self.silent = 0;
    }

    /// Goes on after an end: above the member that was found, and anew if no gear was left. While it goes on nothing
    /// changes.
    pub fn go_on(&mut self)
        ensures changed { self.new ≡ gone_on self.old }
        ensures again { leads_to self.new ≡ Again }
    {
        match self.step() {
            Step::Again => {}
            Step::Found(_) => self.go_above(),
            Step::Nobody => self.begin_anew(),
        }
    }
}
