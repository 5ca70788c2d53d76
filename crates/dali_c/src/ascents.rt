//! The search of a survey that goes up, as plain bytes.

ghost use Rattle.std.specs.Prelude.{◌≡◌, Some, IfSome};
ghost use Rattle.dali_search.specs.Ascending.{Ascent};
ghost use Rattle.dali_c.specs.Ascents.{IsPlainAscent};

use crate::codes::bool_of;
use crate::pairs::PlainRandom;
use dali_search::Ascent;

/// An [`Ascent`], with its parts as the readers of it give them.
#[repr(C)]
#[derive(Clone, Copy)]
pub struct PlainAscent {
    pub low: PlainRandom,
    pub high: PlainRandom,
    pub top: PlainRandom,
    pub steps: u8,
    pub is_anew: u8,
    pub silent: u8,
    pub found: u8,
}

impl PlainAscent {
    pub(crate) fn of(ascent: &Ascent) -> PlainAscent
        ensures { IsPlainAscent result ascent.now }
    {
        PlainAscent {
            low: PlainRandom::of(ascent.low()),
            high: PlainRandom::of(ascent.high()),
            top: PlainRandom::of(ascent.top()),
            steps: ascent.steps(),
            is_anew: u8::from(ascent.is_anew()),
            silent: ascent.silent(),
            found: ascent.found(),
        }
    }

    /// None if its bytes are none of an ascent's.
    pub(crate) fn read(&self) -> Option<Ascent>
        ensures ascent { IfSome result (IsPlainAscent self.now) }
        ensures same { (a : Ascent) → IsPlainAscent self.now a → result ≡ Some a }
    {
        let is_anew = bool_of(self.is_anew)?;
        Ascent::of(
            self.low.read(),
            self.high.read(),
            self.steps,
            is_anew,
            self.silent,
            self.found,
            self.top.read(),
        )
    }
}
