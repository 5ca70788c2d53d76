ghost use Rattle.std.specs.Prelude.{◌≡◌};

use dali_frame::Answer;
use dali_gear::{GearSet, Reach};

/// What disturbs the next frame on the bus.
#[derive(Clone, Copy, Debug, PartialEq, Eq)]
pub enum Trouble {
    /// Nothing.
    None,
    /// No backward frame is heard.
    AnswerLost,
    /// The backward frames are heard as damaged.
    Noise,
    /// The frame is destroyed; these gear take it all the same.
    Destroyed(GearSet),
    /// The frame collides with one that another controller sends at the same priority; no gear takes either.
    Collision,
}

impl Trouble {
    ghost use Rattle.std.specs.Prelude.{IfSome, Some};
    ghost use Rattle.dali_events.specs.Troubles.{heard_under, reach_under};
    ghost use Rattle.dali_events.specs.Troubles.{trouble_name, trouble_named, destroying_named, StandsAlone};

    /// The trouble with a name in a script, of those that stand alone: `lost`, `noise` or `collision`.
    pub fn of_name(name: &[u8]) -> Option<Trouble>
        ensures value { result ≡ trouble_named name.now }
        ensures named { IfSome result (λ trouble. trouble_name trouble ≡ name.now) }
        ensures read { (trouble : Trouble) → StandsAlone trouble → trouble_name trouble ≡ name.now
            → result ≡ Some trouble }
    {
        if name == b"lost".as_slice() {
            Some(Trouble::AnswerLost)
        } else if name == b"noise".as_slice() {
            Some(Trouble::Noise)
        } else if name == b"collision".as_slice() {
            Some(Trouble::Collision)
        } else {
            None
        }
    }

    /// The trouble with a name before a set of gear: `destroyed`.
    pub fn of_name_and_set(name: &[u8], set: GearSet) -> Option<Trouble>
        ensures value { result ≡ destroying_named name.now set }
        ensures named { IfSome result (λ trouble. trouble_name trouble ≡ name.now) }
    {
        if name == b"destroyed".as_slice() {
            Some(Trouble::Destroyed(set))
        } else {
            None
        }
    }

    /// Which gear a frame reaches.
    pub fn reach(&self) -> Reach
        ensures { result ≡ reach_under self.now }
    {
        match self {
            Trouble::None | Trouble::AnswerLost | Trouble::Noise => Reach::Everyone,
            Trouble::Destroyed(set) => Reach::Only(*set),
            Trouble::Collision => Reach::Only(GearSet::NONE),
        }
    }

    /// What is heard after a frame that is sent, if `plain` would be heard without trouble.
    pub fn heard(self, plain: Answer) -> Answer
        ensures { result ≡ heard_under self plain }
    {
        match self {
            Trouble::AnswerLost => Answer::Silence,
            Trouble::Noise => Answer::Damaged,
            Trouble::None | Trouble::Destroyed(_) | Trouble::Collision => plain,
        }
    }
}
