ghost use Rattle.std.specs.Prelude.{◌≡◌};
ghost use Rattle.dali_controller.specs.Legs.{way_on, is_searching, from_on, silences_on, search_on, ascent_on};
ghost use Rattle.dali_controller.specs.Legs.{with_silences};

use crate::way::Way;
use dali_search::{Ascent, Search};

/// How far a machine is on its way.
#[derive(Drop)]
pub enum Leg {
    /// It has not begun, or it began with `Start`: what is unfinished is visited, from this short address on, and then
    /// comes the opening.
    Revisiting { from: u8 },
    /// It began with `Survey`: short addresses are asked, from this one on. The one that is asked was silent so often
    /// in a row, less than three times.
    Asking { from: u8, silences: u8 },
    /// Gear are searched, after a start.
    Searching(Search),
    /// Gear are searched, in a survey, with a search that goes up from the random address that was found last.
    Hunting(Ascent),
}

impl Leg {
    /// The same leg once more.
    pub(crate) fn copy(&self) -> Leg
        ensures { result ≡ self.now }
    {
        match self {
            Leg::Revisiting { from } => Leg::Revisiting { from: *from },
            Leg::Asking { from, silences } => Leg::Asking {
                from: *from,
                silences: *silences,
            },
            Leg::Searching(search) => Leg::Searching(search.copy()),
            Leg::Hunting(ascent) => Leg::Hunting(ascent.copy()),
        }
    }

    /// How the machine began.
    pub fn way(&self) -> Way
        ensures { result ≡ way_on self.now }
    {
        match self {
            Leg::Revisiting { .. } | Leg::Searching(_) => Way::Fresh,
            Leg::Asking { .. } | Leg::Hunting(_) => Way::Surveying,
        }
    }

    /// Whether gear are searched.
    pub fn is_searching(&self) -> bool
        ensures { result ≡ is_searching self.now }
    {
        match self {
            Leg::Revisiting { .. } | Leg::Asking { .. } => false,
            Leg::Searching(_) | Leg::Hunting(_) => true,
        }
    }

    /// The first short address that was not looked at; 64 if none is looked at any more.
    pub fn from(&self) -> u8
        ensures { result ≡ from_on self.now }
    {
        match self {
            Leg::Revisiting { from } | Leg::Asking { from, .. } => *from,
            Leg::Searching(_) | Leg::Hunting(_) => 64,
        }
    }

    /// How often in a row the short address that is asked was silent.
    pub fn silences(&self) -> u8
        ensures { result ≡ silences_on self.now }
    {
        match self {
            Leg::Asking { silences, .. } => *silences,
            Leg::Revisiting { .. } | Leg::Searching(_) | Leg::Hunting(_) => 0,
        }
    }

    /// The search for the least random address, before its first question if there is none.
    pub fn search(&self) -> Search
        ensures { result ≡ search_on self.now }
    {
        match self {
            Leg::Searching(search) => search.copy(),
            Leg::Revisiting { .. } | Leg::Asking { .. } | Leg::Hunting(_) => Search::new(),
        }
    }

    /// The search that goes up, before its first question if there is none.
    pub fn ascent(&self) -> Ascent
        ensures { result ≡ ascent_on self.now }
    {
        match self {
            Leg::Hunting(ascent) => ascent.copy(),
            Leg::Revisiting { .. } | Leg::Asking { .. } | Leg::Searching(_) => Ascent::new(),
        }
    }

    /// Keeps how often in a row the short address that is asked was silent.
    pub(crate) fn note_silences(&mut self, count: u8)
        ensures { self.new ≡ with_silences self.old count }
    {
        if let Leg::Asking { silences, .. } = self {
            *silences = count;
        }
    }
}
