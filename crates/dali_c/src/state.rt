//! The state of a machine as plain bytes.

ghost use Rattle.std.specs.Prelude.{◌≡◌, Some, IfSome, IfNone};
ghost use Rattle.dali_search.specs.Least.{Search};
ghost use Rattle.dali_controller.specs.declared.leg.Leg.{Leg};
ghost use Rattle.dali_controller.specs.declared.state.State.{State};
ghost use Rattle.dali_c.specs.Machines.{IsPlainSearch, IsPlainLeg, FillsLeg, Spells};
ghost use Rattle.dali_c.specs.Orders.{HasNoMore, IsSentSo};

use crate::ascents::PlainAscent;
use crate::codes::{bool_code, bool_of};
use crate::entries::{FRAMES, PlainEntry, read_trace, write_entries};
use crate::orders::{PlainFinding, PlainOrder};
use crate::pairs::PlainRandom;
use crate::purposes::{purpose_code, purpose_of};
use crate::surveys::{shorts_bytes, shorts_of, way_code, way_of};
use crate::tallies::PlainTally;
use dali_controller::{Leg, State, Way};
use dali_search::Search;

/// The version of the structs and calls, `DALI_C_VERSION` of the header. It counts up with each change of one of them.
pub(crate) const VERSION: u8 = 106;

/// A machine without its records. Its fields are those of [`State`], with the leg in parts: `opened` and `way` say
/// which it is; `from`, `asked`, a search as three numbers and an ascent are what legs have. The set `heard` is the
/// bytes of its number, the least first. In C a machine has no number.
#[repr(C)]
#[derive(Clone, Copy)]
pub struct PlainState {
    pub version: u8,
    pub opened: u8,
    pub tries: u8,
    pub silent: u8,
    pub from: u8,
    pub purpose: u8,
    pub detail: u8,
    pub answers: u8,
    pub number: PlainRandom,
    pub least: PlainRandom,
    pub probe: PlainRandom,
    pub ascent: PlainAscent,
    pub finding: PlainFinding,
    pub last: PlainOrder,
    pub way: u8,
    pub asked: u8,
    pub heard: [u8; 8],
    pub tally: PlainTally,
    pub entry_count: u8,
    pub entries: [PlainEntry; FRAMES],
}

impl PlainState {
    /// Writes a state down, whatever was there.
    pub(crate) fn set(&mut self, state: &State)
        requires { state.now.id ≡ 0 }
        ensures spells { Spells self.new state.now }
        ensures more { FillsLeg self.new state.now.leg }
        ensures ordered { HasNoMore self.new.last state.now.last }
        ensures sent { IsSentSo self.new.last state.now.trace state.now.last }
    {
        let (purpose, detail) = purpose_code(state.purpose);
        let entries = state.trace.entries();
        let search = state.leg.search();
        self.version = VERSION;
        self.opened = bool_code(state.leg.is_searching());
        self.tries = state.tries;
        self.silent = state.silent;
        self.from = state.leg.from();
        self.purpose = purpose;
        self.detail = detail;
        self.answers = search.answers();
        self.number = PlainRandom::of_search(state.number);
        self.least = PlainRandom::of(search.least());
        self.probe = PlainRandom::of(search.probe());
        self.ascent = PlainAscent::of(&state.leg.ascent());
        self.finding = PlainFinding::of(state.finding);
        self.last = PlainOrder::of(state.last, entries);
        self.way = way_code(state.leg.way());
        self.asked = state.leg.silences();
        self.heard = shorts_bytes(state.heard);
        self.tally = PlainTally::of(&state.tally);
        self.entry_count = entries.len() as u8;
        self.entries = write_entries(entries);
    }

    /// None if its bytes spell no state.
    pub(crate) fn read(&self) -> Option<State>
        ensures spelled { IfSome result (Spells self.now) }
        ensures none { IfNone result ((s : State) → Spells self.now s → ⊥) }
    {
        if self.version != VERSION {
            return None;
        }
        let purpose = purpose_of(self.purpose, self.detail)?;
        let finding = self.finding.read()?;
        let last = self.last.read()?;
        let leg = self.leg()?;
        let tally = self.tally.read()?;
        let trace = read_trace(&self.entries, self.entry_count)?;
        Some(State {
            id: 0,
            trace,
            finding,
            last,
            tries: self.tries,
            silent: self.silent,
            purpose,
            number: self.number.search(),
            leg,
            heard: shorts_of(self.heard),
            tally,
        })
    }

    /// How far it is on its way. None if its bytes are those of no leg.
    fn leg(&self) -> Option<Leg>
        ensures leg { IfSome result (IsPlainLeg self.now) }
        ensures same { (l : Leg) → IsPlainLeg self.now l → result ≡ Some l }
    {
        let is_searching = bool_of(self.opened)?;
        let way = way_of(self.way)?;
        match (is_searching, way) {
            (false, Way::Fresh) => Some(Leg::Revisiting { from: self.from }),
            (false, Way::Surveying) => Some(Leg::Asking {
                from: self.from,
                silences: self.asked,
            }),
            (true, Way::Fresh) => Some(Leg::Searching(self.search()?)),
            (true, Way::Surveying) => Some(Leg::Hunting(self.ascent.read()?)),
        }
    }

    fn search(&self) -> Option<Search>
        ensures search { IfSome result (IsPlainSearch self.now) }
        ensures same { (s : Search) → IsPlainSearch self.now s → result ≡ Some s }
    {
        let search = Search::of(self.answers, self.least.read(), self.probe.read())?;
        // What is a search has come of one that asked.
        let _ = search.answers();
        Some(search)
    }
}
