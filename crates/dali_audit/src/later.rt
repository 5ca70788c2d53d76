//! Which gear are heard after a damaged frame, before anything else may change whether they take part in the
//! initialisation: of them it was no TERMINATE.

use crate::audit::first_of;
use crate::bus::Bus;
use crate::places::Place;
use crate::seen::{Seen, seen_of};
use dali_capture::Item;
use dali_frame::{Answer, Forward};
use dali_special::Command;

/// How many items it is looked ahead: more than 15 minutes of a bus have.
const LOOK: u32 = 100_000;

/// What is known behind a damaged frame.
#[derive(Drop)]
struct Look<'a> {
    places: &'a [Place],
    bus: Bus,
    /// Which bytes of the search address were sent since then.
    high: bool,
    middle: bool,
    low: bool,
    /// Which gear were heard.
    heard: [bool; 128],
}

impl Look<'_> {
    /// The gear at the search address is heard.
    fn hear(&mut self, answer: Answer) {
        let Answer::Byte(_) = answer else {
            return;
        };
        let search = self.bus.search.number();
        for (gear, place) in self.places.iter().enumerate() {
            if gear < 128 && search == Some(place.random) {
                self.heard[gear] = true;
            }
        }
    }

    /// A frame that is sent on; whether what comes after it tells anything.
    fn send(&mut self, item: &Item, frame: Forward, answer: Answer) -> bool {
        match Command::read(frame) {
            Command::Terminate => return false,
            Command::Initialise(_) | Command::Randomise => return !self.bus.completes(item, frame),
            Command::SearchHigh(_) => self.high = true,
            Command::SearchMiddle(_) => self.middle = true,
            Command::SearchLow(_) => self.low = true,
            Command::Compare | Command::Withdraw | Command::Program(_) => {
                return self.high && self.middle && self.low;
            }
            Command::QueryShort => {
                if !(self.high && self.middle && self.low) {
                    return false;
                }
                self.hear(answer);
            }
            Command::Verify(_) | Command::RandomByte(..) | Command::Arc(_) | Command::Other(_) => {}
        }
        true
    }

    /// An item; whether what comes after it tells anything.
    fn take(&mut self, item: &Item, seen: Seen) -> bool {
        let goes_on = match seen {
            Seen::Sent(frame, answer) => self.send(item, frame, answer),
            Seen::Broken => {
                self.high = false;
                self.middle = false;
                self.low = false;
                true
            }
            Seen::Foreign | Seen::Replied | Seen::Stray => true,
        };
        self.bus = self.bus.after(item, seen);
        goes_on
    }
}

/// Which gear are heard after a damaged frame.
pub(crate) fn heard_later(
    places: &[Place],
    bus: &Bus,
    damaged: &Item,
    after: &[Item],
) -> [bool; 128] {
    let mut look = Look {
        places,
        bus: bus.after(damaged, Seen::Broken),
        high: false,
        middle: false,
        low: false,
        heard: [false; 128],
    };
    let mut before = Some(*damaged);
    let mut rest = after;
    for _ in 0..LOOK {
        let [item, more @ ..] = rest else {
            return look.heard;
        };
        if !look.take(item, seen_of(before, item, first_of(more))) {
            return look.heard;
        }
        before = Some(*item);
        rest = more;
    }
    look.heard
}
