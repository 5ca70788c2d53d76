//! A row of gear behind a bus on which much may go wrong.

use dali_frame::{Answer, Forward, Random24, Short};
use dali_gear::{GearSet, Reach, Row};
use dali_mending::{Mending, Outcome};
use dali_script::{Input, Pair};
use dali_special::{Command, Target};
use std::process::Abort;
use std::test::Fail;

/// The short address that is mended.
pub const SHARED: u8 = 5;

/// A gear, as its short address, if it has one, and its random address.
pub type Addresses = (Option<u8>, u32);

pub fn short(number: u8) -> Result<Short, Fail> {
    match Short::of(number) {
        Some(short) => Ok(short),
        None => Err(Fail::from("a short address")),
    }
}

pub fn random(number: u32) -> Result<Random24, Fail> {
    match Random24::of(number) {
        Some(random) => Ok(random),
        None => Err(Fail::from("a random address")),
    }
}

/// Numbers by a seed.
#[derive(Clone, Copy)]
pub struct Dice(pub u64);

impl Dice {
    pub fn roll(&mut self, sides: u32) -> u32 {
        self.0 = self
            .0
            .wrapping_mul(6364136223846793005)
            .wrapping_add(1442695040888963407);
        ((self.0 >> 33) % u64::from(sides)) as u32
    }
}

/// Gear, the number that is drawn next, and how often something goes wrong, in a thousand frames.
#[derive(Drop)]
pub struct Site {
    pub row: Row,
    pub next: u32,
    pub dice: Dice,
    pub trouble: u32,
    pub frames: u32,
}

impl Site {
    /// Gear with these addresses, on a bus without trouble.
    pub fn of(gear: &[Addresses]) -> Result<Site, Fail> {
        let mut row = Row::new(gear.len());
        for (number, (address, number24)) in gear.iter().enumerate() {
            let at = short(address.unwrap_or(0))?;
            row.place(number, random(*number24)?, at);
        }
        let mut site = Site {
            row,
            next: 0x400000,
            dice: Dice(1),
            trouble: 0,
            frames: 0,
        };
        for (number, (address, number24)) in gear.iter().enumerate() {
            if address.is_none() {
                site.erase(number, random(*number24)?);
            }
        }
        Ok(site)
    }

    /// All gear take a frame.
    pub fn take(&mut self, command: Command, reach: Reach) -> Answer {
        let mut draws = [Random24::MASK; 16];
        for draw in draws.iter_mut() {
            *draw = Random24::of(self.next).unwrap_or(Random24::MASK);
            self.next = (self.next + 0x1357) % 0xFFFFFF;
        }
        self.row.take(&command, reach, &draws).answer
    }

    /// A gear that was placed at short address 0 has none.
    fn erase(&mut self, number: usize, number24: Random24) {
        for command in [
            Command::Terminate,
            Command::Initialise(Target::Addressed(Short::FIRST)),
            Command::Initialise(Target::Addressed(Short::FIRST)),
            Command::SearchHigh(number24.high()),
            Command::SearchMiddle(number24.middle()),
            Command::SearchLow(number24.low()),
            Command::Program(None),
            Command::Terminate,
        ] {
            let _ = self.take(command, Reach::Only(GearSet::of(1u128 << number)));
        }
    }

    /// The addresses of a gear.
    pub fn gear(&self, number: usize) -> Addresses {
        let gear = self.row.gear(number);
        (
            gear.short().map(|short| short.number()),
            gear.random().value(),
        )
    }

    /// How many gear have the shared address.
    pub fn sharing(&self) -> usize {
        let mut count = 0;
        for number in 0..self.row.len() {
            if self.gear(number).0 == Some(SHARED) {
                count += 1;
            }
        }
        count
    }

    /// What befalls some gear before a frame.
    fn befall(&mut self) {
        let number = self.dice.roll(self.row.len() as u32) as usize;
        match self.dice.roll(4) {
            0 => {
                self.row.power_off(number);
                self.row.power_on(number);
            }
            1 => self.row.expire(number),
            2 => self.row.quiet(),
            _ => {
                // A push button speaks.
                let _ = self.take(
                    Command::Arc(Forward {
                        address_byte: 0xFE,
                        opcode_byte: 0x80,
                    }),
                    Reach::Everyone,
                );
            }
        }
    }

    /// A frame is put, and something may go wrong.
    pub fn exchange(&mut self, frame: Forward) -> Input {
        self.frames += 1;
        let command = Command::read(frame);
        if self.dice.roll(1000) >= self.trouble {
            return Input::Heard(self.take(command, Reach::Everyone));
        }
        match self.dice.roll(6) {
            0 => {
                let set = u128::from(self.dice.roll(0x10000));
                let _ = self.take(command, Reach::Only(GearSet::of(set)));
                Input::Destroyed
            }
            1 => Input::Lapsed,
            2 => {
                let _ = self.take(command, Reach::Everyone);
                Input::Heard(Answer::Silence)
            }
            3 => {
                let _ = self.take(command, Reach::Everyone);
                Input::Heard(Answer::Damaged)
            }
            _ => {
                self.befall();
                Input::Heard(self.take(command, Reach::Everyone))
            }
        }
    }

    /// A mending goes on for so many frames, or to its end.
    pub fn mend(&mut self, mending: &mut Mending, frames: u32) -> Option<Outcome> {
        for _ in 0..frames {
            let Some(put) = mending.put() else {
                break;
            };
            let told = self.exchange(put.frame);
            mending.told(told);
        }
        mending.outcome()
    }
}

/// More frames than any mending of these tests takes.
pub const ENOUGH: u32 = 100_000;

/// The mending of the shared address, for which the table has this gear, if it has one.
pub fn mending_of(table: Option<Random24>) -> Result<Mending, Fail> {
    let at = short(SHARED)?;
    Ok(match table {
        Some(random) => Mending::new(at, &[Pair::of(at, random)]),
        None => Mending::new(at, &[]),
    })
}

/// The shared address is mended, with this number in a table or none.
pub fn mended(site: &mut Site, table: Option<u32>) -> Result<(Option<Outcome>, Mending), Fail> {
    let table = match table {
        Some(number) => Some(random(number)?),
        None => None,
    };
    let mut mending = mending_of(table)?;
    let outcome = site.mend(&mut mending, ENOUGH);
    Ok((outcome, mending))
}

/// The gear of these numbers are so.
pub fn are<R: Abort>(rt: &R, site: &Site, wanted: &[Addresses]) {
    assert_eq!(rt; site.row.len(), wanted.len());
    for (number, addresses) in wanted.iter().enumerate() {
        assert_eq!(rt; site.gear(number), *addresses, "gear {number}");
    }
}
