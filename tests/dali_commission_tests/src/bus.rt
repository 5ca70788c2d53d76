//! Gear behind the lines of a driver, in memory.

use dali_frame::{Answer, Forward, Random24, Short};
use dali_gear::{Reach, Row};
use dali_special::Command;
use std::alloc::Global;
use std::cell::RefCell;
use std::io;
use std::io::{BufRead, ErrorKind, Read, Write};

/// What the gear are, the next number that one draws, and what is still to be read of their answer.
#[derive(Drop)]
struct Wires {
    row: Row,
    next: u32,
    answer: Vec<u8>,
    read: usize,
    /// How many frames more the driver takes; all if nothing is said.
    left: Option<u32>,
    /// After how many frames the bus loses its power, so that silence is all that the driver hears.
    fails: Option<u32>,
    /// How many of ten answers are lost, and how many are damaged.
    weak: Option<(u32, u32)>,
    frames: u32,
}

/// A number below ten, by a seed.
fn dice(seed: u32) -> u32 {
    let mixed = seed.wrapping_mul(2_654_435_761) >> 8;
    (mixed ^ (mixed >> 7)).wrapping_mul(40_503) % 10
}

impl Wires {
    /// What is heard of an answer on a bus with weak answers.
    fn weakened(&self, answer: Answer) -> Answer {
        match self.weak {
            Some((lost, damaged)) if answer != Answer::Silence => {
                let number = dice(self.frames);
                if number < lost {
                    Answer::Silence
                } else if number < lost + damaged {
                    Answer::Damaged
                } else {
                    answer
                }
            }
            _ => answer,
        }
    }

    fn draw(&mut self) -> Random24 {
        self.next = self.next.wrapping_add(0x1357) % 0xFFFFFF;
        Random24::of(self.next).unwrap_or(Random24::MASK)
    }

    /// All gear take a frame.
    fn take(&mut self, frame: Forward) -> io::Result<()> {
        self.answer.clear();
        self.read = 0;
        if self.left == Some(0) {
            // The driver has ended, and answers nothing.
            return Ok(());
        }
        self.left = self.left.map(|left| left.saturating_sub(1));
        self.frames = self.frames.saturating_add(1);
        if self.fails.is_some_and(|frames| self.frames > frames) {
            return write!(self.answer, "silence\n");
        }
        let draws = [self.draw(), self.draw(), self.draw(), self.draw()];
        let heard = self
            .row
            .take(&Command::read(frame), Reach::Everyone, &draws);
        match self.weakened(heard.answer) {
            Answer::Silence => write!(self.answer, "silence\n"),
            Answer::Damaged => write!(self.answer, "damaged\n"),
            Answer::Byte(byte) => write!(self.answer, "byte {byte:02X}\n"),
        }
    }
}

/// At most four gear from the factory, which take each frame that is put.
#[derive(Drop)]
pub struct Bus(RefCell<Wires>);

impl Bus {
    pub fn of(alloc: Global, count: usize) -> Bus {
        Bus(RefCell::new(Wires {
            row: Row::new(count),
            next: 0x400000,
            answer: Vec::new(alloc),
            read: 0,
            left: None,
            fails: None,
            weak: None,
            frames: 0,
        }))
    }

    /// Gear with these short and random addresses.
    pub fn with(alloc: Global, gear: &[(u8, u32)]) -> Bus {
        let bus = Bus::of(alloc, gear.len());
        if let Ok(mut wires) = bus.0.try_borrow_mut() {
            for (number, (address, random)) in gear.iter().enumerate() {
                if let (Some(short), Some(random)) = (Short::of(*address), Random24::of(*random)) {
                    wires.row.place(number, random, short);
                }
            }
        }
        bus
    }

    /// From now on the driver takes so many frames, and ends then; all if nothing is said.
    pub fn limit(&self, left: Option<u32>) {
        if let Ok(mut wires) = self.0.try_borrow_mut() {
            wires.left = left;
        }
    }

    /// So many of ten answers are lost from now on, and so many damaged.
    pub fn weaken(&self, lost: u32, damaged: u32) {
        if let Ok(mut wires) = self.0.try_borrow_mut() {
            wires.weak = Some((lost, damaged));
        }
    }

    /// After so many frames the bus loses its power.
    pub fn fail(&self, frames: u32) {
        if let Ok(mut wires) = self.0.try_borrow_mut() {
            wires.fails = Some(frames);
        }
    }

    /// How many frames were put.
    pub fn frames(&self) -> u32 {
        match self.0.try_borrow() {
            Ok(wires) => wires.frames,
            Err(_) => 0,
        }
    }

    /// A gear gets its power, or loses it.
    pub fn switch(&self, number: usize, is_on: bool) {
        if let Ok(mut wires) = self.0.try_borrow_mut() {
            if is_on {
                wires.row.power_on(number);
            } else {
                wires.row.power_off(number);
            }
        }
    }

    /// The random and the short address of a gear.
    pub fn gear(&self, number: usize) -> Option<(Random24, Option<Short>)> {
        let wires = self.0.try_borrow().ok()?;
        let gear = wires.row.gear(number);
        Some((gear.random(), gear.short()))
    }
}

fn busy<E: Drop>(_error: E) -> io::Error {
    io::Error::from(ErrorKind::Other)
}

/// The end to which lines are written.
#[derive(Drop)]
pub struct Put<'a>(pub &'a Bus);

impl Write for Put<'_> {
    fn write(&mut self, line: &[u8]) -> io::Result<usize> {
        let frame = match line {
            [b'p', b'u', b't', b' ', _, b' ', a, b, c, d, ..] => {
                Forward::read_hex(&[*a, *b, *c, *d]).map_err(busy)?
            }
            _ => return Err(io::Error::from(ErrorKind::InvalidData)),
        };
        self.0.0.try_borrow_mut().map_err(busy)?.take(frame)?;
        Ok(line.len())
    }

    fn flush(&mut self) -> io::Result<()> {
        Ok(())
    }
}

/// The end from which answers are read.
#[derive(Drop)]
pub struct Told<'a>(pub &'a Bus);

impl Read for Told<'_> {
    fn read(&mut self, buffer: &mut [u8]) -> io::Result<usize> {
        let mut wires = self.0.0.try_borrow_mut().map_err(busy)?;
        let mut count = 0;
        for place in buffer.iter_mut() {
            if let Some(byte) = wires.answer.get(wires.read) {
                *place = *byte;
                wires.read += 1;
                count += 1;
            }
        }
        Ok(count)
    }
}

impl BufRead for Told<'_> {
    // The program reads byte by byte.

    fn fill_buf(&mut self) -> io::Result<&[u8]> {
        Err(io::Error::from(ErrorKind::Unsupported))
    }

    fn consume(&mut self, _amount: usize) {}
}
