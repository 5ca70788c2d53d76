//! Gear, alone and in a row, through the start-up and the search of IEC 62386-102:2014.

use super::values::{forward, random, same};
use dali_frame::{Answer, Random24, SearchAddress, Short};
use dali_gear::{Gear, GearSet, Heard, InitialisationState, Reach, Row};
use dali_special::{Command, Target};
use std::process::Abort;
use std::test::Fail;

/// A gear takes each of these frames, and may draw this number.
fn take_all<R: Abort>(rt: &R, gear: &mut Gear, frames: &[u16], draw: Random24) {
    for bytes in frames {
        assert!(rt; draw.value() < 0xFFFFFF);
        gear.take(forward(*bytes), draw);
    }
}

/// A gear that is initialised draws this number at the second RANDOMISE.
fn draws<R: Abort>(rt: &R, gear: &mut Gear, draw: Random24) {
    take_all(rt, gear, &[0xA5FF, 0xA5FF, 0xA700], draw);
    let randomise = forward(0xA700);
    same(rt, &gear.would_draw(&randomise), &true);
    same(rt, &gear.half_pair(), &Some(Command::Randomise));
    assert!(rt; draw.value() < 0xFFFFFF);
    let effect = gear.take(randomise, draw);
    same(rt, &(effect.answer, effect.drew), &(None, true));
}

/// It is given address 5.
fn is_addressed<R: Abort>(rt: &R, gear: &mut Gear, draw: Random24) {
    take_all(rt, gear, &[0xB112, 0xB334, 0xB556, 0xB70B], draw);
    same(rt, &(gear.short(), gear.random()), &(Short::of(5), draw));
    same(rt, &gear.search(), &SearchAddress::of(draw));
    same(rt, &gear.state(), &InitialisationState::Enabled);
    answers(rt, gear, draw, (0xBB00, Some(0x0B)));
}

/// It keeps both addresses over a loss of power.
fn keeps_its_addresses<R: Abort>(rt: &R, gear: &mut Gear, draw: Random24) {
    gear.power_off();
    same(rt, &gear.is_powered(), &false);
    gear.power_on();
    same(rt, &gear.state(), &InitialisationState::Disabled);
    same(rt, &gear.search(), &SearchAddress::MASK);
    same(rt, &(gear.short(), gear.random()), &(Short::of(5), draw));
}

/// A gear answers a frame so.
fn answers<R: Abort>(rt: &R, gear: &mut Gear, draw: Random24, asked: (u16, Option<u8>)) {
    let (bytes, wanted) = asked;
    assert!(rt; draw.value() < 0xFFFFFF);
    same(rt, &gear.take(forward(bytes), draw).answer, &wanted);
}

/// With short address 5 and random address `123456` it answers the queries of its bytes, and no other gear's.
#[test]
fn one_gear_is_addressed(rt: HostRuntime) -> Result<(), Fail> {
    let mut gear = Gear::new();
    let draw = random(0x123456)?;
    draws(&rt, &mut gear, draw);
    is_addressed(&rt, &mut gear, draw);
    keeps_its_addresses(&rt, &mut gear, draw);
    for asked in [
        (0x0BC2, Some(0x12)),
        (0x0BC3, Some(0x34)),
        (0x0BC4, Some(0x56)),
        (0x0DC2, None),
    ] {
        answers(&rt, &mut gear, draw, asked);
    }
    Ok(())
}

/// INITIALISE of the gear without short address.
pub const INITIALISE: Command = Command::Initialise(Target::Unaddressed);

/// A command comes to a row of gear that may draw these numbers: what is heard, and how many were drawn.
pub fn hear<R: Abort>(
    rt: &R,
    row: &mut Row,
    command: &Command,
    reach: &Reach,
    draws: &[Random24],
) -> Heard {
    assert!(rt; are_drawable(draws));
    assert!(rt; row.draws_needed(command, *reach) <= draws.len());
    row.take(command, *reach, draws)
}

/// Whether gear may draw each of these numbers.
fn are_drawable(draws: &[Random24]) -> bool {
    draws.iter().all(|draw| draw.value() < 0xFFFFFF)
}

/// Two gear draw these numbers in turn.
fn draw_in_order<R: Abort>(rt: &R, row: &mut Row, draws: &[Random24]) {
    for (command, drawn) in [
        (INITIALISE, 0),
        (INITIALISE, 0),
        (Command::Randomise, 0),
        (Command::Randomise, 2),
    ] {
        let heard = hear(rt, row, &command, &Reach::Everyone, draws);
        same(rt, &(heard.answer, heard.drawn), &(Answer::Silence, drawn));
    }
    assert!(rt; row.len() == 2);
    let drawn = [row.gear(0).random().value(), row.gear(1).random().value()];
    same(rt, &drawn, &[1, 2]);
}

#[test]
fn gear_of_a_row_draw_in_order(rt: HostRuntime) -> Result<(), Fail> {
    let draws = [random(0x000001)?, random(0x000002)?];
    draw_in_order(&rt, &mut Row::new(2), &draws);
    Ok(())
}

/// A step of a row of three gear, which draw no number.
#[derive(Clone, Copy)]
enum Step {
    /// INITIALISE comes to some of them.
    Initialise(Reach),
    /// COMPARE comes to all, and this is heard.
    Compares(Answer),
    /// The first half of a pair of frames that gear 1 has taken.
    HasHalf(Option<Command>),
    Quiet,
    /// The initialisation of a gear ends.
    Expires(usize),
    /// A gear loses its power, or has it again.
    Powers(usize, bool),
}

fn expires<R: Abort>(rt: &R, row: &mut Row, number: usize) {
    assert!(rt; number < row.len());
    row.expire(number);
}

fn powers<R: Abort>(rt: &R, row: &mut Row, number: usize, on: bool) {
    assert!(rt; number < row.len());
    if on {
        row.power_on(number);
    } else {
        row.power_off(number);
    }
    assert!(rt; number < row.len());
    same(rt, &row.gear(number).is_powered(), &on);
}

fn has_half<R: Abort>(rt: &R, row: &Row, wanted: Option<Command>) {
    assert!(rt; row.len() == 3);
    same(rt, &row.gear(1).half_pair(), &wanted);
}

/// The steps are as they say.
fn plays<R: Abort>(rt: &R, row: &mut Row, steps: &[Step]) {
    for step in steps {
        match *step {
            Step::Initialise(reach) => {
                hear(rt, row, &INITIALISE, &reach, &[]);
            }
            Step::Compares(wanted) => {
                let heard = hear(rt, row, &Command::Compare, &Reach::Everyone, &[]);
                same(rt, &heard.answer, &wanted);
            }
            Step::HasHalf(wanted) => has_half(rt, row, wanted),
            Step::Quiet => row.quiet(),
            Step::Expires(number) => expires(rt, row, number),
            Step::Powers(number, on) => powers(rt, row, number, on),
        }
    }
}

#[test]
fn some_gear_of_a_row_take_a_frame(rt: HostRuntime) {
    let steps = [
        Step::Initialise(Reach::Everyone),
        Step::Initialise(Reach::Only(GearSet::of(0b101))),
        Step::HasHalf(Some(INITIALISE)),
        Step::Quiet,
        Step::HasHalf(None),
        Step::Compares(Answer::Damaged),
        Step::Expires(0),
        Step::Compares(Answer::Byte(0xFF)),
        Step::Powers(2, false),
        Step::Compares(Answer::Silence),
        Step::Powers(2, true),
    ];
    plays(&rt, &mut Row::new(3), &steps);
}
