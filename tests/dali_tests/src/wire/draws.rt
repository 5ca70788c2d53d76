//! Answers that drive a bus together, off the grid of half bits, each with its own byte, begin and bit time.
//!
//! One time in two an answer sends a byte that is common to them, else any; one time in two it begins within 100 µs
//! after a common time, else within 9 ms; one time in two its half bits take 414 to 419 µs, else 367 to 466. By how
//! much its lows are shorter or longer is drawn for each answer.
//!
//! Of 30,000 of each, this many were told as the byte that each had sent, and all others as damaged:
//!
//! | Lows | One answer | Two | Three |
//! |---|---|---|---|
//! | as they are | 30,000 | 551 | 44 |
//! | up to 250 µs shorter | 8,423 | 478 | 81 |
//! | up to 100 µs longer | 20,945 | 163 | 5 |
//!
//! A wrong byte is rarer than that shows: of 1,000,000 of each, drawn by a program in C, 10 of the pairs with shorter
//! lows were told as a byte that one of the two had not sent. As silence joint answers are never told, which is proved.
//!
//! The test draws 1,000 of each, and knows how many of these are told as the byte. With another `TIMES` it fails, and
//! says how many were.

use super::edges::same;
use dali_frame::Answer;
use dali_wire::{Sender, Window};
use rand_core::{Rng, SeedableRng};
use rand_pcg::Pcg32;
use std::test::Fail;

/// How often one, two and three answers are drawn of each.
const TIMES: u32 = 1000;

/// A gear that answers: its levels, how long each is, and when the next one begins. Its lows end some µs too early or
/// too late.
#[derive(Drop)]
struct Gear {
    sender: Sender,
    half: u32,
    begin: u32,
    coming: Option<bool>,
    is_low: bool,
    early: u32,
    late: u32,
    byte: u8,
}

/// How lows are drawn: at most so many µs shorter or longer.
#[derive(Clone, Copy)]
struct Lows {
    shorter: u32,
    longer: u32,
}

/// How often what was told.
#[derive(Clone, Copy)]
struct Counts {
    bytes: u32,
    damaged: u32,
    silent: u32,
    wrong: u32,
}

/// One of so many numbers from the least one on.
fn draw(draws: &mut Pcg32, least: u32, count: u32) -> u32 {
    least + draws.next_u32() % count
}

/// A gear that answers in its time. One in two sends this byte, one in two begins within 100 µs of this time and the
/// others within 9 ms, and one in two has half bits of about 416.7 µs and the others any that a sender may have.
fn draw_gear(draws: &mut Pcg32, lows: Lows, byte: u8, begin: u32) -> Gear {
    let other = draw(draws, 0, 256) as u8;
    let byte = if draw(draws, 0, 2) == 0 { other } else { byte };
    let after = if draw(draws, 0, 2) == 0 { 100 } else { 9_000 };
    let half = if draw(draws, 0, 2) == 0 {
        draw(draws, 367, 100)
    } else {
        draw(draws, 414, 6)
    };
    let mut sender = Sender::backward(byte);
    let coming = sender.half();
    Gear {
        sender,
        half,
        begin: begin + draw(draws, 0, after),
        coming,
        is_low: false,
        early: draw(draws, 0, lows.shorter + 1),
        late: draw(draws, 0, lows.longer + 1),
        byte,
    }
}

/// When the level that comes begins, far away if a gear has sent all.
fn next(gear: &Gear) -> u32 {
    match gear.coming {
        Some(false) if gear.is_low => gear.begin + gear.late - gear.early,
        Some(_) => gear.begin,
        None => u32::MAX,
    }
}

/// The level that comes begins.
fn change(gear: &mut Gear) {
    gear.is_low = matches!(gear.coming, Some(true));
    gear.coming = gear.sender.half();
    gear.begin += gear.half;
}

/// What a window tells of a bus that is low while one of them is.
fn heard(gear: &mut [Gear]) -> Option<Answer> {
    let mut window = Window::new();
    let mut last = 0;
    for _ in 0..200u32 {
        let Some(now) = gear.iter().map(|it| next(it)).min() else {
            return None;
        };
        if now == u32::MAX {
            return window.time(60_000);
        }
        for one in gear.iter_mut() {
            if next(one) == now {
                change(one);
            }
        }
        let is_low = gear.iter().any(|it| it.is_low);
        if is_low != window.receiver.is_low {
            window.edge(is_low, now - last);
            last = now;
        }
    }
    None
}

/// Counts what was told: a byte is right if each gear sent it, silence and nothing never.
fn count(counts: &mut Counts, gear: &[Gear], told: Option<Answer>) {
    match told {
        Some(Answer::Byte(byte)) if gear.iter().all(|it| it.byte == byte) => counts.bytes += 1,
        Some(Answer::Damaged) => counts.damaged += 1,
        Some(Answer::Silence) | None => counts.silent += 1,
        Some(Answer::Byte(_)) => counts.wrong += 1,
    }
}

/// Draws so many answers at a time, so often.
fn counted(draws: &mut Pcg32, lows: Lows, together: usize, times: u32) -> Counts {
    let mut counts = Counts {
        bytes: 0,
        damaged: 0,
        silent: 0,
        wrong: 0,
    };
    for _ in 0..times {
        let byte = draw(draws, 0, 256) as u8;
        let begin = draw(draws, 2_400, 1_000);
        let mut all = [
            draw_gear(draws, lows, byte, begin),
            draw_gear(draws, lows, byte, begin),
            draw_gear(draws, lows, byte, begin),
        ];
        let some = &mut all[..together];
        let told = heard(some);
        count(&mut counts, some, told);
    }
    counts
}

/// How many of one, two and three answers are told as the byte that each had sent, with lows as long as they should be,
/// shorter, and longer.
const BYTES: [[u32; 3]; 3] = [[1_000, 19, 3], [278, 13, 3], [694, 3, 1]];

#[test]
fn joint_answers_are_told_as_no_wrong_byte_and_never_as_silence(
    rt: HostRuntime,
) -> Result<(), Fail> {
    let mut draws = Pcg32::seed_from_u64(1);
    let mut bytes = [[0; 3]; 3];
    for (row, (shorter, longer)) in [(0, 0), (250, 0), (0, 100)].iter().enumerate() {
        let lows = Lows {
            shorter: *shorter,
            longer: *longer,
        };
        for together in [1, 2, 3] {
            let counts = counted(&mut draws, lows, together, TIMES);
            same(&rt, &(counts.silent, counts.wrong), &(0, 0));
            same(&rt, &(counts.bytes + counts.damaged), &TIMES);
            bytes[row][together - 1] = counts.bytes;
        }
    }
    same(&rt, &bytes, &BYTES);
    Ok(())
}
