//! A row of gear on one bus: all that a frame reaches take it, in order of their number.

ghost use Rattle.std.specs.Prelude.{◌≡◌, ◌+◌, ◌*◌, ◌<◌, ◌≤◌, ◌&&◌, ◌⊎◌, length, map, replicate, All, IsTrue, None};
ghost use Rattle.std.specs.Prelude.{true, false, IsSome, Some, slice_index_or, slice_set, if◌then◌else◌};
ghost use Rattle.dali_gear.specs.Gear.{fresh};
ghost use Rattle.dali_gear.specs.Row.{reaches, heard_by, one_after};

use crate::addresses::Addresses;
use crate::gear::{Effect, Gear};
use crate::gear_set::GearSet;
use crate::state::InitialisationState;
use dali_frame::{Answer, Random24, SearchAddress, Short};
use dali_special::{Command, Part};
use std::marker::Model;

/// Which gear a frame reaches.
#[derive(Clone, Copy)]
pub enum Reach {
    /// All of them, as an undestroyed frame does.
    Everyone,
    /// Some of them, as a destroyed frame may.
    Only(GearSet),
}

impl Reach {
    /// Whether it reaches the gear of this number, 0 to 127.
    #[inline(always)]
    pub fn includes(&self, number: usize) -> bool
        requires { number < 128 }
        ensures { result ≡ reaches self.now number }
    {
        match self {
            Reach::Everyone => true,
            Reach::Only(set) => (set.bits() >> number) % 2 == 1,
        }
    }
}

/// What came of a frame.
#[derive(Clone, Copy)]
pub struct Heard {
    /// What is heard, if nothing disturbs the backward frames: two or more together are heard as `Damaged`
    /// (this project's profile).
    pub answer: Answer,
    /// How many numbers were drawn.
    pub drawn: usize,
}

/// Gear on one bus, in order of their number, at most 128.
///
/// Contracts see the list of gear. Inside, each variable of all gear stands in an array of its own, so that a frame
/// goes over no more arrays than its command asks for, and the compiler takes many gear at a time.
#[derive(Drop)]
pub struct Row {
    count: usize,
    powered: [bool; 128],
    state: [InitialisationState; 128],
    random: Addresses,
    search: Addresses,
    short: [Option<Short>; 128],
    /// Whether there is a half pair.
    paired: [bool; 128],
    /// The half pair, if there is one.
    first: [Command; 128],
    /// Whether some gear may have a half pair. If none has, as at most frames, none has to be forgotten.
    some_paired: bool,
}

impl Model for Row {
    ghost use Rattle.std.specs.Prelude.{List};
    ghost use Rattle.dali_gear.specs.Gear.{Gear};

    ghost Value = { List Gear };

    ghost use Rattle.dali_gear.specs.Columns.{all_gear, IsRow};

    ghost view = { all_gear };

    ghost invariant = { IsRow };
}

impl Row {
    ghost use Rattle.dali_frame.specs.Random.{MASK24};
    ghost use Rattle.dali_special.specs.declared.command.Command.TheVariants.{Randomise};
    ghost use Rattle.dali_gear.specs.Gear.{draws_a_number, answer, without_power, with_power, addressed};
    ghost use Rattle.dali_gear.specs.Gear.{gear_expired, gear_quieted};
    ghost use Rattle.dali_gear.specs.Row.{row_after, answers_of, heard_of, draws_needed};
    ghost use Rattle.dali_gear.specs.Columns.{IsUnpaired};
    ghost use Rattle.dali_special.specs.Command.{is_send_twice};

    /// So many gear from the factory.
    pub fn new(count: usize) -> Row
        requires { count ≤ 128 }
        ensures { result ≡ replicate count fresh }
    {
        Row {
            count,
            powered: [true; 128],
            state: [InitialisationState::Disabled; 128],
            random: Addresses::masked(),
            search: Addresses::masked(),
            short: [None; 128],
            paired: [false; 128],
            first: [Command::Terminate; 128],
            some_paired: false,
        }
    }

    /// How many gear there are.
    #[tactic(auto, using(crate::proofs::RowLemmas::row_len))]
    pub fn len(&self) -> usize
        ensures value { result ≡ length self.now }
        ensures most { length self.now ≤ 128 }
    {
        self.count
    }

    /// The gear of a number, which must be there.
    #[tactic(auto, using(crate::proofs::RowLemmas::row_len))]
    #[inline(always)]
    pub fn gear(&self, number: usize) -> Gear
        requires { number < length self.now }
        ensures { result ≡ slice_index_or self.now number fresh }
    {
        Gear {
            powered: self.powered[number],
            state: self.state[number],
            random: self.random.get(number).value(),
            search: self.search.get(number),
            short: self.short[number],
            half: if self.paired[number] {
                Some(self.first[number])
            } else {
                None
            },
        }
    }

    /// Writes the variables of a gear but its half pair.
    #[tactic(auto, using(crate::proofs::RowLemmas::row_len))]
    #[inline(always)]
    fn put_variables(&mut self, number: usize, gear: &Gear)
        requires { number < length self.old }
        ensures { self.new ≡ slice_set self.old number
            (record gear.now { half = (slice_index_or self.old number fresh).half }) }
    {
        self.powered[number] = gear.powered;
        self.state[number] = gear.state;
        self.random.set(number, SearchAddress::of(gear.random));
        self.short[number] = gear.short;
        self.search.set(number, gear.search);
    }

    /// The half pair of a gear stays or is gone.
    #[tactic(auto, using(crate::proofs::RowLemmas::row_len))]
    #[inline(always)]
    fn put_pair(&mut self, number: usize, stays: bool)
        requires there { number < length self.old }
        requires one { stays ≡ true → IsSome (slice_index_or self.old number fresh).half }
        ensures { self.new ≡ slice_set self.old number (record (slice_index_or self.old number fresh)
            { half = if stays then (slice_index_or self.old number fresh).half else None }) }
    {
        self.paired[number] = stays;
    }

    /// Writes the variables of a gear, whose half pair is gone or stays.
    #[inline(always)]
    fn put(&mut self, number: usize, gear: Gear)
        requires there { number < length self.old }
        requires half { (gear.half ≡ None) ⊎ (gear.half ≡ (slice_index_or self.old number fresh).half) }
        ensures { self.new ≡ slice_set self.old number gear }
    {
        let stays = gear.half.is_some();
        self.put_variables(number, &gear);
        self.put_pair(number, stays);
    }

    /// Writes a gear after a command that is not send-twice. If `paired` is false, it has no half pair, and had
    /// none.
    #[inline(always)]
    fn put_taken(&mut self, number: usize, gear: &Gear, paired: bool)
        requires there { number < length self.old }
        requires half { (gear.now.half ≡ None) ⊎ (gear.now.half ≡ (slice_index_or self.old number fresh).half) }
        requires unpaired { paired ≡ false → (slice_index_or self.old number fresh).half ≡ None }
        ensures { self.new ≡ slice_set self.old number gear.now }
    {
        self.put_variables(number, gear);
        if paired {
            self.put_pair(number, gear.half.is_some());
        }
    }

    /// A gear has this half pair.
    #[tactic(auto, using(crate::proofs::RowLemmas::row_len))]
    fn pair(&mut self, number: usize, first: Command)
        requires { number < length self.old }
        ensures { self.new
            ≡ slice_set self.old number (record (slice_index_or self.old number fresh) { half = Some first }) }
    {
        self.paired[number] = true;
        self.first[number] = first;
        self.some_paired = true;
    }

    /// Writes all variables of a gear.
    fn set(&mut self, number: usize, gear: Gear)
        requires { number < length self.old }
        ensures { self.new ≡ slice_set self.old number gear }
    {
        let half = gear.half;
        if let Some(first) = half {
            self.pair(number, first);
        }
        self.put(number, gear);
    }

    /// A gear, which must be there, is one that comes with a random and a short address.
    pub fn place(&mut self, number: usize, random: Random24, short: Short)
        requires { number < length self.old }
        ensures { self.new ≡ slice_set self.old number (addressed random short) }
    {
        self.set(number, Gear::addressed(random, short));
    }

    /// A gear, which must be there, loses its power.
    pub fn power_off(&mut self, number: usize)
        requires { number < length self.old }
        ensures { self.new ≡ slice_set self.old number (without_power (slice_index_or self.old number fresh)) }
    {
        let mut gear = self.gear(number);
        gear.power_off();
        self.set(number, gear);
    }

    /// The power of a gear, which must be there, comes back.
    pub fn power_on(&mut self, number: usize)
        requires { number < length self.old }
        ensures { self.new ≡ slice_set self.old number (with_power (slice_index_or self.old number fresh)) }
    {
        let mut gear = self.gear(number);
        gear.power_on();
        self.set(number, gear);
    }

    /// The 15 minutes of the initialisation of a gear, which must be there, are over.
    pub fn expire(&mut self, number: usize)
        requires { number < length self.old }
        ensures { self.new ≡ slice_set self.old number (gear_expired (slice_index_or self.old number fresh)) }
    {
        let mut gear = self.gear(number);
        gear.expire();
        self.set(number, gear);
    }

    /// So much time passes without a frame that half pairs are forgotten.
    pub fn quiet(&mut self)
        ensures { self.new ≡ map gear_quieted self.old }
    {
        for number in 0..self.len() {
            let mut gear = self.gear(number);
            gear.quiet();
            self.put(number, gear);
        }
    }

    /// How many numbers the gear would draw if the frame of this command reached them now: so many `take` needs.
    pub fn draws_needed(&self, command: &Command, reach: Reach) -> usize
        ensures { result ≡ draws_needed reach command.now 0 self.now }
    {
        match *command {
            Command::Randomise => self.draws_of_randomise(reach),
            _ => 0,
        }
    }

    /// How many would draw at RANDOMISE, the one command at which gear draw.
    fn draws_of_randomise(&self, reach: Reach) -> usize
        ensures { result ≡ draws_needed reach Randomise 0 self.now }
    {
        let mut needed = 0;
        for number in 0..self.len() {
            let gear = self.gear(number);
            let draws = gear.would_draw_at(&Command::Randomise) && reach.includes(number);
            needed += usize::from(draws);
        }
        needed
    }

    /// The gear that the frame of this command reaches take it, in order of their number. Those that draw take the
    /// numbers in order: as many as `draws_needed` says must be there, each below `FFFFFF`.
    pub fn take(&mut self, command: &Command, reach: Reach, draws: &[Random24]) -> Heard
        requires enough { draws_needed reach command.now 0 self.old ≤ length draws.now }
        requires below_mask { All (λ r. r < MASK24) draws.now }
        ensures gear { self.new ≡ row_after reach command.now 0 self.old draws.now }
        ensures drawn { result.drawn ≡ draws_needed reach command.now 0 self.old }
        ensures answer { result.answer ≡ heard_of (answers_of reach command.now 0 self.old) }
    {
        if self.some_paired {
            return self.take_command(command, reach, draws);
        }
        match reach {
            Reach::Everyone => self.take_by_command(command, Reach::Everyone, draws),
            Reach::Only(_) => self.take_command(command, reach, draws),
        }
    }

    /// As `take`, if no gear has a half pair. Most frames of a search have an arm of their own: with the command
    /// known, the compiler makes a loop for each that does no more than the command asks.
    #[inline(always)]
    fn take_by_command(&mut self, command: &Command, reach: Reach, draws: &[Random24]) -> Heard
        requires enough { draws_needed reach command.now 0 self.old ≤ length draws.now }
        requires unpaired { IsUnpaired self.old }
        requires below_mask { All (λ r. r < MASK24) draws.now }
        ensures gear { self.new ≡ row_after reach command.now 0 self.old draws.now }
        ensures drawn { result.drawn ≡ draws_needed reach command.now 0 self.old }
        ensures answer { result.answer ≡ heard_of (answers_of reach command.now 0 self.old) }
    {
        match *command {
            Command::Compare => self.take_each(&Command::Compare, reach, draws, false),
            Command::SearchHigh(byte) => {
                self.take_each(&Command::SearchHigh(byte), reach, draws, false)
            }
            Command::SearchMiddle(byte) => {
                self.take_each(&Command::SearchMiddle(byte), reach, draws, false)
            }
            Command::SearchLow(byte) => {
                self.take_each(&Command::SearchLow(byte), reach, draws, false)
            }
            Command::QueryShort => self.take_each(&Command::QueryShort, reach, draws, false),
            Command::Withdraw => self.take_each(&Command::Withdraw, reach, draws, false),
            Command::Verify(short) => self.take_each(&Command::Verify(short), reach, draws, false),
            Command::Program(short) => self.take_each(
                &Command::Program(short),
                reach,
                draws,
                false,
            ),
            Command::RandomByte(short, Part::High) => {
                self.take_each(&Command::RandomByte(short, Part::High), reach, draws, false)
            }
            Command::RandomByte(short, Part::Middle) => {
                self.take_each(
                    &Command::RandomByte(short, Part::Middle),
                    reach,
                    draws,
                    false,
                )
            }
            Command::RandomByte(short, Part::Low) => {
                self.take_each(&Command::RandomByte(short, Part::Low), reach, draws, false)
            }
            Command::Arc(frame) => self.take_each(&Command::Arc(frame), reach, draws, false),
            Command::Other(frame) => self.take_each(&Command::Other(frame), reach, draws, false),
            _ => self.take_command(command, reach, draws),
        }
    }

    /// As `take`, of any command. If no gear has a half pair, and the command leaves none, none is forgotten.
    fn take_command(&mut self, command: &Command, reach: Reach, draws: &[Random24]) -> Heard
        requires enough { draws_needed reach command.now 0 self.old ≤ length draws.now }
        requires below_mask { All (λ r. r < MASK24) draws.now }
        ensures gear { self.new ≡ row_after reach command.now 0 self.old draws.now }
        ensures drawn { result.drawn ≡ draws_needed reach command.now 0 self.old }
        ensures answer { result.answer ≡ heard_of (answers_of reach command.now 0 self.old) }
    {
        if self.some_paired || command.is_send_twice() {
            let heard = self.take_each(command, reach, draws, true);
            self.look_for_pairs();
            heard
        } else {
            self.take_each(command, reach, draws, false)
        }
    }

    /// Looks whether some gear has a half pair still.
    fn look_for_pairs(&mut self)
        ensures { self.new ≡ self.old }
    {
        let mut some = false;
        for number in 0..self.count {
            some |= self.paired[number];
        }
        self.some_paired = some;
    }

    /// One gear after the other. If `paired` is false, none has a half pair, before and afterwards.
    #[inline(always)]
    fn take_each(
        &mut self,
        command: &Command,
        reach: Reach,
        draws: &[Random24],
        paired: bool,
    ) -> Heard
        requires enough { draws_needed reach command.now 0 self.old ≤ length draws.now }
        requires below_mask { All (λ r. r < MASK24) draws.now }
        requires unpaired { paired ≡ false → (is_send_twice command.now ≡ false) × IsUnpaired self.old }
        ensures gear { self.new ≡ row_after reach command.now 0 self.old draws.now }
        ensures drawn { result.drawn ≡ draws_needed reach command.now 0 self.old }
        ensures answer { result.answer ≡ heard_of (answers_of reach command.now 0 self.old) }
    {
        // Both are bytes, as what is compared, so that the compiler takes sixteen gear at a time.
        let mut answers: u8 = 0;
        let mut sum: u8 = 0;
        let mut drawn = 0;
        // No row is longer: the bound tells the compiler that the arrays do not reach into one another.
        for number in 0..self.len().min(128) {
            let effect = self.take_at(
                number,
                command,
                reach.includes(number),
                &draws[drawn..],
                paired,
            );
            answers += u8::from(effect.answer.is_some());
            sum = sum.wrapping_add(effect.answer.unwrap_or(0));
            drawn += usize::from(effect.drew);
        }
        Heard {
            answer: heard_together(answers, sum),
            drawn,
        }
    }

    /// One gear of the row, which a frame reaches or not.
    #[inline(always)]
    fn take_at(
        &mut self,
        number: usize,
        command: &Command,
        reached: bool,
        draws: &[Random24],
        paired: bool,
    ) -> Effect
        requires there { number < length self.old }
        requires unpaired { paired ≡ false → (slice_index_or self.old number fresh).half ≡ None }
        requires enough { IsTrue (((slice_index_or self.old number fresh).powered && reached)
            && draws_a_number command.now (slice_index_or self.old number fresh)) → 0 < length draws.now }
        requires below_mask { All (λ r. r < MASK24) draws.now }
        ensures gear { self.new ≡ slice_set self.old number
            (one_after ((slice_index_or self.old number fresh).powered && reached) command.now draws.now
            (slice_index_or self.old number fresh)) }
        ensures answer { result.answer ≡ (if (slice_index_or self.old number fresh).powered && reached
            then answer command.now (slice_index_or self.old number fresh) else None) }
        ensures drew { result.drew ≡ (((slice_index_or self.old number fresh).powered && reached)
            && draws_a_number command.now (slice_index_or self.old number fresh)) }
    {
        let gear = self.gear(number);
        let taken = gear.powered && reached;
        let after = after_one(&gear, command, taken, draws);
        if command.is_send_twice() {
            self.set(number, after);
        } else {
            self.put_taken(number, &after, paired);
        }
        let answer = gear.answer(command);
        Effect {
            answer: if taken { answer } else { None },
            drew: taken && gear.draws_a_number(command),
        }
    }
}

/// A gear after a command, which it takes or not; it draws the first number, if it draws.
///
/// What it is after the command is made in both cases, so that the compiler takes many gear at a time.
#[inline(always)]
fn after_one(gear: &Gear, command: &Command, taken: bool, draws: &[Random24]) -> Gear
    ensures { result ≡ one_after taken command.now draws.now gear.now }
{
    let draw = match draws.first() {
        Some(draw) => *draw,
        None => gear.random,
    };
    let after = gear.after(command, draw);
    if taken { after } else { *gear }
}

/// What is heard of so many answers. If there is one, `sum` is its byte.
#[inline(always)]
fn heard_together(answers: u8, sum: u8) -> Answer
    ensures { result ≡ heard_by answers sum }
{
    match answers {
        0 => Answer::Silence,
        1 => Answer::Byte(sum),
        _ => Answer::Damaged,
    }
}
