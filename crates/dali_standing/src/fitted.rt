ghost use Rattle.std.specs.Prelude.{◌≡◌, ◌↔◌, ◌<◌, ◌≤◌, ◌++◌, [], length, map, true, IfOk};
ghost use Rattle.std.specs.Prelude.{IfErr, IsTrue};
ghost use Rattle.std.specs.Vec.{vec_capacity};
ghost use Rattle.dali_gear.specs.Gear.{gear_expired, gear_quieted};
ghost use Rattle.dali_gear.specs.Row.{draws_needed, answers_of, heard_of, stored_short, stored_of};
ghost use Rattle.dali_events.specs.Used.{earlier_gift};
ghost use Rattle.dali_events.specs.Plan.{Plan};
ghost use Rattle.dali_events.specs.World.{gear_changed};
ghost use Rattle.dali_events.specs.Foreign.{is_foreign};
ghost use Rattle.dali_events.specs.Happens.{gear_powered, gear_interrupted};
ghost use Rattle.dali_standing.specs.FittedGear.{gift_of};
ghost use Rattle.dali_standing.specs.declared.refusal.Refusal.TheVariants as refusal;

use crate::refusal::Refusal;
use dali_events::{Plan, Used};
use dali_frame::{Answer, Forward, Random24, Short};
use dali_gear::{Gear, Reach, Row};
use dali_special::Command;
use std::alloc::Global;
use std::marker::Model;

/// The gear of a site, with the numbers that they draw and the short addresses that they were given.
#[derive(Drop)]
pub(crate) struct FittedGear {
    gear: Row,
    draws: Vec<Random24>,
    used: usize,
    gifts: Vec<(u32, Short)>,
}

impl Model for FittedGear {
    ghost use Rattle.std.specs.Prelude.{◌≤◌, ◌<◌, drop, length, All};
    ghost use Rattle.std.specs.Vec.{vec_capacity};
    ghost use Rattle.dali_frame.specs.Random.{MASK24};
    ghost use Rattle.dali_standing.specs.FittedGear.{FittedGear};

    ghost Value = { FittedGear };

    ghost view = { λ f. record { gear = f.gear; left = drop f.used f.draws.items; gifts = f.gifts.items } };

    ghost invariant = { λ f. (f.used ≤ length f.draws.items) × (length f.draws.items ≤ 1024)
        × All (λ r. r < MASK24) f.draws.items × (length f.gear ≤ vec_capacity f.gifts) };
}

impl FittedGear {
    ghost use Rattle.dali_standing.specs.FittedGear.{FittedGear, fitted_at, taken_at, changed_at};

    /// The gear of a plan, as they are at the start. It takes all the memory that it will need.
    pub(crate) fn new(alloc: Global, plan: &Plan) -> Result<FittedGear, Refusal>
        ensures ok { IfOk result (λ f. f ≡ fitted_at plan.now) }
        ensures err { IfErr result (λ e. e ≡ refusal.NoMemory) }
    {
        let gear = plan.row();
        let draws = Vec::from_slice(alloc, plan.draws())?;
        let mut gifts = Vec::with_capacity(alloc, gear.len())?;
        note_used(&mut gifts, plan.used());
        Ok(FittedGear {
            gear,
            draws,
            used: 0,
            gifts,
        })
    }

    /// Whether the gear that the frame of this command reaches would draw more numbers than are left.
    pub(crate) fn is_spent(&self, command: &Command, reach: Reach) -> bool
        ensures { IsTrue result ↔ (length self.now.left < draws_needed reach command.now 0 self.now.gear) }
    {
        self.draws.len() - self.used < self.gear.draws_needed(command, reach)
    }

    /// The gear that the frame of this command reaches take it. Answers what is heard if nothing disturbs the backward
    /// frames.
    #[inline(always)]
    pub(crate) fn take(&mut self, command: &Command, reach: Reach) -> Answer
        requires draws { draws_needed reach command.now 0 self.old.gear ≤ length self.old.left }
        requires room { length (self.old.gifts
            ++ stored_of reach command.now 0 self.old.gear) ≤ length self.old.gear }
        ensures state { self.new ≡ taken_at reach command.now self.old }
        ensures answer { result ≡ heard_of (answers_of reach command.now 0 self.old.gear) }
    {
        note_gifts(&mut self.gifts, &self.gear, command, &reach);
        let heard = self.gear.take(command, reach, &self.draws[self.used..]);
        self.used += heard.drawn;
        heard.answer
    }

    /// A gear's power comes or goes.
    pub(crate) fn power(&mut self, number: u32, on: bool)
        requires { number < length self.old.gear }
        ensures { self.new ≡ changed_at (gear_changed self.old.gear number (gear_powered on)) self.old }
    {
        if on {
            self.gear.power_on(number as usize);
        } else {
            self.gear.power_off(number as usize);
        }
    }

    /// The 15 minutes of a gear's initialisation are over.
    pub(crate) fn expire(&mut self, number: u32)
        requires { number < length self.old.gear }
        ensures { self.new ≡ changed_at (gear_changed self.old.gear number gear_expired) self.old }
    {
        self.gear.expire(number as usize);
    }

    /// So much time passes without a frame that half pairs are forgotten.
    pub(crate) fn quiet(&mut self)
        ensures { self.new ≡ changed_at (map gear_quieted self.old.gear) self.old }
    {
        self.gear.quiet();
    }

    /// A frame of another device comes to all gear with power.
    #[tactic(auto, using(dali_events::proofs::Interrupted::row, dali_events::proofs::Interrupted::draws))]
    pub(crate) fn interrupt(&mut self, frame: Forward)
        requires { is_foreign frame ≡ true }
        ensures { self.new ≡ changed_at (map gear_interrupted self.old.gear) self.old }
    {
        let command = Command::read(frame);
        self.gear.take(&command, Reach::Everyone, &[]);
    }

    /// All gear, in order of their number.
    pub(crate) fn gear(&self) -> &Row
        ensures { result.now ≡ self.now.gear }
    {
        &self.gear
    }

    /// Which gear stored which short address, in the order of the frames.
    pub(crate) fn gifts(&self) -> &[(u32, Short)]
        ensures { result.now ≡ self.now.gifts }
    {
        &self.gifts
    }
}

/// Notes the short addresses that used gear come with.
fn note_used(gifts: &mut Vec<(u32, Short)>, used: &[Used])
    requires none { gifts.old.items ≡ [] }
    requires room { length used.now ≤ vec_capacity gifts.old }
    ensures gifts { gifts.new.items ≡ map earlier_gift used.now }
    ensures capacity { vec_capacity gifts.new ≡ vec_capacity gifts.old }
{
    for one in used {
        gifts.push_reserved((one.gear, one.short));
    }
}

/// The short address that a gear with power stores at this command.
fn stored(gear: &Gear, command: &Command) -> Option<Short>
    ensures { result ≡ stored_short command.now gear.now }
{
    match *command {
        Command::Program(Some(short)) if gear.is_selected() => Some(short),
        _ => None,
    }
}

/// The short address that gear `number` stores at this command, if it takes it.
fn gift(gear: &Gear, number: usize, command: &Command, reach: &Reach) -> Option<Short>
    requires { number < 128 }
    ensures { result ≡ gift_of reach.now command.now number gear.now }
{
    if gear.is_powered() && reach.includes(number) {
        stored(gear, command)
    } else {
        None
    }
}

/// Notes which gear will store which short address at this command.
fn note_gifts(gifts: &mut Vec<(u32, Short)>, gear: &Row, command: &Command, reach: &Reach)
    requires room { length (gifts.old.items ++ stored_of reach.now command.now 0 gear.now) ≤ vec_capacity gifts.old }
    ensures gifts { gifts.new.items ≡ gifts.old.items ++ stored_of reach.now command.now 0 gear.now }
    ensures capacity { vec_capacity gifts.new ≡ vec_capacity gifts.old }
{
    match *command {
        Command::Program(_) => note_stored(gifts, gear, command, reach),
        _ => {}
    }
}

/// Notes which gear will store which short address at PROGRAM SHORT ADDRESS, the one command at which gear store one.
fn note_stored(gifts: &mut Vec<(u32, Short)>, gear: &Row, command: &Command, reach: &Reach)
    requires room { length (gifts.old.items ++ stored_of reach.now command.now 0 gear.now) ≤ vec_capacity gifts.old }
    ensures gifts { gifts.new.items ≡ gifts.old.items ++ stored_of reach.now command.now 0 gear.now }
    ensures capacity { vec_capacity gifts.new ≡ vec_capacity gifts.old }
{
    for number in 0..gear.len() {
        let one = gear.gear(number);
        if let Some(short) = gift(&one, number, command, reach) {
            gifts.push_reserved((number as u32, short));
        }
    }
}
