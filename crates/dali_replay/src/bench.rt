//! A bench: gear on one bus, and the numbers that they will draw.

ghost use Rattle.std.specs.Prelude.{◌≡◌, ◌<◌, Some, None, length, nat_lt, if◌then◌else◌};
ghost use Rattle.dali_special.specs.Command.{command_of};
ghost use Rattle.dali_gear.specs.Gear.{without_power, with_power, gear_expired};
ghost use Rattle.dali_gear.specs.Row.{answers_of, heard_of};
ghost use Rattle.dali_gear.specs.declared.row.Reach.TheVariants.{Everyone};

use dali_frame::{Answer, Forward};
use dali_gear::{Reach, Row};
use dali_special::Command;
use dali_world::Plan;
use std::marker::Model;

/// Gear on one bus, and the numbers that are left to be drawn.
#[derive(Drop)]
pub struct Bench {
    plan: Plan,
    gear: Row,
    drawn: usize,
}

impl Model for Bench {
    ghost use Rattle.std.specs.Prelude.{◌≤◌, drop, length};
    ghost use Rattle.dali_replay.specs.Bench.{BenchState};

    ghost Value = { BenchState };

    ghost view = { λ b. record { gear = b.gear; left = drop b.drawn b.plan.draws } };

    ghost invariant = { λ b. b.drawn ≤ length b.plan.draws };
}

impl Bench {
    ghost use Rattle.dali_replay.specs.Bench.{start, is_enough, after_command, with_gear, after};
    ghost use Rattle.dali_grammar.specs.declared.bench_line.BenchLine.TheVariants.{Quiet};

    /// The gear of a plan, as they are at the start.
    pub fn new(plan: Plan) -> Bench
        ensures { result ≡ start plan }
    {
        let gear = plan.row();
        Bench {
            plan,
            gear,
            drawn: 0,
        }
    }

    /// The gear, in order of their number.
    pub fn gear(&self) -> &Row
        ensures { result.now ≡ self.now.gear }
    {
        &self.gear
    }

    /// All powered gear take a frame; what is heard. `None` if too few numbers are left to be drawn: then no gear takes
    /// it.
    pub fn send(&mut self, frame: Forward) -> Option<Answer>
        ensures world { self.new ≡ after_command self.old (command_of frame) }
        ensures answer { result
            ≡ (if is_enough self.old (command_of frame)
            then Some (heard_of (answers_of Everyone (command_of frame) 0 self.old.gear)) else None) }
    {
        let command = Command::read(frame);
        let left = &self.plan.draws()[self.drawn..];
        if self.gear.draws_needed(&command, Reach::Everyone) > left.len() {
            return None;
        }
        let heard = self.gear.take(&command, Reach::Everyone, left);
        self.drawn += heard.drawn;
        Some(heard.answer)
    }

    /// Gear g loses its power. False if there is no such gear.
    pub fn off(&mut self, g: u32) -> bool
        ensures world { self.new ≡ with_gear self.old g without_power }
        ensures known { result ≡ nat_lt g (length self.old.gear) }
    {
        let number = g as usize;
        if number >= self.gear.len() {
            return false;
        }
        self.gear.power_off(number);
        true
    }

    /// The power of gear g comes back. False if there is no such gear.
    pub fn on(&mut self, g: u32) -> bool
        ensures world { self.new ≡ with_gear self.old g with_power }
        ensures known { result ≡ nat_lt g (length self.old.gear) }
    {
        let number = g as usize;
        if number >= self.gear.len() {
            return false;
        }
        self.gear.power_on(number);
        true
    }

    /// The initialisation of gear g ends by its timer. False if there is no such gear.
    pub fn expire(&mut self, g: u32) -> bool
        ensures world { self.new ≡ with_gear self.old g gear_expired }
        ensures known { result ≡ nat_lt g (length self.old.gear) }
    {
        let number = g as usize;
        if number >= self.gear.len() {
            return false;
        }
        self.gear.expire(number);
        true
    }

    /// All gear forget their half pairs.
    pub fn quiet(&mut self)
        ensures { self.new ≡ after self.old Quiet }
    {
        self.gear.quiet();
    }
}
