ghost use Rattle.std.specs.Prelude.{◌≡◌, ◌↔◌, ◌==◌, ◌++◌, [], ◌<◌, ◌≤◌, length, true, false, Some, None};
ghost use Rattle.std.specs.Prelude.{IfSome, IfOk, IfErr, IsTrue, Bool, MatchOption, if◌then◌else◌};
ghost use Rattle.dali_special.specs.Command.{command_of};
ghost use Rattle.dali_gear.specs.declared.row.Reach.TheVariants.{Everyone, Only};
ghost use Rattle.dali_gear.specs.Row.{draws_needed, answers_of, heard_of, stored_of};
ghost use Rattle.dali_arbiter.specs.Arbiter.{next, owns, total, bus_lapsed, collision};
ghost use Rattle.dali_script.specs.declared.orders.Order.TheVariants.{Commit};
ghost use Rattle.dali_script.specs.Due.{frame_put};
ghost use Rattle.std.specs.List.{list_any};
ghost use Rattle.dali_events.specs.declared.event.Event.TheVariants as event;
ghost use Rattle.dali_events.specs.Events.{event_of};
ghost use Rattle.dali_events.specs.World.{start};
ghost use Rattle.dali_events.specs.Happens.{is_arc, keeps_bus, gives_up, put_after, told_sent};
ghost use Rattle.dali_events.specs.Happens.{told_destroyed};
ghost use Rattle.dali_events.specs.Allowed.{IsArc, IsDue};
ghost use Rattle.dali_standing.specs.Standing.{seats_from};
ghost use Rattle.dali_standing.specs.Seats.{MayAnswer, LeavesWhole, ReservesUsed, MayReserveUsed, Agrees, trace_of};
ghost use Rattle.dali_standing.specs.Seats.{told_at};
ghost use Rattle.dali_events.specs.Troubles.{heard_under, nobody_at_all};
ghost use Rattle.dali_standing.specs.Settled.{IsAccepted, IsHearing, IsPlacedOn, FollowsItsMachine};
ghost use Rattle.dali_standing.specs.declared.refusal.Refusal.TheVariants as refusal;

use crate::fitted::FittedGear;
use crate::refusal::Refusal;
use crate::seat::Seat;
use dali_arbiter::{Arbiter, Request};
use dali_events::{Outside, Plan, Trouble, Used};
use dali_frame::{Answer, Forward, Priority, Short};
use dali_gear::{GearSet, Reach, Row};
use dali_script::{Block, Input, Kept, Order, Record, Stage};
use dali_special::Command;
use std::alloc::Global;
use std::marker::Model;

/// What stands on a site at one moment: its gear, the requests that wait for its bus, and a place for each controller.
/// The frames of the running transaction are those of the machine that owns the bus.
///
/// Controllers and gear are named by their numbers, which must be there. The caller tests what its call asks for.
/// It tests `Seat::is_up` and `Seat::may_act` before `act`, and `is_crowded` before `act` and `offer`. It tests
/// `next_request` and `is_spent` before a request is sent, destroyed or collides, and `agreement` before `up`.
#[derive(Drop)]
pub struct Standing {
    fitted: FittedGear,
    arbiter: Arbiter,
    seats: Vec<Seat>,
}

impl Model for Standing {
    ghost use Rattle.dali_standing.specs.Standing.{Standing, flat, seated};
    ghost use Rattle.dali_standing.specs.Settled.{Settled};

    ghost Value = { Standing };

    ghost view = { λ s. flat (seated s.fitted s.arbiter s.seats.items) };

    ghost invariant = { λ s. Settled (seated s.fitted s.arbiter s.seats.items) };
}

impl Standing {
    ghost use Rattle.dali_standing.specs.Standing.{Standing, stand_of, machines_at, controller_on, machine_in, Moves};
    ghost use Rattle.dali_standing.specs.Standing.{MayBeSent, MayBefall, WasOrdered};

    /// What stands on a site of this plan at its start. It takes all the memory that it will need. `queue` requests may
    /// wait.
    pub fn new(alloc: Global, plan: &Plan, queue: usize) -> Result<Standing, Refusal>
        requires least { 1 ≤ queue }
        requires most { queue ≤ 1024 }
        ensures ok { IfOk result (λ s. s ≡ stand_of (start plan.now queue) (machines_at 0 plan.now.blocks)) }
        ensures err { IfErr result (λ e. e ≡ refusal.NoMemory) }
    {
        let fitted = FittedGear::new(alloc, plan)?;
        let Ok(arbiter) = Arbiter::new(alloc, queue) else {
            return Err(Refusal::NoMemory);
        };
        let seats = seats(alloc, plan.blocks())?;
        Ok(Standing {
            fitted,
            arbiter,
            seats,
        })
    }

    /// How many controllers the site has.
    pub fn controllers(&self) -> usize
        ensures { result ≡ length self.now.controllers }
    {
        self.seats.len()
    }

    /// A controller's place.
    pub fn seat(&self, c: u8) -> &Seat
        requires { c < length self.now.controllers }
        ensures { result.now.controller ≡ controller_on self.now c }
    {
        &self.seats[c as usize]
    }

    /// The gear, in order of their number.
    pub fn gear(&self) -> &Row
        ensures { result.now ≡ self.now.gear }
    {
        self.fitted.gear()
    }

    /// Which gear stored which short address, in the order of the frames.
    pub fn gifts(&self) -> &[(u32, Short)]
        ensures { result.now ≡ self.now.gifts }
    {
        self.fitted.gifts()
    }

    /// Who owns the bus.
    pub fn owner(&self) -> Option<u8>
        ensures { result ≡ self.now.bus.owner }
    {
        self.arbiter.owner()
    }

    /// Whether no request more may wait.
    pub fn is_crowded(&self) -> bool
        ensures crowded { result ≡ true → total self.now.bus ≡ self.now.bus.capacity }
        ensures room { result ≡ false → total self.now.bus < self.now.bus.capacity }
    {
        self.arbiter.len() == self.arbiter.capacity()
    }

    /// Whether a controller would order, at this input, to reserve a short address that one of these used gear has.
    #[inline(always)]
    pub fn would_reserve_used(&self, c: u8, input: Input, used: &[Used]) -> bool
        requires up { (controller_on self.now c).up ≡ true }
        requires due { IsDue (controller_on self.now c) input }
        ensures yes { result ≡ true → MayReserveUsed used.now (machine_in self.now.machines c) input }
        ensures no { result ≡ false → MayReserveUsed used.now (machine_in self.now.machines c) input → ⊥ }
    {
        // Without used gear no machine is copied.
        if used.is_empty() {
            return false;
        }
        reserves_used(&self.seats[c as usize].would_order(input), used)
    }

    /// A controller acts on an input. What it orders on the bus waits there from now on.
    #[inline(always)]
    pub fn act(&mut self, c: u8, input: Input) -> Order
        requires up { (controller_on self.old c).up ≡ true }
        requires due { IsDue (controller_on self.old c) input }
        requires room { total self.old.bus < self.old.bus.capacity }
        ensures answer { MayAnswer (machine_in self.old.machines c) input result }
        ensures whole { LeavesWhole (machine_in self.old.machines c) input result }
        ensures moves { Moves self.old (event.Acted c input result) self.new }
        ensures placed { IsPlacedOn self.old c }
    {
        let seat = &mut self.seats[c as usize];
        let order = seat.act(input);
        give_up(&mut self.arbiter, c, &order);
        request(&mut self.arbiter, c, &order);
        order
    }

    /// A controller asks to send an arc power frame.
    pub fn offer(&mut self, c: u8, frame: Forward)
        requires up { (controller_on self.old c).up ≡ true }
        requires arc { IsArc frame }
        requires room { total self.old.bus < self.old.bus.capacity }
        ensures { Moves self.old (event.Offered c frame) self.new }
    {
        self.arbiter.offer(c, Priority::ARC, frame).unwrap();
    }

    /// The request that is next, if one is.
    pub fn next_request(&self) -> Option<Request>
        ensures next { result ≡ next self.now.bus }
        ensures may { IfSome result (MayBeSent self.now) }
        ensures ordered { IfSome result (WasOrdered self.now) }
    {
        self.arbiter.pick()
    }

    /// Whether the gear that the frame of a command reaches would draw more numbers than are left.
    pub fn is_spent(&self, command: &Command, reach: Reach) -> bool
        ensures { IsTrue result ↔ (length self.now.left < draws_needed reach command.now 0 self.now.gear) }
    {
        self.fitted.is_spent(command, reach)
    }

    /// The request that is next is sent. Answers what was heard. `command` is the one that the frame is read as.
    #[inline(always)]
    pub fn send(&mut self, request: Request, command: &Command, trouble: Trouble) -> Answer
        requires next { next self.old.bus ≡ Some request }
        requires read { command.now ≡ command_of request.frame }
        requires draws { draws_needed Everyone (command_of request.frame) 0 self.old.gear ≤ length self.old.left }
        requires room { length (self.old.gifts
            ++ stored_of Everyone (command_of request.frame) 0 self.old.gear) ≤ length self.old.gear }
        ensures heard { result
            ≡ heard_under trouble (heard_of (answers_of Everyone (command_of request.frame) 0 self.old.gear)) }
        ensures moves { Moves self.old (event.Sent request.sender request.frame result) self.new }
        ensures goes_on { FollowsItsMachine self.old request }
    {
        let plain = self.fitted.take(command, Reach::Everyone);
        let heard = trouble.heard(plain);
        let owned = owns(&self.arbiter, request.sender);
        let seat = &mut self.seats[request.sender as usize];
        let reached = seat.reached(owned, request.frame, command, heard);
        hear(seat, request.frame, command, heard, &reached);
        let more = seat.goes_on(&reached);
        self.arbiter.sent(more);
        heard
    }

    /// The request that is next is destroyed on the bus. The powered gear of the set take its frame all the same.
    /// `command` is the one that the frame is read as.
    pub fn destroy(&mut self, request: Request, command: &Command, set: GearSet)
        requires next { next self.old.bus ≡ Some request }
        requires read { command.now ≡ command_of request.frame }
        requires draws { draws_needed (Only set) (command_of request.frame) 0 self.old.gear ≤ length self.old.left }
        requires room { length (self.old.gifts
            ++ stored_of (Only set) (command_of request.frame) 0 self.old.gear) ≤ length self.old.gear }
        ensures { Moves self.old (event.Destroyed request.sender request.frame set) self.new }
    {
        self.fitted.take(command, Reach::Only(set));
        self.arbiter.destroyed();
        let seat = &mut self.seats[request.sender as usize];
        lose(seat, request.frame, command);
    }

    /// The request that is next collides with the one behind it in its list, if another controller has put that
    /// there. Else it is destroyed, and no gear takes its frame. Answers the other request. `command` is the one that
    /// the frame is read as.
    pub fn collide(&mut self, request: Request, command: &Command) -> Option<Request>
        requires next { next self.old.bus ≡ Some request }
        requires read { command.now ≡ command_of request.frame }
        requires draws { draws_needed (Only nobody_at_all) (command_of request.frame)
            0 self.old.gear ≤ length self.old.left }
        requires room { length (self.old.gifts
            ++ stored_of (Only nobody_at_all) (command_of request.frame) 0 self.old.gear) ≤ length self.old.gear }
        ensures other { result ≡ collision self.old.bus.lists }
        ensures moves { MatchOption result
            (Moves self.old (event.Destroyed request.sender request.frame nobody_at_all) self.new)
            (λ q. Moves self.old (event.Collided request.sender request.frame q.sender q.frame) self.new) }
    {
        let other = self.arbiter.collided();
        let seat = &mut self.seats[request.sender as usize];
        lose(seat, request.frame, command);
        match &other {
            Some(second) => {
                let seat = &mut self.seats[second.sender as usize];
                lose(seat, second.frame, &Command::read(second.frame));
            }
            None => {
                self.fitted.take(command, Reach::Only(GearSet::NONE));
            }
        }
        other
    }

    /// Something happens from outside.
    pub fn befall(&mut self, what: Outside)
        requires { MayBefall self.old what }
        ensures { Moves self.old (event_of what) self.new }
    {
        match what {
            Outside::Lapse => self.lapse(),
            Outside::Quiet => self.fitted.quiet(),
            Outside::Foreign(frame) => self.fitted.interrupt(frame),
            Outside::Power(number, on) => self.fitted.power(number, on),
            Outside::Expire(number) => self.fitted.expire(number),
            Outside::Down(c) => self.down(c),
        }
    }

    /// The owner, if there is one, loses the bus.
    fn lapse(&mut self)
        ensures { Moves self.old event.Lapsed self.new }
    {
        let owner = self.arbiter.lapse();
        if let Some(c) = owner {
            let seat = &mut self.seats[c as usize];
            seat.lapse();
        }
    }

    /// A controller goes down. Its requests leave, and its ownership ends.
    fn down(&mut self, c: u8)
        requires { (controller_on self.old c).up ≡ true }
        ensures { Moves self.old (event.Down c) self.new }
    {
        self.arbiter.silence(c);
        let seat = &mut self.seats[c as usize];
        seat.down();
    }

    /// Whether a copy of records is what the controller keeps, without the outstanding record (false) or with it
    /// (true).
    pub fn agreement(&self, c: u8, copy: &Kept) -> Option<bool>
        requires { c < length self.now.controllers }
        ensures { MatchOption result
            ((kept : Bool) → Agrees (controller_on self.now c) copy.now kept → ⊥)
            (λ kept. Agrees (controller_on self.now c) copy.now kept) }
    {
        self.seats[c as usize].agreement(copy)
    }

    /// A controller comes up with a copy of what it keeps.
    pub fn up(&mut self, c: u8, copy: &Kept)
        requires known { c < length self.old.controllers }
        requires down { (controller_on self.old c).up ≡ false }
        requires agrees { (kept : Bool) × Agrees (controller_on self.old c) copy.now kept }
        ensures { (kept : Bool)
            → Agrees (controller_on self.old c) copy.now kept → Moves self.old (event.Up c kept) self.new }
    {
        let seat = &mut self.seats[c as usize];
        seat.up(c, copy);
    }
}

/// The places of controllers with these blocks, before their start.
fn seats(alloc: Global, blocks: &[Block]) -> Result<Vec<Seat>, Refusal>
    requires { length blocks.now ≤ 4 }
    ensures ok { IfOk result (λ seats. seats.items ≡ seats_from 0 blocks.now) }
    ensures err { IfErr result (λ e. e ≡ refusal.NoMemory) }
{
    let mut seats = Vec::with_capacity(alloc, blocks.len())?;
    for (c, block) in blocks.iter().enumerate() {
        seats.push_reserved(Seat::new(c as u8, *block));
    }
    Ok(seats)
}

/// Whether an order is to reserve a short address that one of these used gear has.
fn reserves_used(order: &Order, used: &[Used]) -> bool
    ensures yes { result ≡ true → ReservesUsed used.now order.now }
    ensures no { result ≡ false → ReservesUsed used.now order.now → ⊥ }
{
    match order {
        Order::Commit(added) => has_used(added, used),
        Order::Put(..) | Order::Done(_) | Order::Halt(_) => false,
    }
}

/// Whether a record reserves a short address that one of these used gear has.
#[tactic(auto, using(crate::proofs::InUse::in_use, crate::proofs::InUse::not_in_use))]
fn has_used(added: &Record, used: &[Used]) -> bool
    ensures yes { result ≡ true → ReservesUsed used.now (Commit added.now) }
    ensures no { result ≡ false → ReservesUsed used.now (Commit added.now) → ⊥ }
{
    match added {
        Record::Reserve(short, _) => is_in_use(*short, used),
        Record::Enrol(..) | Record::Release(..) => false,
    }
}

/// Whether one of these used gear has a short address.
fn is_in_use(short: Short, used: &[Used]) -> bool
    ensures { result ≡ list_any (λ u. u.short == short) used.now }
{
    used.iter().any(|one| one.short == short)
}

/// Whether a controller owns the bus.
fn owns(arbiter: &Arbiter, c: u8) -> bool
    ensures { result ≡ owns arbiter.now.owner c }
{
    arbiter.owner() == Some(c)
}

/// Whether a controller that owns the bus keeps it with this order.
fn keeps_bus(order: &Order) -> bool
    ensures { result ≡ keeps_bus order.now }
{
    match order {
        Order::Put(priority, _) => *priority == Priority::LATER,
        Order::Commit(_) | Order::Done(_) | Order::Halt(_) => false,
    }
}

/// The owner gives up the bus with any order but a later frame of its transaction.
#[inline(always)]
fn give_up(arbiter: &mut Arbiter, c: u8, order: &Order)
    ensures { arbiter.new ≡ (if gives_up arbiter.old c order.now then bus_lapsed arbiter.old else arbiter.old) }
{
    if owns(arbiter, c) && !keeps_bus(order) {
        arbiter.lapse();
    }
}

/// A frame that is ordered waits for the bus.
#[inline(always)]
fn request(arbiter: &mut Arbiter, c: u8, order: &Order)
    requires { IsAccepted arbiter.old c order.now }
    ensures { arbiter.new ≡ put_after arbiter.old c order.now }
{
    if let Order::Put(priority, frame) = order {
        arbiter.offer(c, *priority, *frame).unwrap();
    }
}

/// Whether a command is direct arc power, of which a controller is told nothing.
fn is_arc(command: &Command) -> bool
    ensures { result ≡ is_arc command.now }
{
    matches!(*command, Command::Arc(_))
}

/// Whether a frame is direct arc power.
pub fn is_arc_power(frame: Forward) -> bool
    ensures { IsTrue result ↔ IsArc frame }
{
    is_arc(&Command::read(frame))
}

/// The sender of a frame is told what was heard. `reached` is how far its transaction is, with this frame.
#[tactic(auto, using(crate::proofs::Settling::arc_tells))]
#[inline(always)]
fn hear(seat: &mut Seat, frame: Forward, command: &Command, heard: Answer, reached: &Stage)
    requires read { command.now ≡ command_of frame }
    requires hearing { IsHearing seat.old frame heard reached.now }
    ensures { seat.new ≡ told_at (told_sent (trace_of seat.old.machine) frame heard) seat.old }
{
    if !is_arc(command) {
        seat.hear(frame, heard, reached);
    }
}

/// The sender of a frame is told that it was destroyed.
#[tactic(auto, using(crate::proofs::Settling::arc_loses))]
fn lose(seat: &mut Seat, frame: Forward, command: &Command)
    requires read { command.now ≡ command_of frame }
    requires put { is_arc (command_of frame) ≡ false → frame_put seat.old.controller.last ≡ Some frame }
    ensures { seat.new ≡ told_at (told_destroyed frame) seat.old }
{
    if !is_arc(command) {
        seat.lose();
    }
}
