ghost use Rattle.std.specs.Prelude.{◌≡◌, ◌+◌, ◌<◌, ◌≤◌, length, map, true, false, Some, None, OnOk, IfOk, OnErr};
ghost use Rattle.std.specs.Prelude.{IfErr, IfSome, IsTrue, ◌↔◌, ◌++◌, ◌∷◌, [], vec_len, MatchOption, slice_index_or};
ghost use Rattle.std.specs.Prelude.{List, slice_set};
ghost use Rattle.std.specs.Vec.{vec_capacity};
ghost use Rattle.dali_special.specs.Command.{command_of};
ghost use Rattle.dali_events.specs.declared.event.Event.TheVariants as event;
ghost use Rattle.dali_events.specs.Foreign.{is_foreign};
ghost use Rattle.dali_events.specs.World.{gear_at, controller_at};
ghost use Rattle.dali_events.specs.Allowed.{IsUp, MaySend};
ghost use Rattle.dali_statement.specs.Page.{Moment, KeepsPromise as KeepsPagePromise};
ghost use Rattle.dali_events.specs.Page.{plan_seen, IsReadAs};
ghost use Rattle.dali_events.specs.Runs.{IsRun};
ghost use Rattle.dali_events.specs.Promise.{KeepsPromise, IsSafe, IsSafeHistory};
ghost use Rattle.dali_events.specs.Laws.{TablesAgree, KeepsRecords};
ghost use Rattle.dali_script.specs.Records.{IsOnce, Fits};
ghost use Rattle.dali_script.specs.Due.{record_ordered};
ghost use Rattle.dali_events.specs.Plan.{block_at};
ghost use Rattle.dali_script.specs.declared.orders.Order.TheVariants as order;
ghost use Rattle.dali_script.specs.declared.orders.Fault.TheVariants as fault;
ghost use Rattle.dali_script.specs.declared.orders.End.TheVariants.{AllFound};
ghost use Rattle.dali_controller.specs.Machine.{Machine};
ghost use Rattle.dali_controller.specs.declared.way.Way.TheVariants.{Surveying};
ghost use Rattle.dali_script.specs.Table.{table_of};
ghost use Rattle.dali_events.specs.declared.trouble.Trouble.TheVariants as trouble;
ghost use Rattle.dali_standing.specs.declared.refusal.Refusal.TheVariants as refusal;

use crate::receipt::Receipt;
use dali_arbiter::Request;
use dali_events::{Event, Outside, Plan, Trouble, is_foreign};
use dali_frame::{Forward, Short};
use dali_gear::{Gear, GearSet};
use dali_script::{Due, Input, Kept, Record, Table};
use dali_special::Command;
use dali_standing::{Refusal, Report, Standing, is_arc_power};
use std::alloc::Global;
use std::marker::Model;

/// A site: its gear, its bus and its controllers, with a log of all that happened on it.
///
/// Its calls are of four kinds. Controllers: `act`, `arc`, `up`. The bus: `pump`. What happens from outside: `befall`,
/// and a separate call for each kind but a foreign frame: `lapse`, `quiet`, `power`, `expire`, `down`.
///
/// Readers change nothing. `next`, `due` and `ordered` say what a controller may act on. `idle` says whether a request
/// waits for `pump`, and `is_crowded` whether none more may wait. `log`, `gear`, `kept`, `table`, `gifts`, `owner` and
/// `plan` show what there is. `is_safe` says what is promised.
///
/// A site in use: each controller that has something due acts, then `pump`, and so on. When an act ordered a `Commit`,
/// the record is stored and `Committed` acted on. Nothing promises that this ends: bound the loop.
///
/// Contracts see the plan, the two capacities and the log, from which everything else follows. Each accepted call adds
/// one event to the log; a refusal changes nothing.
#[derive(Drop)]
pub struct SiteState {
    plan: Plan,
    queue: usize,
    room: usize,
    log: Vec<Event>,
    shares: [u32; 4],
    standing: Standing,
}

impl Model for SiteState {
    ghost use Rattle.std.specs.Vec.{vec_capacity};
    ghost use Rattle.dali_world.specs.Site.{SiteState, IsSite};

    ghost Value = { SiteState };

    ghost view = { λ s. record { plan = s.plan; queue = s.queue; room = s.room; log = s.log.items } };

    ghost invariant = { λ s. IsSite (record { plan = s.plan; queue = s.queue; room = s.room; log = s.log.items })
        s.standing s.shares (vec_capacity s.log) };
}

impl SiteState {
    ghost use Rattle.dali_arbiter.specs.declared.request.Request.{Request};
    ghost use Rattle.dali_standing.specs.Seats.{due_of, Waits};
    ghost use Rattle.dali_world.specs.Site.{SiteState, world, opened_site, site_logged, machine_at, share_of, IsSound};
    ghost use Rattle.dali_world.specs.Site.{Acts, IsArcRefused, IsDownRefused, IsUpRefused, IsGearRefused, IsBarred};
    ghost use Rattle.dali_world.specs.Site.{Befalls, IsBefallRefused, IsOutside, IsLogFull};
    ghost use Rattle.dali_world.specs.Site.{IsFull, IsCrowded, HasRoom, Pumps, IsPumpRefused, next_request, Logs};
    ghost use Rattle.dali_world.specs.Site.{LogsRequest, IsUpWith, IsSpent, IsSendable, Becomes, WasOrdered};
    ghost use Rattle.dali_world.specs.Site.{RollWasCalled};

    /// A site of this plan, on which nothing happened yet. All controllers are up, and keep nothing.
    ///
    /// Its log has room for `log_capacity` events, 1 to 65,536, and `queue_capacity` requests may wait, 1 to 1,024. All
    /// memory is taken here. A refusal drops the plan.
    pub fn new(
        alloc: Global,
        plan: Plan,
        log_capacity: usize,
        queue_capacity: usize,
    ) -> Result<SiteState, Refusal>
        requires log { (1 ≤ log_capacity) × (log_capacity ≤ 65536) }
        requires queue { (1 ≤ queue_capacity) × (queue_capacity ≤ 1024) }
        ensures ok { IfOk result (λ site. site ≡ opened_site plan queue_capacity log_capacity) }
        ensures refused { IfErr result (λ e. e ≡ refusal.NoMemory) }
    {
        let standing = Standing::new(alloc, &plan, queue_capacity)?;
        let log = Vec::with_capacity(alloc, log_capacity)?;
        Ok(SiteState {
            plan,
            queue: queue_capacity,
            room: log_capacity,
            log,
            shares: [0; 4],
            standing,
        })
    }

    /// A controller acts on an input: on what `next` says, or on the outcome of its Commit if `due` is Store. Its
    /// frame waits for the bus from now on.
    ///
    /// It never orders `Halt(Conflict)`: a finding and an entry of a table are both true of the gear for good. A record
    /// that it orders fits the block that the plan gives to the controller.
    ///
    /// Refusals, in this order: 1 UnknownController, 2 ControllerDown, 3 NotDue, 7 QueueFull (whatever it would order),
    /// 8 LogFull, 10 AddressInUse. The last means that it would order to reserve a short address that used gear have. A
    /// machine that surveys reserves no address under which it heard an answer.
    #[tactic(auto, unfolding(crate::specs::Site::Acts))]
    #[inline(always)]
    pub fn act(&mut self, c: u8, input: Input) -> Result<Receipt, Refusal>
        ensures sound { IsSound self.old }
        ensures answer { Acts self.old c input result self.new }
        ensures step { IfOk result (λ receipt. (c < 4)
            × (self.new ≡ site_logged self.old (event.Acted c input receipt.order))) }
        ensures receipt { IfOk result (λ receipt. (receipt.controller ≡ c) × (receipt.input ≡ input)
            × (receipt.number ≡ share_of c self.old.log + 1)) }
        ensures agreed { IfOk result (λ receipt. receipt.order ≡ order.Halt fault.Conflict → ⊥) }
        ensures fits { IfOk result
            (λ receipt. IfSome (record_ordered (Some receipt.order)) (Fits (block_at self.old.plan c))) }
        // So each cause of an end is told of the records that `kept` reads.
        ensures records { IfOk result (λ receipt. (m : Machine) → machine_at self.old c ≡ Some m
            → m.kept ≡ (controller_at (world self.old) c).records) }
        ensures waits { IfOk result (λ receipt. Waits (machine_at self.old c) input) }
        // A survey that ends with all-found called the roll twice before it closed, and no gear was heard.
        ensures found { IfOk result (λ receipt. (m : Machine) → machine_at self.old c ≡ Some m
            → m.course.way ≡ Surveying → receipt.order ≡ order.Done AllFound → RollWasCalled self.old c) }
        ensures unchanged { OnErr result (self.new ≡ self.old) }
    {
        self.check_up(c)?;
        if !self.standing.seat(c).may_act(input) {
            return Err(Refusal::NotDue);
        }
        if self.standing.is_crowded() {
            return Err(Refusal::QueueFull);
        }
        self.check_room()?;
        if self.standing.would_reserve_used(c, input, self.plan.used()) {
            return Err(Refusal::AddressInUse);
        }
        let order = self.standing.act(c, input);
        // A copy, since the event is lent.
        let ordered = order;
        append(&mut self.log, &Event::Acted(c, input, ordered));
        let number = count(&mut self.shares, c);
        Ok(Receipt::new(c, input, order, number))
    }

    /// A controller asks to send a frame of direct arc power. Its machine hears nothing of it.
    ///
    /// Refusals, in this order: 1 UnknownController, 2 ControllerDown, 4 NotArc, 7 QueueFull, 8 LogFull.
    pub fn arc(&mut self, c: u8, frame: Forward) -> Result<(), Refusal>
        ensures offered { OnOk result (LogsRequest self.old (event.Offered c frame) self.new) }
        ensures refused { IfErr result (λ e. IsArcRefused self.old c frame e) }
        ensures unchanged { OnErr result (self.new ≡ self.old) }
    {
        self.check_up(c)?;
        if !is_arc_power(frame) {
            return Err(Refusal::NotArc);
        }
        if self.standing.is_crowded() {
            return Err(Refusal::QueueFull);
        }
        self.check_room()?;
        self.standing.offer(c, frame);
        append(&mut self.log, &Event::Offered(c, frame));
        count(&mut self.shares, c);
        Ok(())
    }

    /// The request that is next comes on the bus, if one is; a trouble may disturb it. The gear that have power and
    /// that the frame reaches take it, in order of their number, and draw the plan's next numbers.
    ///
    /// Without a request it answers `Idle` before any refusal, and logs nothing. Refusals, in this order: 6 DrawsSpent,
    /// 8 LogFull.
    #[inline(always)]
    pub fn pump(&mut self, trouble: Trouble) -> Result<Report, Refusal>
        ensures pumped { IfOk result (λ report. Pumps self.old trouble report self.new) }
        // So what is sent or destroyed, but direct arc power, is what its sender ordered last.
        ensures ordered { (r : Request) → next_request self.old ≡ Some r → WasOrdered self.old r.sender r.frame }
        ensures refused { IfErr result (λ e. IsPumpRefused self.old trouble e) }
        ensures unchanged { OnErr result (self.new ≡ self.old) }
    {
        let Some(request) = self.standing.next_request() else {
            return Ok(Report::Idle);
        };
        let command = Command::read(request.frame);
        if self.standing.is_spent(&command, trouble.reach()) {
            return Err(Refusal::DrawsSpent);
        }
        self.check_room()?;
        match trouble {
            Trouble::Destroyed(set) => Ok(self.destroy(request, &command, set)),
            Trouble::Collision => Ok(self.collide(request, &command)),
            Trouble::None | Trouble::AnswerLost | Trouble::Noise => Ok(self.send(
                request, &command, trouble,
            )),
        }
    }

    /// Something happens from outside. No controller is told of it but the owner that loses the bus, if there is one.
    ///
    /// Refusals, in this order: 1 UnknownGear or UnknownController, 2 ControllerDown, 8 LogFull, 11 NotForeign. The
    /// last means that a frame of another device is an addressing command, or RESET or SET SHORT ADDRESS, which change
    /// addresses.
    pub fn befall(&mut self, what: Outside) -> Result<(), Refusal>
        ensures befell { OnOk result (Befalls self.old what self.new) }
        ensures refused { IfErr result (IsBefallRefused self.old what) }
        ensures unchanged { OnErr result (self.new ≡ self.old) }
    {
        self.check_outside(what)?;
        self.standing.befall(what);
        append(&mut self.log, &what.event());
        Ok(())
    }

    /// The owner loses the bus, and is told so in place of what it has not acted on. Answers the owner, if any.
    ///
    /// Refusal: 8 LogFull.
    pub fn lapse(&mut self) -> Result<Option<u8>, Refusal>
        ensures lapsed { IfOk result (λ owner. (owner ≡ (world self.old).bus.owner)
            × Logs self.old event.Lapsed self.new) }
        ensures refused { IfErr result (λ e. (e ≡ refusal.LogFull) × IsFull self.old) }
        ensures unchanged { OnErr result (self.new ≡ self.old) }
    {
        let owner = self.owner();
        self.befall(Outside::Lapse)?;
        Ok(owner)
    }

    /// The bus is quiet for so long that half of a send-twice pair is forgotten.
    ///
    /// Refusal: 8 LogFull.
    pub fn quiet(&mut self) -> Result<(), Refusal>
        ensures quiet { OnOk result (Logs self.old event.Quiet self.new) }
        ensures refused { IfErr result (λ e. (e ≡ refusal.LogFull) × IsFull self.old) }
        ensures unchanged { OnErr result (self.new ≡ self.old) }
    {
        self.befall(Outside::Quiet)
    }

    /// A gear's power comes (true) or goes.
    ///
    /// Refusals, in this order: 1 UnknownGear, 8 LogFull.
    pub fn power(&mut self, number: u32, on: bool) -> Result<(), Refusal>
        ensures powered { OnOk result ((number < self.old.plan.gear) × Logs self.old (event.Power number on) self.new) }
        ensures refused { IfErr result (λ e. IsGearRefused self.old number e) }
        ensures unchanged { OnErr result (self.new ≡ self.old) }
    {
        self.befall(Outside::Power(number, on))
    }

    /// The 15 minutes of a gear's initialisation are over.
    ///
    /// Refusals, in this order: 1 UnknownGear, 8 LogFull.
    pub fn expire(&mut self, number: u32) -> Result<(), Refusal>
        ensures expired { OnOk result ((number < self.old.plan.gear) × Logs self.old (event.Expired number) self.new) }
        ensures refused { IfErr result (λ e. IsGearRefused self.old number e) }
        ensures unchanged { OnErr result (self.new ≡ self.old) }
    {
        self.befall(Outside::Expire(number))
    }

    /// A controller goes down: its machine, its requests and its ownership go. What it keeps stays remembered, and so
    /// does the record that is outstanding.
    ///
    /// Refusals, in this order: 1 UnknownController, 2 ControllerDown, 8 LogFull.
    pub fn down(&mut self, c: u8) -> Result<(), Refusal>
        ensures down { OnOk result (Logs self.old (event.Down c) self.new) }
        ensures refused { IfErr result (λ e. IsDownRefused self.old c e) }
        ensures unchanged { OnErr result (self.new ≡ self.old) }
    {
        self.befall(Outside::Down(c))
    }

    /// A controller comes up with a copy of its records: those that it kept, or these with the one that was
    /// outstanding. Its machine starts anew.
    ///
    /// Refusals, in this order: 1 UnknownController, 2 ControllerUp, 5 StoreDisagrees, 8 LogFull.
    pub fn up(&mut self, c: u8, copy: &Kept) -> Result<(), Refusal>
        ensures up { OnOk result (IsUpWith self.old c copy.now self.new) }
        ensures refused { IfErr result (λ e. IsUpRefused self.old c copy.now e) }
        ensures unchanged { OnErr result (self.new ≡ self.old) }
    {
        if (c as usize) >= self.standing.controllers() {
            return Err(Refusal::UnknownController);
        }
        if self.standing.seat(c).is_up() {
            return Err(Refusal::ControllerUp);
        }
        let Some(kept) = self.standing.agreement(c, copy) else {
            return Err(Refusal::StoreDisagrees);
        };
        self.check_room()?;
        self.standing.up(c, copy);
        append(&mut self.log, &Event::Up(c, kept));
        Ok(())
    }

    /// The plan.
    pub fn plan(&self) -> &Plan
        ensures { result.now ≡ self.now.plan }
    {
        &self.plan
    }

    /// All that happened, oldest first.
    pub fn log(&self) -> &[Event]
        ensures { result.now ≡ self.now.log }
    {
        &self.log
    }

    /// What the bus has told controller `c`, which must be there, if `c` has not acted on it; or Start, if `c` has not
    /// started. This is the input that `act` takes. None while it is down.
    pub fn next(&self, c: u8) -> Option<Input>
        requires { c < length self.now.plan.blocks }
        ensures told { result ≡ (controller_at (world self.now) c).told }
        ensures up { IfSome result (λ _. (controller_at (world self.now) c).up ≡ true) }
    {
        self.standing.seat(c).told()
    }

    /// What is due for controller `c`, which must be there: Nothing while it is down.
    pub fn due(&self, c: u8) -> Due
        requires { c < length self.now.plan.blocks }
        ensures { result ≡ due_of (controller_at (world self.now) c) }
    {
        self.standing.seat(c).due()
    }

    /// The record whose commit is due for controller `c`, which must be there: the one that it ordered last. None if
    /// `due` is not Store.
    pub fn ordered(&self, c: u8) -> Option<Record>
        requires { c < length self.now.plan.blocks }
        ensures { result ≡ record_ordered (controller_at (world self.now) c).last }
    {
        self.standing.seat(c).ordered()
    }

    /// Gear `number`, which must be there.
    pub fn gear(&self, number: u32) -> Gear
        requires { number < self.now.plan.gear }
        ensures { result ≡ gear_at (world self.now) number }
    {
        self.standing.gear().gear(number as usize)
    }

    /// The records that controller `c`, which must be there, keeps, whether it is up or down.
    pub fn kept(&self, c: u8) -> &Kept
        requires { c < length self.now.plan.blocks }
        ensures { result.now ≡ (controller_at (world self.now) c).records }
    {
        self.standing.seat(c).kept()
    }

    /// The gear that controller `c`, which must be there, has enrolled: None while it is down.
    pub fn table(&self, c: u8) -> Option<&Table>
        requires { c < length self.now.plan.blocks }
        ensures { MatchOption result ((controller_at (world self.now) c).up ≡ false)
            (λ table. ((controller_at (world self.now) c).up ≡ true)
            × (table.now ≡ table_of (controller_at (world self.now) c).records)) }
    {
        self.standing.seat(c).table()
    }

    /// Which gear stored which short address, in the order of the frames: a gear at most once, and an address at most
    /// once.
    pub fn gifts(&self) -> &[(u32, Short)]
        ensures gifts { result.now ≡ (world self.now).gifts }
        ensures gear_once { IsOnce (map (λ gift. gift.0) result.now) }
        ensures address_once { IsOnce (map (λ gift. gift.1) result.now) }
    {
        self.standing.gifts()
    }

    /// THE PROMISE, of this site. Calling it costs nothing; what it says is said of the whole log.
    ///
    /// At each moment of the log no two gear hold one short address. A gear that holds one keeps it, with its random
    /// address, ever after. For each record of enrolment that a controller keeps there is the gear that holds that
    /// address and has that number, so no two tables disagree. `KeepsPromise` says it, in `specs/Promise` of
    /// `dali_events`; the other clauses say more, of what was given and drawn. All gear and all controllers of the plan
    /// are there, and each controller keeps records of its block.
    ///
    /// The log, read event by event, is a history of the page of `dali_statement`. It has the same gear after each
    /// event, the same reservations and tables at its end, and keeps the page's promise (`page`).
    pub fn is_safe(&self)
        ensures promise { KeepsPromise self.now.plan self.now.queue self.now.log }
        ensures run { IsRun self.now.plan self.now.queue self.now.log }
        ensures page { (ms : List Moment) × IsReadAs self.now.plan self.now.queue self.now.log ms
            × KeepsPagePromise (plan_seen self.now.plan) ms }
        ensures safe { IsSafeHistory self.now.plan self.now.queue self.now.log }
        ensures now { IsSafe (world self.now) }
        ensures agree { TablesAgree (world self.now) }
        ensures records { KeepsRecords self.now.plan (world self.now) }
        ensures gear { length (world self.now).gear ≡ self.now.plan.gear }
        ensures controllers { length (world self.now).controllers ≡ length self.now.plan.blocks }
        ensures few { length self.now.plan.blocks ≤ 4 }
    {
        // For the prover: what holds of a site's fields is known once one is read.
        let _log = &self.log;
    }

    /// Who owns the bus.
    pub fn owner(&self) -> Option<u8>
        ensures { result ≡ (world self.now).bus.owner }
    {
        self.standing.owner()
    }

    /// Whether no request is next.
    pub fn idle(&self) -> bool
        ensures { IsTrue result ↔ (next_request self.now ≡ None) }
    {
        self.standing.next_request().is_none()
    }

    /// Whether no request more may wait: then each `act` and each `arc` that nothing else bars is refused with
    /// QueueFull.
    pub fn is_crowded(&self) -> bool
        ensures crowded { result ≡ true → IsCrowded self.now }
        ensures room { result ≡ false → IsCrowded self.now → ⊥ }
    {
        self.standing.is_crowded()
    }

    /// The request that is next is sent. Here, in `destroy` and in `collide`, `command` is the one that its frame is
    /// read as.
    #[inline(always)]
    fn send(&mut self, request: Request, command: &Command, trouble: Trouble) -> Report
        requires next { next_request self.old ≡ Some request }
        requires read { command.now ≡ command_of request.frame }
        requires may { IsUp (world self.old) request.sender × MaySend (world self.old) request.sender request.frame }
        requires draws { IsSpent self.old request trouble → ⊥ }
        requires room { HasRoom self.old }
        requires sendable { IsSendable trouble }
        ensures { Becomes self.old request trouble result self.new }
    {
        let c = request.sender;
        let frame = request.frame;
        let heard = self.standing.send(request, command, trouble);
        append(&mut self.log, &Event::Sent(c, frame, heard));
        Report::Sent(c, frame, heard)
    }

    /// The request that is next is destroyed.
    fn destroy(&mut self, request: Request, command: &Command, set: GearSet) -> Report
        requires next { next_request self.old ≡ Some request }
        requires read { command.now ≡ command_of request.frame }
        requires may { IsUp (world self.old) request.sender × MaySend (world self.old) request.sender request.frame }
        requires draws { IsSpent self.old request (trouble.Destroyed set) → ⊥ }
        requires room { HasRoom self.old }
        ensures { Becomes self.old request (trouble.Destroyed set) result self.new }
    {
        let c = request.sender;
        let frame = request.frame;
        self.standing.destroy(request, command, set);
        append(&mut self.log, &Event::Destroyed(c, frame, set));
        Report::Destroyed(c, frame)
    }

    /// The request that is next collides, if another one is sent with it; else it is destroyed.
    fn collide(&mut self, request: Request, command: &Command) -> Report
        requires next { next_request self.old ≡ Some request }
        requires read { command.now ≡ command_of request.frame }
        requires may { IsUp (world self.old) request.sender × MaySend (world self.old) request.sender request.frame }
        requires draws { IsSpent self.old request trouble.Collision → ⊥ }
        requires room { HasRoom self.old }
        ensures { Becomes self.old request trouble.Collision result self.new }
    {
        let c = request.sender;
        let frame = request.frame;
        match self.standing.collide(request, command) {
            Some(other) => {
                let d = other.sender;
                let rival = other.frame;
                append(&mut self.log, &Event::Collided(c, frame, d, rival));
                Report::Collided(c, frame, d, rival)
            }
            None => {
                append(&mut self.log, &Event::Destroyed(c, frame, GearSet::NONE));
                Report::Destroyed(c, frame)
            }
        }
    }

    /// What happens from outside may befall the site, and the log has room for one more event.
    fn check_outside(&self, what: Outside) -> Result<(), Refusal>
        ensures ok { OnOk result (IsOutside self.now what × HasRoom self.now) }
        ensures refused { IfErr result (IsBefallRefused self.now what) }
    {
        match what {
            Outside::Lapse | Outside::Quiet => self.check_room(),
            Outside::Foreign(frame) => {
                self.check_room()?;
                check_foreign(frame)
            }
            Outside::Power(number, _) | Outside::Expire(number) => self.check_gear(number),
            Outside::Down(c) => {
                self.check_up(c)?;
                self.check_room()
            }
        }
    }

    /// A gear of this number is there, and the log has room for one more event.
    fn check_gear(&self, number: u32) -> Result<(), Refusal>
        ensures ok { OnOk result ((number < self.now.plan.gear) × HasRoom self.now) }
        ensures refused { IfErr result (λ e. IsGearRefused self.now number e) }
    {
        if number >= self.plan.gear() {
            return Err(Refusal::UnknownGear);
        }
        self.check_room()
    }

    /// The log has room for one more event.
    fn check_room(&self) -> Result<(), Refusal>
        ensures ok { OnOk result (HasRoom self.now) }
        ensures refused { IfErr result (IsLogFull self.now) }
    {
        if self.log.len() == self.room {
            return Err(Refusal::LogFull);
        }
        Ok(())
    }

    /// Controller `c` is there, and is up.
    fn check_up(&self, c: u8) -> Result<(), Refusal>
        ensures ok { OnOk result (IsUp (world self.now) c × (c < length self.now.plan.blocks) × (c < 4)) }
        ensures refused { IfErr result (λ e. IsBarred self.now c e) }
    {
        if (c as usize) >= self.standing.controllers() {
            return Err(Refusal::UnknownController);
        }
        if !self.standing.seat(c).is_up() {
            return Err(Refusal::ControllerDown);
        }
        Ok(())
    }
}

/// Another device may send the frame.
fn check_foreign(frame: Forward) -> Result<(), Refusal>
    ensures ok { OnOk result (is_foreign frame ≡ true) }
    ensures refused { IfErr result (λ e. (e ≡ refusal.NotForeign) × (is_foreign frame ≡ false)) }
{
    if is_foreign(frame) {
        Ok(())
    } else {
        Err(Refusal::NotForeign)
    }
}

/// Puts one item more at the end of a list that has room for it.
fn append<T: Copy>(list: &mut Vec<T>, item: &T)
    requires { vec_len list.old < vec_capacity list.old }
    ensures items { list.new.items ≡ list.old.items ++ item.now ∷ [] }
    ensures capacity { vec_capacity list.new ≡ vec_capacity list.old }
{
    list.push_reserved(*item);
}

/// Counts one step more of a controller. Answers how many it has taken.
fn count(shares: &mut [u32; 4], c: u8) -> u32
    requires there { c < 4 }
    requires few { slice_index_or shares.old c 0 < 65536 }
    ensures shares { shares.new ≡ slice_set shares.old c (slice_index_or shares.old c 0 + 1) }
    ensures number { result ≡ slice_index_or shares.old c 0 + 1 }
{
    shares[c as usize] += 1;
    shares[c as usize]
}
