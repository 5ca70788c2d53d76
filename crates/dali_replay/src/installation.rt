//! A site with a store in memory for each of its controllers.

ghost use Rattle.std.specs.Prelude.{false, ◌≡◌, ◌<◌, ◌≤◌, length, map, Some, IfOk, IfErr};
ghost use Rattle.std.specs.Prelude.{IfSome, IsTrue, ◌↔◌, OnErr, IfNone, is_some};
ghost use Rattle.dali_script.specs.Records.{Fits, MayAdd};
ghost use Rattle.dali_script.specs.Due.{record_ordered};
ghost use Rattle.dali_events.specs.declared.event.Event.TheVariants as event;
ghost use Rattle.dali_events.specs.declared.event.Outside.TheVariants as outside;
ghost use Rattle.dali_standing.specs.Seats.{due_of};
ghost use Rattle.dali_world.specs.Site.{IsArcRefused, IsActRefused, IsBarred, IsLogFull};
ghost use Rattle.dali_replay.specs.Installation.{installation_of, empty_store, store_settled, store_at, controller};
ghost use Rattle.dali_replay.specs.Installation.{IsUpAt, store_committed, with_store, IsMade, IsGiven, HasNone};
ghost use Rattle.dali_replay.specs.Installation.{HasStepped, Goes, IsPending, Stores, Fails, Surveys};
ghost use Rattle.dali_replay.specs.Installation.{ComesUp, Calls, PumpsOn, BefallsOn, Requests, Lapses};
ghost use Rattle.dali_standing.specs.declared.refusal.Refusal.TheVariants as refusal;
ghost use Rattle.dali_replay.specs.Rounds.{HasTurn};

use dali_frame::Forward;
use dali_reserve::{Keep, MemoryKeep};
use dali_script::{Block, Due, Input, Kept, Order, Pair, Record};
use dali_world::{Outside, Plan, Refusal, Report, SiteState, Trouble};
use std::alloc::{AllocError, Global};
use std::marker::Model;

/// How many events a site's log holds.
const LOG_ROOM: usize = 65_536;

/// How many requests may wait on a site.
const QUEUE_ROOM: usize = 64;

/// A controller's store, and the record that the controller ordered and that is still to be committed in it.
#[derive(Drop)]
pub struct Store {
    keep: MemoryKeep,
    pending: Option<Record>,
}

impl Model for Store {
    ghost use Rattle.std.specs.Prelude.{IfSome};
    ghost use Rattle.dali_script.specs.Records.{Fits};
    ghost use Rattle.dali_replay.specs.Installation.{Store};

    ghost Value = { Store };

    ghost view = { λ s. record { keep = s.keep; pending = s.pending } };

    ghost invariant = { λ s. IfSome s.pending (Fits s.keep.block) };
}

impl Store {
    /// A store with no records, for a controller with this block.
    fn new(block: Block) -> Store
        ensures { result ≡ empty_store block }
    {
        Store {
            keep: MemoryKeep::new(block),
            pending: None,
        }
    }

    /// Whether a record is still to be committed.
    fn is_pending(&self) -> bool
        ensures { result ≡ is_some self.now.pending }
    {
        self.pending.is_some()
    }

    /// Commits the record that is pending, if one is.
    fn commit(&mut self)
        requires { IfSome self.old.pending (MayAdd self.old.keep) }
        ensures { self.new ≡ store_committed self.old }
    {
        let Some(record) = self.pending else {
            return;
        };
        if self.keep.commit(record).is_ok() {
            self.pending = None;
        }
    }

    /// Nothing is pending but the record of this order, if it is one.
    fn await_commit(&mut self, order: Order)
        requires { IfSome (record_ordered (Some order)) (Fits self.old.keep.block) }
        ensures { self.new ≡ (record { keep = self.old.keep; pending = record_ordered (Some order) }) }
    {
        match order {
            Order::Commit(record) => self.pending = Some(record),
            Order::Put(..) | Order::Done(_) | Order::Halt(_) => self.settle(),
        }
    }

    /// Nothing is pending.
    fn settle(&mut self)
        ensures { self.new ≡ store_settled self.old.keep }
    {
        // After most orders none is, and nothing is written then.
        if self.pending.is_some() {
            self.pending = None;
        }
    }

    /// A copy of the records.
    fn read(&mut self) -> Kept
        ensures copy { result ≡ self.old.keep }
        ensures same { self.new ≡ self.old }
    {
        self.keep.read().unwrap()
    }
}

/// An empty store for each block.
fn stores_of(alloc: Global, blocks: &[Block]) -> Result<Vec<Store>, AllocError>
    ensures { IfOk result (λ stores. stores.items ≡ map empty_store blocks.now) }
{
    let mut stores = Vec::with_capacity(alloc, blocks.len())?;
    for block in blocks {
        stores.push(Store::new(*block))?;
    }
    Ok(stores)
}

/// A site, and a store for each of its controllers. Controllers are named by their numbers as lines give them, of any
/// size.
#[derive(Drop)]
pub struct Installation {
    site: SiteState,
    stores: Vec<Store>,
}

impl Model for Installation {
    ghost use Rattle.dali_replay.specs.Installation.{Installation, IsInstalled};

    ghost Value = { Installation };

    ghost view = { λ n. record { site = n.site; stores = n.stores.items } };

    ghost invariant = { λ n. IsInstalled (record { site = n.site; stores = n.stores.items }) };
}

impl Installation {
    /// An installation of this plan, on which nothing happened yet. Its log has room for 65,536 events, and 64 requests
    /// may wait.
    pub fn new(alloc: Global, plan: Plan) -> Result<Installation, AllocError>
        ensures { IfOk result (λ n. n ≡ installation_of plan) }
    {
        let stores = stores_of(alloc, plan.blocks())?;
        let Ok(site) = SiteState::new(alloc, plan, LOG_ROOM, QUEUE_ROOM) else {
            return Err(AllocError);
        };
        Ok(Installation { site, stores })
    }

    /// `go c`: the controller acts on what is due. If that is its store, the commit is made first, unless it was made
    /// before.
    ///
    /// Refusals, in this order: 1 UnknownController, 2 ControllerDown, 3 NotDue, 7 QueueFull, 8 LogFull,
    /// 10 AddressInUse; QueueFull and LogFull leave the commit made.
    pub fn go(&mut self, c: u32) -> Result<Order, Refusal>
        ensures { Goes self.old c result self.new }
    {
        let known = self.check_known(c)?;
        let Some(input) = self.given(known) else {
            self.check_up(c)?;
            return Err(Refusal::NotDue);
        };
        self.act(known, input)
    }

    /// `store c`: the commit that is outstanding is made, and the controller is not told.
    ///
    /// Refusals, in this order: 1 UnknownController, 2 ControllerDown, 3 NotDue, also if it was made before.
    pub fn store(&mut self, c: u32) -> Result<(), Refusal>
        ensures { Stores self.old c result self.new }
    {
        let c = self.check_up(c)?;
        if !self.is_pending(c) {
            return Err(Refusal::NotDue);
        }
        self.commit(c);
        Ok(())
    }

    /// `fail c`: the controller is told that its commit failed; none is made.
    ///
    /// Refusals, in this order: 1 UnknownController, 2 ControllerDown, 3 NotDue, 7 QueueFull, 8 LogFull.
    pub fn fail(&mut self, c: u32) -> Result<Order, Refusal>
        ensures { Fails self.old c result self.new }
    {
        let c = self.check_known(c)?;
        self.act(c, Input::CommitFailed)
    }

    /// `survey c`: the controller, for which its start is due, begins by a survey.
    ///
    /// Refusals, in this order: 1 UnknownController, 2 ControllerDown, 3 NotDue, 7 QueueFull, 8 LogFull.
    pub fn survey(&mut self, c: u32) -> Result<Order, Refusal>
        ensures { Surveys self.old c result self.new }
    {
        let c = self.check_known(c)?;
        self.act(c, Input::Survey)
    }

    /// `pump ..`: the request that is next comes on the bus.
    ///
    /// Refusals, in this order: 6 DrawsSpent, 8 LogFull.
    #[inline(always)]
    pub fn pump(&mut self, trouble: Trouble) -> Result<Report, Refusal>
        ensures { PumpsOn self.old trouble result self.new }
    {
        self.site.pump(trouble)
    }

    /// `foreign HHHH`, `off g`, `on g`, `expire g`, `quiet`: something happens from outside.
    ///
    /// Refusals, in this order: 1 UnknownGear, 8 LogFull, 11 NotForeign.
    pub fn befall(&mut self, what: Outside) -> Result<(), Refusal>
        ensures { BefallsOn self.old what result self.new }
    {
        self.site.befall(what)
    }

    /// `lapse`: the owner loses the bus.
    ///
    /// Refusal: 8 LogFull.
    pub fn lapse(&mut self) -> Result<Option<u8>, Refusal>
        ensures { Calls (Lapses self.old.site) (IsLogFull self.old.site) self.old result self.new }
    {
        let owner = self.site.owner();
        self.befall(Outside::Lapse)?;
        Ok(owner)
    }

    /// `arc c HHHH`: the controller asks to send a frame of direct arc power.
    ///
    /// Refusals, in this order: 1 UnknownController, 2 ControllerDown, 4 NotArc, 7 QueueFull, 8 LogFull.
    pub fn arc(&mut self, c: u32, frame: Forward) -> Result<(), Refusal>
        ensures { Calls (Requests self.old.site (event.Offered c frame)) (IsArcRefused self.old.site c frame)
            self.old result self.new }
    {
        let c = self.check_known(c)?;
        self.site.arc(c, frame)
    }

    /// `down c`: the controller goes down. Its store stays.
    ///
    /// Refusals, in this order: 1 UnknownController, 2 ControllerDown, 8 LogFull.
    pub fn down(&mut self, c: u32) -> Result<(), Refusal>
        ensures { BefallsOn self.old (outside.Down c) result self.new }
    {
        let c = self.check_known(c)?;
        self.befall(Outside::Down(c))
    }

    /// `up c`: the controller comes up with what its store holds.
    ///
    /// Refusals, in this order: 1 UnknownController, 2 ControllerUp, 5 StoreDisagrees, 8 LogFull.
    pub fn up(&mut self, c: u32) -> Result<(), Refusal>
        ensures { ComesUp self.old c result self.new }
    {
        let c = self.check_known(c)?;
        let copy = self.stores[c as usize].read();
        self.site.up(c, &copy)?;
        self.stores[c as usize].settle();
        Ok(())
    }

    /// The site.
    pub fn site(&self) -> &SiteState
        ensures { result.now ≡ self.now.site }
    {
        &self.site
    }

    /// How many controllers there are.
    pub fn controllers(&self) -> u8
        ensures value { result ≡ length self.now.site.plan.blocks }
        ensures most { length self.now.site.plan.blocks ≤ 4 }
    {
        self.site.plan().blocks().len() as u8
    }

    /// The gear that a controller has enrolled, by the records that it keeps.
    pub fn enrolled(&self, c: u8) -> &[Pair]
        requires { c < length self.now.site.plan.blocks }
        ensures { result.now ≡ (controller self.now c).records.enrolled }
    {
        self.site.kept(c).enrolled()
    }

    /// The turn of controller `c`, which must be there: it goes, as by `go c`, if something is due. Answers its order,
    /// if it went.
    ///
    /// Refusals: those of `go c`; they leave a commit made, as there.
    pub fn turn(&mut self, c: u8) -> Result<Option<Order>, Refusal>
        requires { c < length self.old.site.plan.blocks }
        ensures { HasTurn self.old c result self.new }
    {
        let Some(input) = self.given(c) else {
            return Ok(None);
        };
        let order = self.act(c, input)?;
        Ok(Some(order))
    }

    /// The controller's number, as the site has it; or that it has no such controller.
    fn check_known(&self, c: u32) -> Result<u8, Refusal>
        ensures known { IfOk result (λ d. (d ≡ c) × (c < length self.now.site.plan.blocks)) }
        ensures refused { IfErr result (λ e. (e ≡ refusal.UnknownController) × (length self.now.site.plan.blocks ≤ c)) }
    {
        if c as usize >= self.site.plan().blocks().len() {
            return Err(Refusal::UnknownController);
        }
        Ok(c as u8)
    }

    /// The same of a controller that is up.
    fn check_up(&self, c: u32) -> Result<u8, Refusal>
        ensures up { IfOk result (λ d. (d ≡ c) × IsUpAt self.now c) }
        ensures refused { IfErr result (λ e. IsBarred self.now.site c e) }
    {
        let known = self.check_known(c)?;
        if self.site.table(known).is_none() {
            return Err(Refusal::ControllerDown);
        }
        Ok(known)
    }

    /// Whether a commit is outstanding that was not made.
    fn is_pending(&self, c: u8) -> bool
        requires { c < length self.now.site.plan.blocks }
        ensures { IsTrue result ↔ IsPending self.now c }
    {
        match self.site.due(c) {
            Due::Store => self.stores[c as usize].is_pending(),
            Due::Start | Due::Bus | Due::Nothing => false,
        }
    }

    /// The commit that is pending in a controller's store, if one is, is made.
    fn commit(&mut self, c: u8)
        requires { c < length self.old.site.plan.blocks }
        ensures { self.new ≡ with_store self.old c (store_committed (store_at self.old c)) }
    {
        // What the site remembers as outstanding may be added, so the store does not refuse it.
        self.site.is_safe();
        self.stores[c as usize].commit();
    }

    /// What is due for a controller, if anything; if it waits for a commit, that is made. Nothing is while it is down.
    fn given(&mut self, c: u8) -> Option<Input>
        requires { c < length self.old.site.plan.blocks }
        ensures given { IfSome result (λ input. IsGiven self.old c input self.new) }
        ensures up { IfSome result (λ _. IsUpAt self.old c) }
        ensures none { IfNone result (HasNone self.old c × (self.new ≡ self.old)) }
        ensures site { self.new.site ≡ self.old.site }
    {
        match self.site.due(c) {
            Due::Store => {
                self.commit(c);
                Some(Input::Committed)
            }
            Due::Start | Due::Bus | Due::Nothing => self.site.next(c),
        }
    }

    /// The controller acts on an input. A record that it orders is pending from now on.
    #[inline(always)]
    fn act(&mut self, c: u8, input: Input) -> Result<Order, Refusal>
        requires known { c < length self.old.site.plan.blocks }
        requires made { IsMade input (due_of (controller self.old c)) (store_at self.old c).pending }
        ensures stepped { IfOk result (λ order. HasStepped self.old c input order self.new) }
        ensures refused { IfErr result (λ e. IsActRefused self.old.site c input e) }
        ensures unchanged { OnErr result (self.new ≡ self.old) }
    {
        let receipt = self.site.act(c, input)?;
        self.stores[c as usize].await_commit(receipt.order());
        Ok(receipt.order())
    }
}
