ghost use Rattle.std.specs.Prelude.{◌≡◌, ◌+◌, ◌<◌, ◌≤◌, Bool, [], ◌∷◌, take, IfOk, IfErr, OnOk, OnErr};
ghost use Rattle.dali_events.specs.declared.event.Outside.TheVariants as outside;
ghost use Rattle.dali_events.specs.World.{controller_at};
ghost use Rattle.dali_script.specs.Due.{record_ordered};
ghost use Rattle.dali_standing.specs.Seats.{due_of};
ghost use Rattle.dali_events.specs.Promise.{KeepsPromise};
ghost use Rattle.dali_world.specs.Site.{SiteState, world, Acts, HasBefallen, IsSound};
ghost use Rattle.dali_line.specs.Counts.{shares_of, others_of};
ghost use Rattle.dali_line.specs.Shares.{raised_share, port_share};
ghost use Rattle.dali_line.specs.Found.{FromPort, FromDriver, EndsWait, EndsWaitForRoom, IsReady, IsGivenBack};
ghost use Rattle.dali_line.specs.Found.{events_in};
ghost use Rattle.dali_line.specs.Calls.{Offers, PumpsOnce, Lapses, ComesUp};

use crate::count::{others, steps};
use crate::counted::{CountedSite, due_for, has_due, may_offer, told};
use crate::driver::Driver;
use crate::locked::Locked;
use crate::own::Own;
use crate::port::{Kind, Port};
use crate::ready::Ready;
use crate::tally::Tally;
use crate::up_refusal::UpRefusal;
use arrayvec::ArrayVec;
use dali_frame::Forward;
use dali_script::{Due, Input, Kept, Record};
use dali_world::{Outside, Receipt, Refusal, Report, SiteState, Trouble};
use std::sync::ledger::{Blank, Ledger};
use std::sync::{Condvar, Mutex, MutexGuard, Wait};

/// A site under a lock, which threads share by reference.
///
/// Its calls are those of `SiteState`, one at a time. The caller of each has the right to it: `act`, `arc`, `next`,
/// `due`, `wait`, `begin_commit`, `end_commit` and `wait_for_room` of a controller want its port. The others want the
/// driver; only `stop` and `is_stopped` want neither.
///
/// Each call says that there is a site which gives this answer (`FromPort`, `FromDriver` in `specs/Found`). The site's
/// promise holds, and its log has as many of the caller's events as the caller's share says. An accepted call raises
/// that share by one, a refused one leaves it.
///
/// A line in use: a `Worker` for each port and a `Pumper` for the driver, each in its own thread. A call that waits
/// (`wait`, `wait_for_room`, `ready`) sleeps; nothing promises that it ends.
#[derive(Drop)]
pub struct Line<P0: Ledger, P1: Ledger, P2: Ledger, P3: Ledger, D: Ledger> {
    locked: Mutex<Locked<P0, P1, P2, P3, D>>,
    moved: Condvar,
}

impl<P0: Ledger, P1: Ledger, P2: Ledger, P3: Ledger, D: Ledger> Line<P0, P1, P2, P3, D> {
    /// A line round this site, with a port for each of its controllers, in order of their numbers, and the driver.
    ///
    /// The shares begin at what the site's log has. It takes no memory.
    pub fn new(
        site: SiteState,
        first: Blank,
        second: Blank,
        third: Blank,
        fourth: Blank,
        driver: Blank,
    ) -> (
        Line<P0, P1, P2, P3, D>,
        ArrayVec<Port<P0, P1, P2, P3, D>, 4>,
        Driver<P0, P1, P2, P3, D>,
    )
        requires first { (first.name ≡ P0.name) × (first.parts ≡ P0.parts) × (0 < P0.parts) }
        requires second { (second.name ≡ P1.name) × (second.parts ≡ P1.parts) × (0 < P1.parts) }
        requires third { (third.name ≡ P2.name) × (third.parts ≡ P2.parts) × (0 < P2.parts) }
        requires fourth { (fourth.name ≡ P3.name) × (fourth.parts ≡ P3.parts) × (0 < P3.parts) }
        requires driver { (driver.name ≡ D.name) × (driver.parts ≡ D.parts) × (0 < D.parts) }
        ensures ports { result.1.items ≡ shares_of site }
        ensures driver { result.2 ≡ others_of site.log }
        ensures promise { KeepsPromise site.plan site.queue site.log }
        ensures sound { IsSound site }
    {
        // For the prover: what the two clauses promise.
        site.is_safe();
        let log = site.log();
        let (first, one) = Own::open(first, steps(0, log));
        let (second, two) = Own::open(second, steps(1, log));
        let (third, three) = Own::open(third, steps(2, log));
        let (fourth, four) = Own::open(fourth, steps(3, log));
        let (driver, own) = Own::open(driver, others(log));
        let count = site.plan().blocks().len();
        let tally = Tally {
            first,
            second,
            third,
            fourth,
            driver,
        };
        let line = Line {
            locked: Mutex::new(Locked::new(CountedSite::new(site, tally))),
            moved: Condvar::new(),
        };
        (line, ports(count, one, two, three, four), Driver::of(own))
    }

    /// The site, out of the lock. `Ok` if all ports are handed back, in order of their controllers' numbers, as `new`
    /// gave them; else `Err`, with the site too.
    ///
    /// Each port's share is how many events of its log are steps of the port's controller. The driver's share is how
    /// many are no controller's step. Each event is in one of the shares of all controllers and the driver, and in one
    /// alone.
    pub fn close(
        self,
        ports: ArrayVec<Port<P0, P1, P2, P3, D>, 4>,
        driver: Driver<P0, P1, P2, P3, D>,
    ) -> Result<SiteState, SiteState>
        ensures all { IfOk result (λ s. IsGivenBack s ports.items driver × (ports.items ≡ shares_of s)) }
        ensures missing { IfErr result (λ s. IsGivenBack s ports.items driver × (ports.items ≡ shares_of s → ⊥)) }
    {
        let Line { locked, moved: _ } = self;
        let Locked { counted, .. } = locked.into_inner();
        let (site, has_all) = counted.close(ports, driver);
        if has_all { Ok(site) } else { Err(site) }
    }

    /// The lock, for a call that may end a wait.
    fn change<R: Wait>(&self, rt: &R) -> Change<'_, Locked<P0, P1, P2, P3, D>> {
        Change {
            locked: self.locked.lock(rt),
            moved: &self.moved,
        }
    }

    /// The port's controller acts on an input, as `SiteState::act` says: on what `next` says, or on the outcome of its
    /// commit if `due` is Store. The receipt's number is the port's share with this step.
    ///
    /// Refusals, in this order: 1 UnknownController, 2 ControllerDown, 3 NotDue, 7 QueueFull, 8 LogFull,
    /// 10 AddressInUse.
    pub fn act<R: Wait>(
        &self,
        rt: &R,
        port: &mut Port<P0, P1, P2, P3, D>,
        input: Input,
    ) -> Result<Receipt, Refusal>
        ensures answer { FromPort port.old
            (λ s. (new : SiteState) × Acts s port.old.controller input result new) }
        ensures accepted { OnOk result (port.new ≡ raised_share port.old) }
        ensures refused { OnErr result (port.new ≡ port.old) }
        ensures receipt { IfOk result (λ r. (r.controller ≡ port.old.controller) × (r.input ≡ input)
            × (r.number ≡ port.new.share)) }
    {
        self.change(rt).locked.counted.act(port, input)
    }

    /// The port's controller asks to send a frame of direct arc power, as `SiteState::arc` says.
    ///
    /// Refusals, in this order: 1 UnknownController, 2 ControllerDown, 4 NotArc, 7 QueueFull, 8 LogFull.
    pub fn arc<R: Wait>(
        &self,
        rt: &R,
        port: &mut Port<P0, P1, P2, P3, D>,
        frame: Forward,
    ) -> Result<(), Refusal>
        ensures answer { FromPort port.old
            (λ s. (new : SiteState) × Offers s port.old.controller frame result new) }
        ensures accepted { OnOk result (port.new ≡ raised_share port.old) }
        ensures refused { OnErr result (port.new ≡ port.old) }
    {
        self.change(rt).locked.counted.arc(port, frame)
    }

    /// What the bus has told the port's controller and the controller has not acted on, as `SiteState::next` says; None
    /// for a spare port.
    pub fn next<R: Wait>(&self, rt: &R, port: &mut Port<P0, P1, P2, P3, D>) -> Option<Input>
        ensures answer { FromPort port.old
            (λ s. result ≡ (controller_at (world s) port.old.controller).told) }
        ensures same { port.new ≡ port.old }
    {
        let mut locked = self.locked.lock(rt);
        locked.counted.audit(port);
        told(&locked.counted.site, port.controller())
    }

    /// What is due for the port's controller, as `SiteState::due` says; Nothing for a spare port.
    pub fn due<R: Wait>(&self, rt: &R, port: &mut Port<P0, P1, P2, P3, D>) -> Due
        ensures answer { FromPort port.old
            (λ s. result ≡ due_of (controller_at (world s) port.old.controller)) }
        ensures same { port.new ≡ port.old }
    {
        let mut locked = self.locked.lock(rt);
        locked.counted.audit(port);
        due_for(&locked.counted.site, port.controller())
    }

    /// Waits until something is due for the port's controller (true), or until the line is stopped or the controller is
    /// down (false). `is_stopped` tells the last two apart: a line that is stopped stays so.
    ///
    /// Something is due if `next` says something, or if `due` is Store. It may wait forever, as with a port whose
    /// controller has ended.
    pub fn wait<R: Wait>(&self, rt: &R, port: &mut Port<P0, P1, P2, P3, D>) -> bool
        ensures answer { FromPort port.old
            (λ s. (stopped : Bool) × EndsWait stopped s port.old.controller result) }
        ensures same { port.new ≡ port.old }
    {
        let controller = port.controller();
        let mut locked = self
            .moved
            .wait_while(rt, self.locked.lock(rt), |l| !l.wakes(controller));
        locked.counted.audit(port);
        !locked.is_stopped() && has_due(&locked.counted.site, controller)
    }

    /// The port's holder begins the commit that is due, as `SiteState::ordered` says, and is answered its record. None
    /// if none is due.
    ///
    /// From now on `up` of this controller is refused with CommitOpen. That ends when an `act` with this port is
    /// accepted, as the one that tells the outcome, or at `end_commit`. So the store has what it will have before a
    /// controller goes on from it. The call may be made again, as by a new holder of the port.
    pub fn begin_commit<R: Wait>(
        &self,
        rt: &R,
        port: &mut Port<P0, P1, P2, P3, D>,
    ) -> Option<Record>
        ensures answer { FromPort port.old
            (λ s. result ≡ record_ordered (controller_at (world s) port.old.controller).last) }
        ensures same { port.new ≡ port.old }
    {
        let mut locked = self.locked.lock(rt);
        locked.counted.audit(port);
        locked.counted.begin_commit(port.controller())
    }

    /// The port's holder makes no commit any more. It tells whether it has made one whose outcome it could not tell. If
    /// so, `up` of this controller wants records with that one, and else those with it or without it.
    ///
    /// If the holder has begun none, or has told the outcome, this does nothing.
    pub fn end_commit<R: Wait>(&self, rt: &R, port: &mut Port<P0, P1, P2, P3, D>, is_made: bool)
        ensures { port.new ≡ port.old }
    {
        self.locked.lock(rt).counted.end_commit(port, is_made);
    }

    /// Waits until the port's controller is not refused for want of room. So it waits until a request more may wait or
    /// the controller is down (true), or until the line is stopped (false).
    pub fn wait_for_room<R: Wait>(&self, rt: &R, port: &mut Port<P0, P1, P2, P3, D>) -> bool
        ensures answer { FromPort port.old
            (λ s. (stopped : Bool) × EndsWaitForRoom stopped s port.old.controller result) }
        ensures same { port.new ≡ port.old }
    {
        let controller = port.controller();
        let mut locked = self.moved.wait_while(
            rt,
            self.locked.lock(rt),
            |l| !l.wakes_for_room(controller),
        );
        locked.counted.audit(port);
        !locked.is_stopped() && may_offer(&locked.counted.site, controller)
    }

    /// The request that is next comes on the bus, as `SiteState::pump` says.
    ///
    /// Without a request it answers Idle, and logs nothing. Refusals, in this order: 6 DrawsSpent, 8 LogFull.
    pub fn pump<R: Wait>(
        &self,
        rt: &R,
        driver: &mut Driver<P0, P1, P2, P3, D>,
        trouble: Trouble,
    ) -> Result<Report, Refusal>
        ensures answer { FromDriver driver.old
            (λ s. (new : SiteState) × PumpsOnce s trouble result new) }
        ensures accepted { IfOk result (λ r. driver.new ≡ driver.old + events_in r) }
        ensures refused { OnErr result (driver.new ≡ driver.old) }
    {
        self.change(rt).locked.counted.pump(driver, trouble)
    }

    /// Something happens from outside, as `SiteState::befall` says.
    ///
    /// Refusals, in this order: 1 UnknownGear or UnknownController, 2 ControllerDown, 8 LogFull, 11 NotForeign.
    pub fn befall<R: Wait>(
        &self,
        rt: &R,
        driver: &mut Driver<P0, P1, P2, P3, D>,
        what: Outside,
    ) -> Result<(), Refusal>
        ensures answer { FromDriver driver.old (λ s. (new : SiteState) × HasBefallen s what result new) }
        ensures accepted { OnOk result (driver.new ≡ driver.old + 1) }
        ensures refused { OnErr result (driver.new ≡ driver.old) }
    {
        self.change(rt).locked.counted.befall(driver, what)
    }

    /// The owner loses the bus, as `SiteState::lapse` says. Answers which controller it was; None if there was no
    /// owner.
    ///
    /// Refusal: 8 LogFull.
    pub fn lapse<R: Wait>(
        &self,
        rt: &R,
        driver: &mut Driver<P0, P1, P2, P3, D>,
    ) -> Result<Option<u8>, Refusal>
        ensures answer { FromDriver driver.old (λ s. (new : SiteState) × Lapses s result new) }
        ensures accepted { OnOk result (driver.new ≡ driver.old + 1) }
        ensures refused { OnErr result (driver.new ≡ driver.old) }
    {
        self.change(rt).locked.counted.lapse(driver)
    }

    /// The bus is quiet for so long that half of a send-twice pair is forgotten.
    ///
    /// Refusal: 8 LogFull.
    pub fn quiet<R: Wait>(
        &self,
        rt: &R,
        driver: &mut Driver<P0, P1, P2, P3, D>,
    ) -> Result<(), Refusal>
        ensures answer { FromDriver driver.old (λ s. (new : SiteState) × HasBefallen s outside.Quiet result new) }
        ensures accepted { OnOk result (driver.new ≡ driver.old + 1) }
        ensures refused { OnErr result (driver.new ≡ driver.old) }
    {
        self.befall(rt, driver, Outside::Quiet)
    }

    /// The power of gear `number`, 0 to 127, comes (true) or goes.
    ///
    /// Refusals, in this order: 1 UnknownGear, 8 LogFull.
    pub fn power<R: Wait>(
        &self,
        rt: &R,
        driver: &mut Driver<P0, P1, P2, P3, D>,
        number: u32,
        on: bool,
    ) -> Result<(), Refusal>
        ensures answer { FromDriver driver.old
            (λ s. (new : SiteState) × HasBefallen s (outside.Power number on) result new) }
        ensures accepted { OnOk result (driver.new ≡ driver.old + 1) }
        ensures refused { OnErr result (driver.new ≡ driver.old) }
    {
        self.befall(rt, driver, Outside::Power(number, on))
    }

    /// The 15 minutes of the initialisation of gear `number`, 0 to 127, are over.
    ///
    /// Refusals, in this order: 1 UnknownGear, 8 LogFull.
    pub fn expire<R: Wait>(
        &self,
        rt: &R,
        driver: &mut Driver<P0, P1, P2, P3, D>,
        number: u32,
    ) -> Result<(), Refusal>
        ensures answer { FromDriver driver.old
            (λ s. (new : SiteState) × HasBefallen s (outside.Expire number) result new) }
        ensures accepted { OnOk result (driver.new ≡ driver.old + 1) }
        ensures refused { OnErr result (driver.new ≡ driver.old) }
    {
        self.befall(rt, driver, Outside::Expire(number))
    }

    /// Controller `c`, 0 to 3, goes down, as `SiteState::down` says.
    ///
    /// Refusals, in this order: 1 UnknownController, 2 ControllerDown, 8 LogFull.
    pub fn down<R: Wait>(
        &self,
        rt: &R,
        driver: &mut Driver<P0, P1, P2, P3, D>,
        c: u8,
    ) -> Result<(), Refusal>
        ensures answer { FromDriver driver.old (λ s. (new : SiteState) × HasBefallen s (outside.Down c) result new) }
        ensures accepted { OnOk result (driver.new ≡ driver.old + 1) }
        ensures refused { OnErr result (driver.new ≡ driver.old) }
    {
        self.befall(rt, driver, Outside::Down(c))
    }

    /// Controller `c`, 0 to 3, comes up with a copy of its records: those that the site under the lock remembers, or
    /// these with the one that was outstanding. Read the store once its worker has given it back.
    ///
    /// Refusals, in this order: 1 UnknownController, 2 ControllerUp, CommitOpen, 5 StoreDisagrees, 8 LogFull.
    /// CommitOpen is the line's own (`UpRefusal`), and comes at once: nothing is waited for.
    pub fn up<R: Wait>(
        &self,
        rt: &R,
        driver: &mut Driver<P0, P1, P2, P3, D>,
        c: u8,
        copy: &Kept,
    ) -> Result<(), UpRefusal>
        ensures answer { FromDriver driver.old (λ s. (new : SiteState) × ComesUp s c copy.now result new) }
        ensures accepted { OnOk result (driver.new ≡ driver.old + 1) }
        ensures refused { OnErr result (driver.new ≡ driver.old) }
    {
        self.change(rt).locked.counted.up(driver, c, copy)
    }

    /// Waits until the driver is to be told something: the line is stopped, a request is next, nothing can be sent
    /// since the queue is full, or all is over.
    ///
    /// It may wait forever, as when something is due for a controller and no thread acts for it.
    pub fn ready<R: Wait>(&self, rt: &R, driver: &mut Driver<P0, P1, P2, P3, D>) -> Ready
        ensures answer { FromDriver driver.old (λ s. (stopped : Bool) × IsReady stopped s result) }
        ensures same { driver.new ≡ driver.old }
    {
        let mut locked = self
            .moved
            .wait_while(rt, self.locked.lock(rt), |l| !l.wakes_driver());
        locked.counted.audit_driver(driver);
        locked.may_do().unwrap()
    }

    /// The line is stopped, for good: a thread that waits now or later is told so. The line's other calls go on as
    /// before.
    pub fn stop<R: Wait>(&self, rt: &R) {
        self.change(rt).locked.stop()
    }

    /// Whether the line is stopped.
    pub fn is_stopped<R: Wait>(&self, rt: &R) -> bool {
        self.locked.lock(rt).is_stopped()
    }
}

/// A lock that is taken. When it is let go, all who wait are woken, so that no call can forget to wake them.
struct Change<'a, L> {
    locked: MutexGuard<'a, L>,
    moved: &'a Condvar,
}

impl<L> Drop for Change<'_, L> {
    fn drop(self) {
        let Self { locked, moved } = self;
        drop(locked);
        moved.notify_all();
    }
}

/// The ports of the first `count` controllers.
fn ports<P0: Ledger, P1: Ledger, P2: Ledger, P3: Ledger, D: Ledger>(
    count: usize,
    first: Own<P0>,
    second: Own<P1>,
    third: Own<P2>,
    fourth: Own<P3>,
) -> ArrayVec<Port<P0, P1, P2, P3, D>, 4>
    requires { count ≤ 4 }
    ensures { result.items ≡ take count
        (port_share 0 first ∷ port_share 1 second ∷ port_share 2 third ∷ port_share 3 fourth ∷ []) }
{
    let mut ports = ArrayVec::from([
        Port::of(Kind::First(first)),
        Port::of(Kind::Second(second)),
        Port::of(Kind::Third(third)),
        Port::of(Kind::Fourth(fourth)),
    ]);
    ports.truncate(count);
    ports
}
