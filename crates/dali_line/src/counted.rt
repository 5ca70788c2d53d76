ghost use Rattle.std.specs.Prelude.{◌≡◌, ◌+◌, ◌<◌, ◌≤◌, length, All, IfOk, OnOk, OnErr, IsTrue, true, false};
ghost use Rattle.std.specs.Prelude.{slice_set, None, Err, IfSome, ◌↔◌, if◌then◌else◌};
ghost use Rattle.dali_events.specs.World.{controller_at, nobody};
ghost use Rattle.dali_events.specs.Allowed.{IsDown};
ghost use Rattle.dali_events.specs.Promise.{KeepsPromise};
ghost use Rattle.dali_script.specs.Due.{record_ordered};
ghost use Rattle.dali_standing.specs.Seats.{due_of};
ghost use Rattle.dali_line.specs.Counts.{counts_of, others_of, shares_of, AreInOrder};
ghost use Rattle.dali_line.specs.Found.{HasDue, MayOffer, HaveEnded};
ghost use Rattle.dali_world.specs.Site.{world};

use crate::commits::{CommitState, Commits};
use crate::driver::Driver;
use crate::port::Port;
use crate::tally::Tally;
use crate::up_refusal::UpRefusal;
use arrayvec::ArrayVec;
use dali_frame::Forward;
use dali_script::{Due, Input, Kept, Record};
use dali_world::{Outside, Receipt, Refusal, Report, SiteState, Trouble};
use std::sync::ledger::Ledger;

/// A site, the counts of its log's events, and which controllers' workers are at a commit.
///
/// Each call audits its caller's share and makes the site's call. If that adds an event, the share is raised with the
/// tally.
#[derive(Drop)]
pub(crate) struct CountedSite<P0: Ledger, P1: Ledger, P2: Ledger, P3: Ledger, D: Ledger> {
    pub(crate) site: SiteState,
    tally: Tally<P0, P1, P2, P3, D>,
    commits: Commits,
    ghost exact: { tally ≡ counts_of site.log },
}

impl<P0: Ledger, P1: Ledger, P2: Ledger, P3: Ledger, D: Ledger> CountedSite<P0, P1, P2, P3, D> {
    ghost use Rattle.dali_world.specs.Site.{Acts, HasBefallen, share_of, IsSound};
    ghost use Rattle.dali_line.specs.Shares.{raised_share, total_of};
    ghost use Rattle.dali_line.specs.Found.{IsFoundFrom, IsFoundByDriver, events_in};
    ghost use Rattle.dali_line.specs.Commits.{state_of, MayComeUp};
    ghost use Rattle.dali_line.specs.declared.up_refusal.UpRefusal.TheVariants.{CommitOpen};
    ghost use Rattle.dali_line.specs.declared.commits.CommitState.TheVariants as commit;
    ghost use Rattle.dali_line.specs.Calls.{Offers, PumpsOnce, Lapses, ComesUp};

    /// A site with the tally of its log, of which no worker has begun a commit.
    pub(crate) fn new(
        site: SiteState,
        tally: Tally<P0, P1, P2, P3, D>,
    ) -> CountedSite<P0, P1, P2, P3, D>
        requires { tally ≡ counts_of site.log }
        ensures { result.site ≡ site }
    {
        CountedSite {
            site,
            tally,
            commits: Commits::settled(),
        }
    }

    /// Says what the port's holder knows of the site. It changes nothing.
    pub(crate) fn audit(&mut self, port: &mut Port<P0, P1, P2, P3, D>)
        ensures found { IsFoundFrom port.old self.old.site }
        ensures few { length (world self.new.site).controllers ≤ 4 }
        ensures site { self.new.site ≡ self.old.site }
        ensures port { port.new ≡ port.old }
        ensures commits { self.new.commits ≡ self.old.commits }
    {
        // For the prover: what is promised of the site.
        self.site.is_safe();
        self.tally.audit(port);
    }

    /// A controller acts. If that is accepted, its worker is at no commit any more.
    pub(crate) fn act(
        &mut self,
        port: &mut Port<P0, P1, P2, P3, D>,
        input: Input,
    ) -> Result<Receipt, Refusal>
        ensures found { IsFoundFrom port.old self.old.site }
        ensures answer { Acts self.old.site port.old.controller input result self.new.site }
        ensures accepted { OnOk result (port.new ≡ raised_share port.old) }
        ensures refused { OnErr result (port.new ≡ port.old) }
        ensures receipt { IfOk result (λ r. (r.controller ≡ port.old.controller) × (r.input ≡ input)
            × (r.number ≡ port.new.share)) }
        ensures told { OnOk result
            (self.new.commits ≡ slice_set self.old.commits port.old.controller commit.Settled) }
        ensures untold { OnErr result (self.new.commits ≡ self.old.commits) }
    {
        self.audit(port);
        let c = port.controller();
        let receipt = self.site.act(c, input)?;
        self.tally.raise(port);
        self.commits.set(c, CommitState::Settled);
        Ok(receipt)
    }

    /// A controller offers a frame of direct arc power.
    #[tactic(auto, unfolding(crate::specs::Calls::Offers))]
    pub(crate) fn arc(
        &mut self,
        port: &mut Port<P0, P1, P2, P3, D>,
        frame: Forward,
    ) -> Result<(), Refusal>
        ensures found { IsFoundFrom port.old self.old.site }
        ensures answer { Offers self.old.site port.old.controller frame result self.new.site }
        ensures accepted { OnOk result (port.new ≡ raised_share port.old) }
        ensures refused { OnErr result (port.new ≡ port.old) }
        ensures commits { self.new.commits ≡ self.old.commits }
    {
        self.audit(port);
        self.site.arc(port.controller(), frame)?;
        self.tally.raise(port);
        Ok(())
    }

    /// The holder of this controller's port begins the commit that is due, if one is.
    pub(crate) fn begin_commit(&mut self, c: u8) -> Option<Record>
        ensures answer { result ≡ record_ordered (controller_at (world self.old.site) c).last }
        ensures begun { IfSome result (λ _. self.new.commits ≡ slice_set self.old.commits c commit.Begun) }
        ensures none { result ≡ None → self.new.commits ≡ self.old.commits }
        ensures site { self.new.site ≡ self.old.site }
    {
        let record = ordered(&self.site, c);
        if record.is_some() {
            self.commits.set(c, CommitState::Begun);
        }
        record
    }

    /// The port's holder makes no commit any more. If it had begun one, the store has the record (true), or maybe not.
    pub(crate) fn end_commit(&mut self, port: &Port<P0, P1, P2, P3, D>, is_made: bool)
        ensures ended { state_of self.old.commits port.now.controller ≡ commit.Begun → self.new.commits
            ≡ slice_set self.old.commits port.now.controller (if is_made then commit.Made else commit.Settled) }
        ensures not_begun { (state_of self.old.commits port.now.controller ≡ commit.Begun → ⊥)
            → self.new.commits ≡ self.old.commits }
        ensures site { self.new.site ≡ self.old.site }
    {
        let c = port.controller();
        if self.commits.state(c) == CommitState::Begun {
            let state = if is_made {
                CommitState::Made
            } else {
                CommitState::Settled
            };
            self.commits.set(c, state);
        }
    }

    /// Says what the driver's holder knows of the site. It changes nothing.
    pub(crate) fn audit_driver(&mut self, driver: &mut Driver<P0, P1, P2, P3, D>)
        ensures found { IsFoundByDriver driver.old self.old.site }
        ensures whole { total_of (counts_of self.old.site.log) ≡ length self.old.site.log }
        ensures site { self.new.site ≡ self.old.site }
        ensures driver { driver.new ≡ driver.old }
        ensures commits { self.new.commits ≡ self.old.commits }
    {
        // For the prover, as in `audit`.
        self.site.is_safe();
        self.tally.audit_driver(driver);
    }

    /// The request that is next comes on the bus.
    #[tactic(auto, unfolding(crate::specs::Calls::PumpsOnce))]
    pub(crate) fn pump(
        &mut self,
        driver: &mut Driver<P0, P1, P2, P3, D>,
        trouble: Trouble,
    ) -> Result<Report, Refusal>
        ensures found { IsFoundByDriver driver.old self.old.site }
        ensures answer { PumpsOnce self.old.site trouble result self.new.site }
        ensures accepted { IfOk result (λ r. driver.new ≡ driver.old + events_in r) }
        ensures refused { OnErr result (driver.new ≡ driver.old) }
        ensures commits { self.new.commits ≡ self.old.commits }
    {
        self.audit_driver(driver);
        let report = self.site.pump(trouble)?;
        if report != Report::Idle {
            self.tally.raise_driver(driver);
        }
        Ok(report)
    }

    /// Something happens from outside.
    #[tactic(auto, unfolding(dali_world::specs::Site::HasBefallen))]
    pub(crate) fn befall(
        &mut self,
        driver: &mut Driver<P0, P1, P2, P3, D>,
        what: Outside,
    ) -> Result<(), Refusal>
        ensures found { IsFoundByDriver driver.old self.old.site }
        ensures answer { HasBefallen self.old.site what result self.new.site }
        ensures accepted { OnOk result (driver.new ≡ driver.old + 1) }
        ensures refused { OnErr result (driver.new ≡ driver.old) }
        ensures commits { self.new.commits ≡ self.old.commits }
    {
        self.audit_driver(driver);
        self.site.befall(what)?;
        self.tally.raise_driver(driver);
        Ok(())
    }

    /// The owner loses the bus. Answers which controller it was; None if there was no owner.
    #[tactic(auto, unfolding(crate::specs::Calls::Lapses, dali_world::specs::Site::HasBefallen))]
    pub(crate) fn lapse(
        &mut self,
        driver: &mut Driver<P0, P1, P2, P3, D>,
    ) -> Result<Option<u8>, Refusal>
        ensures found { IsFoundByDriver driver.old self.old.site }
        ensures answer { Lapses self.old.site result self.new.site }
        ensures accepted { OnOk result (driver.new ≡ driver.old + 1) }
        ensures refused { OnErr result (driver.new ≡ driver.old) }
        ensures commits { self.new.commits ≡ self.old.commits }
    {
        let owner = self.site.owner();
        self.befall(driver, Outside::Lapse)?;
        Ok(owner)
    }

    /// Whether a controller that is down is not to come up with these records: they are behind its store, or may fall
    /// behind it.
    fn is_barred(&self, c: u8, copy: &Kept) -> bool
        ensures barred { IsTrue result → ((controller_at (world self.now.site) c).up ≡ false)
            × (MayComeUp (state_of self.now.commits c) (controller_at (world self.now.site) c).records copy.now → ⊥) }
        ensures free { result ≡ false → IsDown (world self.now.site) c
            → MayComeUp (state_of self.now.commits c) (controller_at (world self.now.site) c).records copy.now }
    {
        if !has(&self.site, c) || self.site.table(c).is_some() {
            return false;
        }
        match self.commits.state(c) {
            CommitState::Settled => false,
            CommitState::Begun => true,
            CommitState::Made => copy.same(self.site.kept(c)),
        }
    }

    /// A controller comes up with a copy of its records, unless a commit for it is open.
    #[tactic(auto, unfolding(crate::specs::Calls::ComesUp))]
    pub(crate) fn up(
        &mut self,
        driver: &mut Driver<P0, P1, P2, P3, D>,
        c: u8,
        copy: &Kept,
    ) -> Result<(), UpRefusal>
        ensures found { IsFoundByDriver driver.old self.old.site }
        ensures answer { ComesUp self.old.site c copy.now result self.new.site }
        ensures accepted { OnOk result (driver.new ≡ driver.old + 1) }
        ensures refused { OnErr result (driver.new ≡ driver.old) }
        ensures commits { self.new.commits ≡ self.old.commits }
        ensures settled { OnOk result (MayComeUp (state_of self.old.commits c)
            (controller_at (world self.old.site) c).records copy.now) }
        ensures open { result ≡ Err CommitOpen → MayComeUp (state_of self.old.commits c)
            (controller_at (world self.old.site) c).records copy.now → ⊥ }
    {
        self.audit_driver(driver);
        if self.is_barred(c, copy) {
            return Err(UpRefusal::CommitOpen);
        }
        match self.site.up(c, copy) {
            Ok(()) => {
                self.tally.raise_driver(driver);
                Ok(())
            }
            Err(refusal) => Err(UpRefusal::Site(refusal)),
        }
    }

    /// Says of each port what its holder knows of the site. It changes nothing.
    fn audit_all(&mut self, ports: &mut [Port<P0, P1, P2, P3, D>])
        ensures exact { All (λ one. share_of one.controller self.old.site.log ≡ one.share) ports.old }
        ensures ports { ports.new ≡ ports.old }
        ensures site { self.new.site ≡ self.old.site }
    {
        for place in 0..ports.len() {
            self.audit(&mut ports[place]);
        }
    }

    /// The site, of which each share is what its log has, and whether there is a port for each of its controllers, in
    /// order.
    pub(crate) fn close(
        self,
        ports: ArrayVec<Port<P0, P1, P2, P3, D>, 4>,
        driver: Driver<P0, P1, P2, P3, D>,
    ) -> (SiteState, bool)
        ensures site { result.0 ≡ self.site }
        ensures ports { All (λ one. share_of one.controller result.0.log ≡ one.share) ports.items }
        ensures driver { others_of result.0.log ≡ driver }
        ensures whole { total_of (counts_of result.0.log) ≡ length result.0.log }
        ensures promise { KeepsPromise result.0.plan result.0.queue result.0.log }
        ensures sound { IsSound result.0 }
        ensures all { IsTrue result.1 ↔ (ports.items ≡ shares_of result.0) }
    {
        let mut counted = self;
        let mut driver = driver;
        let mut ports = ports;
        counted.audit_driver(&mut driver);
        let ports = ports.as_mut_slice();
        counted.audit_all(ports);
        let has_all = counted.has_all(ports);
        let CountedSite { site, .. } = counted;
        (site, has_all)
    }

    /// Whether these are as many ports as there are controllers, each that of the controller whose number is its place.
    fn has_all(&self, ports: &[Port<P0, P1, P2, P3, D>]) -> bool
        ensures few { length self.now.site.plan.blocks ≤ 4 }
        ensures all { IsTrue result ↔ (length ports.now ≡ length self.now.site.plan.blocks) × AreInOrder ports.now }
    {
        ports.len() == self.site.plan().blocks().len() && are_in_order(ports)
    }
}

/// Whether each port is that of the controller whose number is its place.
fn are_in_order<P0: Ledger, P1: Ledger, P2: Ledger, P3: Ledger, D: Ledger>(
    ports: &[Port<P0, P1, P2, P3, D>],
) -> bool
    ensures { IsTrue result ↔ AreInOrder ports.now }
{
    for place in 0..ports.len() {
        if ports[place].controller() as usize != place {
            return false;
        }
    }
    true
}

/// Whether a controller is there.
#[tactic(auto, using(crate::proofs::Counts::nobody_there))]
fn has(site: &SiteState, c: u8) -> bool
    ensures there { result ≡ true → c < length site.now.plan.blocks }
    ensures none { result ≡ false → controller_at (world site.now) c ≡ nobody }
    ensures away { result ≡ false → length (world site.now).controllers ≤ c }
{
    // For the prover: the world has the controllers of the plan.
    site.is_safe();
    (c as usize) < site.plan().blocks().len()
}

/// What a controller is told. Nothing, if it is not there.
pub(crate) fn told(site: &SiteState, c: u8) -> Option<Input>
    ensures { result ≡ (controller_at (world site.now) c).told }
{
    if has(site, c) { site.next(c) } else { None }
}

/// What is due for a controller. Nothing, if it is not there.
pub(crate) fn due_for(site: &SiteState, c: u8) -> Due
    ensures { result ≡ due_of (controller_at (world site.now) c) }
{
    if has(site, c) {
        site.due(c)
    } else {
        Due::Nothing
    }
}

/// The record whose commit is due for a controller. None, if it is not there.
fn ordered(site: &SiteState, c: u8) -> Option<Record>
    ensures { result ≡ record_ordered (controller_at (world site.now) c).last }
{
    if has(site, c) { site.ordered(c) } else { None }
}

/// Whether a controller is down, or not there.
pub(crate) fn is_down(site: &SiteState, c: u8) -> bool
    ensures { IsTrue result ↔ ((controller_at (world site.now) c).up ≡ false) }
{
    !has(site, c) || site.table(c).is_none()
}

/// Whether something is due for a controller: it was told something, or its commit is to be made.
pub(crate) fn has_due(site: &SiteState, c: u8) -> bool
    ensures { IsTrue result ↔ HasDue site.now c }
{
    told(site, c).is_some() || due_for(site, c) == Due::Store
}

/// Whether a request more may wait, or the controller is down.
pub(crate) fn may_offer(site: &SiteState, c: u8) -> bool
    ensures { IsTrue result ↔ MayOffer site.now c }
{
    !site.is_crowded() || is_down(site, c)
}

/// Whether nothing is due for any controller: each has ended, has halted or is down.
fn have_ended(site: &SiteState) -> bool
    ensures { IsTrue result ↔ HaveEnded site.now }
{
    let count = site.plan().blocks().len() as u8;
    for c in 0..count {
        if site.due(c) != Due::Nothing {
            return false;
        }
    }
    true
}

/// Whether no controller owns the bus, and nothing is due for any controller.
pub(crate) fn is_over(site: &SiteState) -> bool
    ensures { IsTrue result ↔ ((world site.now).bus.owner ≡ None) × HaveEnded site.now }
{
    site.owner().is_none() && have_ended(site)
}
