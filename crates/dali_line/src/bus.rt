ghost use Rattle.std.specs.Prelude.{◌≡◌, ◌⊎◌, ℕ, ◌+◌, false, IfOk, IfErr, IfSome, IfNone, OnOk, OnErr, IsTrue};
ghost use Rattle.dali_script.specs.declared.orders.Input.{Input};
ghost use Rattle.dali_script.specs.declared.orders.Order.{Order};
ghost use Rattle.dali_script.specs.declared.records.Record.{Record};
ghost use Rattle.dali_standing.specs.declared.refusal.Refusal.{Refusal};
ghost use Rattle.dali_events.specs.declared.trouble.Trouble.{Trouble};
ghost use Rattle.dali_standing.specs.declared.report.Report.{Report};
ghost use Rattle.dali_line.specs.declared.ready.Ready.TheVariants as ready;
ghost use Rattle.dali_line.specs.Steps.{IsOfBus};
ghost use Rattle.dali_line.specs.Shares.{PortShare, raised_share};
ghost use Rattle.dali_line.specs.Found.{events_in, FromDriver, IsStuck, IsOver};
ghost use Rattle.dali_line.specs.Calls.{ActsFrom, IsRefusedFrom, IsToldFrom, IsUntoldFrom, IsOrderedFrom};
ghost use Rattle.dali_line.specs.Calls.{IsUnorderedFrom, IsDownFrom};
ghost use Rattle.dali_line.specs.Calls.{PumpsFrom, LapsesFrom};

use crate::driver::Driver;
use crate::line::Line;
use crate::port::Port;
use crate::ready::Ready;
use dali_script::{Due, Input, Record};
use dali_world::{Receipt, Refusal, Report, Trouble};
use std::sync::Wait;
use std::sync::ledger::Ledger;

/// A site that threads share: all that a worker and a pumper need of it. A [`Line`] is one; a vendor may write another,
/// for example one around a line that counts its calls.
///
/// No call hands out a lock, so none is held from one call to the next.
///
/// Contracts see a port by `share`: the controller that it speaks for, and its share, how many events are steps of that
/// controller. They see a driver by `driven`, its share: how many events are no controller's step.
///
/// Contracts see by relations what a call was answered: these say it of the shares before and after. A caller that
/// knows a bus by this trait alone, like a `Worker`, has these relations from its calls alone. So its contract says by
/// them what it did.
///
/// - `acted`: the port's controller acted on this input, and ordered this.
/// - `refused`: it was refused to act on this input.
/// - `told`, `untold`: the bus had told it this, or nothing.
/// - `ordered`, `unordered`: the commit of this record was due for it, or none.
/// - `is_down`: it was found to be down.
/// - `pumped`: under this trouble the bus reported this.
/// - `lapsed`: the owner of the bus lost it.
/// - `is_stuck`: nothing could be sent, since no request was next and no more might wait.
/// - `is_over`: all was over.
/// - `is_stopped`: all was found to be stopped, by a call that looks.
/// - `is_told_to_stop`: a call has stopped all.
pub trait Bus {
    /// The right to act for one controller.
    type Port;

    /// The right to drive the bus.
    type Driver;

    ghost share: { Self.Port → PortShare };

    ghost driven: { Self.Driver → ℕ };

    ghost acted: { PortShare → Input → Order → PortShare → Type 0 };

    ghost refused: { PortShare → Input → Refusal → Type 0 };

    ghost told: { PortShare → Input → Type 0 };

    ghost untold: { PortShare → Type 0 };

    ghost ordered: { PortShare → Record → Type 0 };

    ghost unordered: { PortShare → Type 0 };

    ghost is_down: { PortShare → Type 0 };

    ghost pumped: { ℕ → Trouble → Report → ℕ → Type 0 };

    ghost lapsed: { ℕ → ℕ → Type 0 };

    ghost is_stuck: { ℕ → Type 0 };

    ghost is_over: { ℕ → Type 0 };

    ghost is_stopped: { Self → Type 0 };

    ghost is_told_to_stop: { Self → Type 0 };

    /// The number of the port's controller; 255 if it speaks for no controller.
    fn controller(&self, port: &Self::Port) -> u8
        ensures { result ≡ (share port.now).controller };

    /// The port's controller acts on an input.
    fn act<R: Wait>(&self, rt: &R, port: &mut Self::Port, input: Input) -> Result<Receipt, Refusal>
        ensures accepted { OnOk result (share port.new ≡ raised_share (share port.old)) }
        ensures refused { OnErr result (share port.new ≡ share port.old) }
        ensures receipt { IfOk result (λ r. (r.controller ≡ (share port.old).controller) × (r.input ≡ input)
            × (r.number ≡ (share port.new).share)) }
        ensures acted { IfOk result (λ r. acted (share port.old) input r.order (share port.new)) }
        ensures cause { IfErr result (refused (share port.old) input) };

    /// What the bus has told the port's controller, and it has not acted on; or Start.
    fn next<R: Wait>(&self, rt: &R, port: &mut Self::Port) -> Option<Input>
        ensures same { share port.new ≡ share port.old }
        ensures told { IfSome result (told (share port.old)) }
        ensures of_bus { IfSome result IsOfBus }
        ensures untold { IfNone result (untold (share port.old)) };

    /// What is due for the port's controller.
    fn due<R: Wait>(&self, rt: &R, port: &mut Self::Port) -> Due
        ensures { share port.new ≡ share port.old };

    /// Waits until something is due for the port's controller (true), or until all is stopped or the controller is down
    /// (false).
    fn wait<R: Wait>(&self, rt: &R, port: &mut Self::Port) -> bool
        ensures same { share port.new ≡ share port.old }
        ensures ended { result ≡ false → is_stopped self.now ⊎ is_down (share port.old) };

    /// The port's holder begins the commit that is due, if one is, and is answered its record. Until the controller is
    /// told what became of it, or until `end_commit`, no call brings the controller up.
    fn begin_commit<R: Wait>(&self, rt: &R, port: &mut Self::Port) -> Option<Record>
        ensures same { share port.new ≡ share port.old }
        ensures ordered { IfSome result (ordered (share port.old)) }
        ensures unordered { IfNone result (unordered (share port.old)) };

    /// The port's holder makes no commit any more, and has made one whose outcome it could not tell (true), or not.
    fn end_commit<R: Wait>(&self, rt: &R, port: &mut Self::Port, is_made: bool)
        ensures { share port.new ≡ share port.old };

    /// Waits until a request more may wait, or the port's controller is down (true); or all is stopped (false).
    fn wait_for_room<R: Wait>(&self, rt: &R, port: &mut Self::Port) -> bool
        ensures same { share port.new ≡ share port.old }
        ensures ended { result ≡ false → is_stopped self.now };

    /// The request that is next comes on the bus; Idle if there is none.
    fn pump<R: Wait>(
        &self,
        rt: &R,
        driver: &mut Self::Driver,
        trouble: Trouble,
    ) -> Result<Report, Refusal>
        ensures accepted { IfOk result (λ r. driven driver.new ≡ driven driver.old + events_in r) }
        ensures refused { OnErr result (driven driver.new ≡ driven driver.old) }
        ensures pumped { IfOk result (λ r. pumped (driven driver.old) trouble r (driven driver.new)) };

    /// The owner of the bus loses it. Answers which controller it was; None if there was no owner.
    fn lapse<R: Wait>(&self, rt: &R, driver: &mut Self::Driver) -> Result<Option<u8>, Refusal>
        ensures accepted { OnOk result (driven driver.new ≡ driven driver.old + 1) }
        ensures refused { OnErr result (driven driver.new ≡ driven driver.old) }
        ensures lapsed { OnOk result (lapsed (driven driver.old) (driven driver.new)) };

    /// Waits until all is stopped, a request is next, nothing can be sent, or all is over.
    fn ready<R: Wait>(&self, rt: &R, driver: &mut Self::Driver) -> Ready
        ensures same { driven driver.new ≡ driven driver.old }
        ensures full { result ≡ ready.Full → is_stuck (driven driver.old) }
        ensures over { result ≡ ready.Over → is_over (driven driver.old) }
        ensures stopped { result ≡ ready.Stopped → is_stopped self.now };

    /// All is stopped, for good: a thread that waits now or later is told so.
    fn stop<R: Wait>(&self, rt: &R)
        ensures { is_told_to_stop self.now };

    /// Whether all is stopped.
    fn is_stopped<R: Wait>(&self, rt: &R) -> bool
        ensures { IsTrue result → is_stopped self.now };
}

impl<P0: Ledger, P1: Ledger, P2: Ledger, P3: Ledger, D: Ledger> Bus for Line<P0, P1, P2, P3, D> {
    type Port = Port<P0, P1, P2, P3, D>;

    type Driver = Driver<P0, P1, P2, P3, D>;

    ghost share = { λ port. port };

    ghost driven = { λ driver. driver };

    ghost acted = { ActsFrom };

    ghost refused = { IsRefusedFrom };

    ghost told = { IsToldFrom };

    ghost untold = { IsUntoldFrom };

    ghost ordered = { IsOrderedFrom };

    ghost unordered = { IsUnorderedFrom };

    ghost is_down = { IsDownFrom };

    ghost pumped = { PumpsFrom };

    ghost lapsed = { LapsesFrom };

    ghost is_stuck = { λ driver. FromDriver driver IsStuck };

    ghost is_over = { λ driver. FromDriver driver IsOver };

    // Which lines were stopped is not seen in their values.
    ghost is_stopped = { λ _. Unit {0} };

    ghost is_told_to_stop = { λ _. Unit {0} };

    fn controller(&self, port: &Port<P0, P1, P2, P3, D>) -> u8 {
        port.controller()
    }

    fn act<R: Wait>(
        &self,
        rt: &R,
        port: &mut Port<P0, P1, P2, P3, D>,
        input: Input,
    ) -> Result<Receipt, Refusal> {
        self.act(rt, port, input)
    }

    #[tactic(auto, using(crate::proofs::Telling::told_of_bus))]
    fn next<R: Wait>(&self, rt: &R, port: &mut Port<P0, P1, P2, P3, D>) -> Option<Input> {
        self.next(rt, port)
    }

    fn due<R: Wait>(&self, rt: &R, port: &mut Port<P0, P1, P2, P3, D>) -> Due {
        self.due(rt, port)
    }

    fn wait<R: Wait>(&self, rt: &R, port: &mut Port<P0, P1, P2, P3, D>) -> bool {
        self.wait(rt, port)
    }

    fn begin_commit<R: Wait>(&self, rt: &R, port: &mut Port<P0, P1, P2, P3, D>) -> Option<Record> {
        self.begin_commit(rt, port)
    }

    fn end_commit<R: Wait>(&self, rt: &R, port: &mut Port<P0, P1, P2, P3, D>, is_made: bool) {
        self.end_commit(rt, port, is_made)
    }

    fn wait_for_room<R: Wait>(&self, rt: &R, port: &mut Port<P0, P1, P2, P3, D>) -> bool {
        self.wait_for_room(rt, port)
    }

    fn pump<R: Wait>(
        &self,
        rt: &R,
        driver: &mut Driver<P0, P1, P2, P3, D>,
        trouble: Trouble,
    ) -> Result<Report, Refusal> {
        self.pump(rt, driver, trouble)
    }

    fn lapse<R: Wait>(
        &self,
        rt: &R,
        driver: &mut Driver<P0, P1, P2, P3, D>,
    ) -> Result<Option<u8>, Refusal> {
        self.lapse(rt, driver)
    }

    fn ready<R: Wait>(&self, rt: &R, driver: &mut Driver<P0, P1, P2, P3, D>) -> Ready {
        self.ready(rt, driver)
    }

    fn stop<R: Wait>(&self, rt: &R) {
        self.stop(rt)
    }

    fn is_stopped<R: Wait>(&self, rt: &R) -> bool {
        self.is_stopped(rt)
    }
}
