//! What is proved of the audit and of every undisturbed run together. Programs don't call these.

ghost use Rattle.std.specs.Prelude.{ℕ, List, ◌≡◌, []};
ghost use Rattle.dali_events.specs.declared.event.Event.{Event};
ghost use Rattle.dali_events.specs.Plan.{Plan};
ghost use Rattle.dali_events.specs.Runs.{after};
ghost use Rattle.dali_audit.specs.Findings.{findings_in, known_in};
ghost use Rattle.dali_audit_laws.specs.Capture.{capture_of};
ghost use Rattle.dali_audit_laws.specs.Undisturbed.{IsUndisturbed};
ghost use Rattle.dali_audit_laws.specs.Tables.{IsTableOf};

/// AN UNDISTURBED RUN HAS NO FINDING. The capture of every run in which nothing was disturbed breaks no rule of the
/// audit (`findings`), and the table that the audit has of it is that of the gear (`table`).
pub fn undisturbed_runs_have_no_finding()
    ensures findings { (p : Plan) (capacity : ℕ) (log : List Event) → IsUndisturbed p capacity log
        → findings_in (capture_of log) ≡ [] }
    ensures table { (p : Plan) (capacity : ℕ) (log : List Event) → IsUndisturbed p capacity log
        → IsTableOf (after p capacity log).gear (known_in (capture_of log)).table }
{}
