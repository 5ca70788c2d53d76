ghost use Rattle.std.specs.Prelude.{◌≡◌, ◌<◌, ◌≤◌, ◌↔◌, List, [], ◌∷◌, ◌++◌, true, false, not, IsTrue, length};
ghost use Rattle.std.specs.Prelude.{option_map, IsSome, IfSome};
ghost use Rattle.dali_frame.specs.declared.frames.Forward.{Forward};
ghost use Rattle.dali_special.specs.Command.{command_of};

use crate::finding::Finding;
use crate::kept::Kept;
use crate::reading::Records;
use crate::stage::Stage;
use arrayvec::ArrayVec;
use dali_frame::{Answer, Forward, Random24, Short};
use dali_special::Command;
use std::marker::Model;

/// One frame of a transaction, and what was heard after it.
#[derive(Clone, Copy)]
pub struct Entry {
    pub frame: Forward,
    pub heard: Answer,
}

/// TERMINATE, heard as silence.
impl Default for Entry {
    ghost use Rattle.std.specs.Prelude.{◌≡◌};
    ghost use Rattle.dali_frame.specs.declared.frames.Answer.TheVariants.{Silence};
    ghost use Rattle.dali_special.specs.Command.{frame};

    ghost is_default = { λ e. e ≡ (record { frame = frame 0xA1 0; heard = Silence }) };

    fn default() -> Entry {
        Entry {
            frame: Forward {
                address_byte: 0xA1,
                opcode_byte: 0,
            },
            heard: Answer::Silence,
        }
    }
}

/// The frames of a running transaction, each with what was heard. No script has more than eight.
///
/// Contracts see the list of entries, oldest first.
#[derive(Drop)]
pub struct Trace {
    entries: ArrayVec<Entry, 8>,
    stage: Stage,
}

impl Model for Trace {
    ghost use Rattle.std.specs.Prelude.{◌≡◌, List};
    ghost use Rattle.dali_script.specs.declared.trace.Entry.{Entry};
    ghost use Rattle.dali_script.specs.Stages.{IsTrace};

    ghost Value = { List Entry };

    ghost view = { λ t. t.entries.items };

    ghost invariant = { λ t. IsTrace t.stage t.entries.items };
}

impl Trace {
    ghost use Rattle.dali_script.specs.Scripts.{Lawful, IsLawful, IsTransaction, IsComplete, GoesOn};
    ghost use Rattle.dali_script.specs.Findings.{assigned, finding_of};
    ghost use Rattle.dali_script.specs.Stages.{stage_of, follows, may_follow, IsReached};

    /// No transaction yet.
    pub fn new() -> Trace
        ensures { result ≡ [] }
    {
        Trace {
            entries: ArrayVec::new(),
            stage: Stage::Free,
        }
    }

    /// The same frames once more.
    pub fn copy(&self) -> Trace
        ensures { result ≡ self.now }
    {
        let mut entries = ArrayVec::new();
        match entries.try_extend_from_slice(self.entries()) {
            Ok(()) => Trace {
                entries,
                stage: self.stage,
            },
            // A trace has eight entries at most, and the array has room for eight.
            Err(_) => unreachable!(),
        }
    }

    /// The running transaction of these frames, each with what was heard, oldest first.
    ///
    /// None if no controller has sent them: if one of them is not lawful after those before it, for any sender.
    pub fn of(entries: &[Entry]) -> Option<Trace>
        ensures sent { IsSome result ↔ IsTransaction entries.now }
        ensures same { IfSome result (λ t. t ≡ entries.now) }
    {
        let mut trace = Trace::new();
        for entry in entries {
            if !trace.add(entry.frame, entry.heard) {
                return None;
            }
        }
        // What is a trace was sent.
        let _ = trace.entries();
        Some(trace)
    }

    /// The frames, each with what was heard after it, oldest first.
    pub fn entries(&self) -> &[Entry]
        ensures value { result.now ≡ self.now }
        ensures sent { IsTransaction self.now }
        ensures short { length self.now ≤ 8 }
    {
        &self.entries
    }

    /// Whether a frame may follow, for a sender with these records.
    pub fn allows(&self, kept: &Kept, frame: Forward) -> bool
        ensures lawful { IsTrue result ↔ Lawful kept.now.block kept.now.reserved self.now frame }
        ensures stage { result
            ≡ follows kept.now.block kept.now.reserved (stage_of self.now) (command_of frame) }
    {
        self.allows_by(&kept.view(), frame)
    }

    /// The same, for records that are lent.
    pub fn allows_by(&self, records: &Records<'_>, frame: Forward) -> bool
        ensures lawful { IsTrue result ↔ Lawful records.now.block records.now.reserved self.now frame }
        ensures stage { result
            ≡ follows records.now.block records.now.reserved (stage_of self.now) (command_of frame) }
    {
        self.stage.allows(records, Command::read(frame))
    }

    /// Adds a frame that was sent, and what was heard after it. The frame must be one that some records allow here, and
    /// `reached` how far the transaction is with it: `after` tells that.
    #[inline(always)]
    pub fn push(&mut self, frame: Forward, heard: Answer, reached: Stage)
        requires lawful { IsLawful self.old frame }
        requires reached { IsReached reached (self.old ++ (record { frame = frame; heard = heard }) ∷ []) }
        ensures { self.new ≡ self.old ++ (record { frame = frame; heard = heard }) ∷ [] }
    {
        self.entries.push(Entry { frame, heard });
        self.stage = reached;
    }

    /// Adds a frame that was sent, and what was heard after it, if some records allow it here. Else nothing changes.
    #[inline(always)]
    pub fn add(&mut self, frame: Forward, heard: Answer) -> bool
        ensures lawful { IsTrue result ↔ IsLawful self.old frame }
        ensures added { result ≡ true → self.new ≡ self.old ++ (record { frame = frame; heard = heard }) ∷ [] }
        ensures unchanged { result ≡ false → self.new ≡ self.old }
    {
        match self.stage.led_by(Command::read(frame), heard) {
            Some(stage) => {
                self.entries.push(Entry { frame, heard });
                self.stage = stage;
                true
            }
            None => false,
        }
    }

    /// How far the transaction is once one more frame was sent, and this was heard after it. The frame must be one that
    /// some records allow here, and `command` the one that it is read as.
    #[inline(always)]
    pub fn after(&self, frame: Forward, command: Command, heard: Answer) -> Stage
        requires lawful { IsLawful self.now frame }
        requires read { command ≡ command_of frame }
        ensures { IsReached result (self.now ++ (record { frame = frame; heard = heard }) ∷ []) }
    {
        let mut stage = self.stage;
        stage.advance(command, heard);
        stage
    }

    /// Whether no frame may follow, for a sender with these records.
    pub fn complete(&self, kept: &Kept) -> bool
        ensures complete { IsTrue result → IsComplete kept.now.block kept.now.reserved self.now }
        ensures goes_on { result ≡ false → GoesOn kept.now.block kept.now.reserved self.now }
        ensures stage { result
            ≡ not (may_follow kept.now.block kept.now.reserved (stage_of self.now)) }
    {
        self.complete_by(&kept.view())
    }

    /// The same, for records that are lent.
    pub fn complete_by(&self, records: &Records<'_>) -> bool
        ensures complete { IsTrue result → IsComplete records.now.block records.now.reserved self.now }
        ensures goes_on { result ≡ false → GoesOn records.now.block records.now.reserved self.now }
        ensures stage { result
            ≡ not (may_follow records.now.block records.now.reserved (stage_of self.now)) }
    {
        // What is reserved are short addresses, so each has a frame that programs it.
        let _ = records.block();
        !self.stage.goes_on(records)
    }

    /// The short address and the random address of the last finding.
    pub fn finding(&self) -> Option<(Short, Random24)>
        ensures { result ≡ option_map assigned (finding_of self.now) }
    {
        Some(self.how_found()?.assigned())
    }

    /// The last finding, with how the gear was found.
    pub fn how_found(&self) -> Option<Finding>
        ensures { result ≡ finding_of self.now }
    {
        self.stage.finding()
    }

    /// How far the transaction is.
    pub fn stage(&self) -> Stage
        ensures { result ≡ stage_of self.now }
    {
        self.stage
    }
}
