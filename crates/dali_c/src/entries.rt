//! The frames of a running transaction as plain bytes.

ghost use Rattle.std.specs.Prelude.{◌≡◌, ◌≤◌, List, Some, length, take, IfSome, IfNone};
ghost use Rattle.dali_script.specs.declared.trace.Entry.{Entry};
ghost use Rattle.dali_script.specs.Scripts.{IsTransaction};
ghost use Rattle.dali_c.specs.Entries.{entry_of, AreEntries, IsPlainTrace};

use crate::codes::{answer_code, answer_of};
use dali_frame::Forward;
use dali_script::{Entry, Trace};

/// The most frames of a running transaction.
pub(crate) const FRAMES: usize = 8;

/// A frame, and what was heard after it.
#[repr(C)]
#[derive(Clone, Copy)]
pub struct PlainEntry {
    pub address_byte: u8,
    pub opcode_byte: u8,
    pub heard: u8,
    pub byte: u8,
}

/// All bytes 0.
impl Default for PlainEntry {
    ghost use Rattle.std.specs.Prelude.{◌≡◌};
    ghost use Rattle.dali_c.specs.Entries.{no_entry};

    ghost is_default = { λ e. e ≡ no_entry };

    fn default() -> PlainEntry {
        PlainEntry {
            address_byte: 0,
            opcode_byte: 0,
            heard: 0,
            byte: 0,
        }
    }
}

impl PlainEntry {
    pub(crate) fn of(entry: Entry) -> PlainEntry
        ensures { entry_of result ≡ Some entry }
    {
        let (heard, byte) = answer_code(entry.heard);
        PlainEntry {
            address_byte: entry.frame.address_byte,
            opcode_byte: entry.frame.opcode_byte,
            heard,
            byte,
        }
    }

    /// None if it has no code of what was heard.
    pub(crate) fn read(self) -> Option<Entry>
        ensures { result ≡ entry_of self }
    {
        let heard = answer_of(self.heard, self.byte)?;
        let frame = Forward {
            address_byte: self.address_byte,
            opcode_byte: self.opcode_byte,
        };
        Some(Entry { frame, heard })
    }
}

/// A list in the first places of as many as there may be.
pub(crate) fn write_entries(entries: &[Entry]) -> [PlainEntry; FRAMES]
    requires { length entries.now ≤ 8 }
    ensures { AreEntries (take (length entries.now) result) entries.now }
{
    let mut plain = [PlainEntry::default(); FRAMES];
    for at in 0..entries.len() {
        plain[at] = PlainEntry::of(entries[at]);
    }
    plain
}

/// The running transaction of these frames. None if no controller has sent them.
fn read_frames(plain: &[PlainEntry]) -> Option<Trace>
    requires { length plain.now ≤ 8 }
    ensures trace { IfSome result (λ t. AreEntries plain.now t × IsTransaction t) }
    ensures none { IfNone result
        ((t : List Entry) → AreEntries plain.now t → IsTransaction t → ⊥) }
{
    let mut trace = Trace::new();
    for entry in plain {
        let Entry { frame, heard } = entry.read()?;
        if !trace.add(frame, heard) {
            return None;
        }
    }
    // What is a trace was sent.
    let _ = trace.entries();
    Some(trace)
}

/// The running transaction of the first frames of these.
pub(crate) fn read_trace(plain: &[PlainEntry; FRAMES], count: u8) -> Option<Trace>
    ensures trace { IfSome result (IsPlainTrace plain.now count) }
    ensures none { IfNone result ((t : List Entry) → IsPlainTrace plain.now count t → ⊥) }
{
    read_frames(plain.get(..usize::from(count))?)
}
