//! A controller's records as plain bytes.

ghost use Rattle.std.specs.Prelude.{◌≡◌, ◌<◌, None, IfSome, MatchOption};
ghost use Rattle.dali_script.specs.Records.{Fits, MayAdd, with_record, without_records};
ghost use Rattle.dali_controller.specs.Steps.{with_some};
ghost use Rattle.dali_c.specs.Records.{kept_of, AreRecords, AreCleared};

use dali_frame::Short;
use dali_script::{Block, Pair, Pairs, Record, Records};

/// The records that a controller keeps: its block, and the pairs that are reserved and enrolled, oldest first.
#[repr(C)]
#[derive(Clone, Copy)]
pub struct PlainRecords {
    pub first: u8,
    pub last: u8,
    pub reserved: Pairs,
    pub enrolled: Pairs,
}

impl PlainRecords {
    /// No records, for this block.
    pub(crate) fn new(block: Block) -> PlainRecords
        ensures records { kept_of result ≡ without_records block }
        ensures kept { AreRecords result }
        ensures cleared { AreCleared result }
    {
        PlainRecords {
            first: block.first.number(),
            last: block.last.number(),
            reserved: Pairs::new(),
            enrolled: Pairs::new(),
        }
    }

    /// None if no controller keeps them. Nothing is copied.
    pub(crate) fn read(&self) -> Option<Records<'_>>
        ensures { MatchOption result
            (AreRecords self.now → ⊥)
            (λ records. AreRecords self.now × (records ≡ kept_of self.now)) }
    {
        let first = Short::of(self.first)?;
        let last = Short::of(self.last)?;
        if self.reserved.count > 64 || self.enrolled.count > 64 {
            return None;
        }
        Records::of(
            Block { first, last },
            self.reserved.as_slice(),
            self.enrolled.as_slice(),
        )
    }

    /// The same, if it is known that a controller keeps them.
    pub(crate) fn known(&self) -> Records<'_>
        requires { AreRecords self.now }
        ensures { result ≡ kept_of self.now }
    {
        let (Some(first), Some(last)) = (Short::of(self.first), Short::of(self.last)) else {
            // Both are below 64, as it is required.
            unreachable!();
        };
        Records::known(
            Block { first, last },
            self.reserved.as_slice(),
            self.enrolled.as_slice(),
        )
    }

    /// Adds a record as the last of its kind; a release takes its reservation away.
    pub(crate) fn add(&mut self, added: Record)
        requires records { AreRecords self.old }
        requires fits { Fits (kept_of self.old).block added }
        requires may { MayAdd (kept_of self.old) added }

        ensures kept { AreRecords self.new }
        ensures added { kept_of self.new ≡ with_record (kept_of self.old) added }
        ensures cleared { AreCleared self.old → AreCleared self.new }
    {
        match added {
            Record::Reserve(address, random) => self.reserved.insert(Pair::of(address, random)),
            Record::Enrol(address, random) => self.enrolled.insert(Pair::of(address, random)),
            Record::Release(address, random) => self.reserved.take_out(Pair::of(address, random)),
        }
    }

    /// Adds a record, if there is one.
    pub(crate) fn keep(&mut self, added: Option<Record>)
        requires records { AreRecords self.old }
        requires may { IfSome added (λ x. Fits (kept_of self.old).block x × MayAdd (kept_of self.old) x) }

        ensures kept { AreRecords self.new }
        ensures added { kept_of self.new ≡ with_some (kept_of self.old) added }
        ensures none { added ≡ None → self.new ≡ self.old }
        ensures cleared { AreCleared self.old → AreCleared self.new }
    {
        if let Some(added) = added {
            self.add(added);
        }
    }
}
