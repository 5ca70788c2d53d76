//! Where records are kept: by a name, as in a file.

ghost use Rattle.std.specs.Prelude.{◌≡◌, List, Result, IfOk, OnOk, OnErr, option_map, string_bytes};

use crate::records::Seen;
use dali_commission_said::Failure;
use dali_reserve::Keep;
use dali_script::Kept;
use std::alloc::Global;

/// Who does something with records while they are open, and with what is lent beside them, as a driver.
pub trait Borrower<K, D>: Drop {
    ghost use Rattle.std.specs.Prelude.{Result};
    ghost use Rattle.dali_commission_said.specs.declared.failure.Failure.{Failure};

    /// What comes of it.
    type Out: Drop;

    /// What it does, from one moment of both to another, if this comes of it.
    ghost came: { Self → K → K → D → D → Result Self.Out Failure → Type 0 };

    /// Does it.
    fn take(self, store: &mut K, beside: &mut D) -> Result<Self::Out, Failure>
        ensures { came self store.old store.new beside.old beside.new result };
}

/// Who does something while the records of several names are held, in these places, and with what is lent beside them.
pub trait Holder<F, D>: Drop {
    ghost use Rattle.std.specs.Prelude.{List, Result};
    ghost use Rattle.dali_script.specs.Records.{Kept};
    ghost use Rattle.dali_commission_said.specs.declared.failure.Failure.{Failure};

    /// What is to be done once their files are closed.
    type Due: Drop;

    /// What comes of that.
    type Out: Drop;

    /// The records of this name cannot be had, for this reason: it is said, and answered what the program ends with.
    fn refused(&self, name: &str, failure: Failure) -> Failure
        ensures { result ≡ failure };

    /// What it does with the records of the names, from one moment of the places and of what is lent to another, if
    /// this comes of it.
    ghost dues: { Self → List Kept → F → F → D → D → Result Self.Due Failure → Type 0 };

    /// What it does once the files are closed, from the places before to those after it, if this was due and that came
    /// of it.
    ghost ends: { Self → F → F → Self.Due → Result Self.Out Failure → Type 0 };

    /// Does what is to be done with the records, in the order of their names, and with their files open.
    fn take(&mut self, stores: &mut F, all: &[Kept], beside: &mut D) -> Result<Self::Due, Failure>
        ensures { dues self.old all.now stores.old stores.new beside.old beside.new result };

    /// Does what is to be done then, if that ended well, with each file closed and nothing beside it.
    fn then(self, stores: &mut F, due: Self::Due) -> Result<Self::Out, Failure>
        ensures { ends self stores.old stores.new due result };
}

/// Who does something alone, in these places.
pub trait Actor<F>: Drop {
    ghost use Rattle.std.specs.Prelude.{Result};
    ghost use Rattle.dali_commission_said.specs.declared.failure.Failure.{Failure};

    /// What comes of it.
    type Out: Drop;

    /// What it does: from the places before to those after it, if this came of it.
    ghost acts: { Self → F → F → Result Self.Out Failure → Type 0 };

    /// Does it.
    fn act(self, stores: &mut F) -> Result<Self::Out, Failure>
        ensures { acts self stores.old stores.new result };
}

/// Places where records are kept.
///
/// Nothing else has to know what records are kept in. Contracts see which calls were made that change something, with
/// their names, from the places before a call to those after it, and what was seen at a look (`saw`); not what lies
/// there, which other programs may change.
pub trait Stores: Sized {
    ghost use Rattle.dali_script.specs.Records.{Kept};
    ghost use Rattle.dali_commission_stores.specs.Calls.{Call, Wrote, Renamed, Likened, Removed, Synced};
    ghost use Rattle.dali_commission_stores.specs.Calls.{Opened, Closed, Look, Has, Text, Lies};
    ghost use Rattle.std.specs.Prelude.{false};
    ghost use Rattle.dali_commission_stores.specs.Lent.{Copies, IsHeld, ActsAlone};
    ghost use Rattle.dali_commission_stores.specs.declared.records.Seen.{Seen};

    /// Records that are open.
    type Open: Keep + Drop;

    /// A copy of records.
    type Copy: Keep + Drop;

    ghost made: { Self → Self → Call → Type 0 };

    /// A call that fails has done a part of what it does.
    ghost began: { Self → Self → Call → Type 0 };

    ghost saw: { Self → Look → Type 0 };

    /// What was seen is opened so.
    ghost opens: { Self → Seen → Self.Open → Type 0 };

    /// Whether something has this name, or that cannot be told.
    fn has(&self, name: &str) -> bool
        ensures { saw self.now (Has name.now result) };

    /// Opens the records that were seen. They are made if there are none. `Unfinished` if the journal lies there once
    /// they are open.
    fn open(&mut self, seen: &Seen<'_>) -> Result<Self::Open, Failure>
        ensures opens { IfOk result (λ lent. opens self.old seen.now lent) }
        ensures block { IfOk result (λ lent. Self.Open.block lent ≡ seen.now.block) }
        ensures made { OnOk result (made self.old self.new (Opened seen.now.name.now)) };

    /// Closes records that were opened.
    fn close(&mut self, seen: &Seen<'_>, open: Self::Open) -> Result<(), Failure>
        ensures { OnOk result (made self.old self.new (Closed seen.now.name.now)) };

    /// Why a call of records that are open has failed, if the system tells more of it.
    fn why(&self, seen: &Seen<'_>, failure: Failure) -> Failure;

    /// A copy of the records of this name, as of a controller with all addresses; one with no records if they are not
    /// there. Nothing that is done to the copy changes them. `Unfinished` if this journal lies there once they are
    /// read.
    fn copy(&self, name: &str, journal: &str) -> Result<Self::Copy, Failure>
        ensures { IfOk result (λ copy. saw self.now (Has journal.now false) × Copies Self.Copy.is_up
            Self.Copy.is_sound Self.Copy.holds Self.Copy.block saw self.now name.now copy) };

    /// The name under which lies what has this name, whatever links lead there, also if nothing lies there.
    fn place_of(&self, alloc: Global, name: &str) -> Result<String, Failure>
        ensures { IfOk result (λ at. saw self.now (Lies name.now (string_bytes at))) };

    /// Reads the records of these names, each of another file, and keeps all others from opening them, until the holder
    /// is done. The caller has seen by `copy` that they are records.
    fn hold<D, H: Holder<Self, D>>(
        &mut self,
        alloc: Global,
        names: &[String],
        holder: H,
        beside: &mut D,
    ) -> Result<H::Out, Failure>
        ensures { IsHeld saw names.now (H.dues holder) H.ends self.old self.new beside.old beside.new result };

    /// Keeps all others from acting by what has this name, until the actor is done.
    fn alone<A: Actor<Self>>(&mut self, name: &str, actor: A) -> Result<A::Out, Failure>
        ensures { ActsAlone saw name.now (A.acts actor) self.old self.new result };

    /// The text of this name. None if there is none.
    fn text(&self, alloc: Global, name: &str) -> Result<Option<String>, Failure>
        ensures { IfOk result (λ text. saw self.now (Text name.now (option_map (λ it. string_bytes it) text))) };

    /// Writes a text under this name. A stop leaves none or all of it; once it is written no stop takes it away, nor
    /// what was done in its folder before.
    fn write(&mut self, alloc: Global, name: &str, text: &str) -> Result<(), Failure>
        ensures made { OnOk result (made self.old self.new (Wrote name.now text.now)) }
        ensures began { OnErr result (began self.old self.new (Wrote name.now text.now)) };

    /// Gives what has one name another one in the same folder, where nothing else is left then. A stop leaves it under
    /// one of the two; once it has the other one, no stop takes that away.
    fn rename(&mut self, alloc: Global, from: &str, to: &str) -> Result<(), Failure>
        ensures made { OnOk result (made self.old self.new (Renamed from.now to.now)) }
        ensures began { OnErr result (began self.old self.new (Renamed from.now to.now)) };

    /// Copies to `name` who may read and write `to`, as far as the system allows that.
    fn liken(&mut self, name: &str, to: &str)
        ensures { made self.old self.new (Likened name.now to.now) };

    /// Removes what has this name, if it is there. No stop brings it back.
    fn remove(&mut self, alloc: Global, name: &str) -> Result<(), Failure>
        ensures made { OnOk result (made self.old self.new (Removed name.now)) }
        ensures began { OnErr result (began self.old self.new (Removed name.now)) };

    /// What was done in the folder of this name is on the disk then.
    fn sync(&mut self, name: &str) -> Result<(), Failure>
        ensures made { OnOk result (made self.old self.new (Synced name.now)) }
        ensures began { OnErr result (began self.old self.new (Synced name.now)) };
}
