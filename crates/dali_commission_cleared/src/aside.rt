//! Files of records are put aside, before anything changes that makes them wrong.

ghost use Rattle.std.specs.Prelude.{◌≡◌, OnOk, IsTrue, ◌↔◌, []};
ghost use Rattle.dali_commission_stores.specs.Calls.{AreMade};
ghost use Rattle.dali_commission_cleared.specs.Clearing.{asides, AddsFilled, AreFilled, ArePutAside, IsNewAside};
ghost use Rattle.dali_commission_cleared.specs.Clearing.{AreNewAside};

use dali_commission_said::{Failure, Voice, add, or_say, say_refused};
use dali_commission_stores::{
    Holder, Stores, free_number, place_of, put_one_aside, read, say_kept,
};
use dali_replacement::kept_of;
use dali_script::Kept;

/// No file of records has a gear any more: those that had were put aside.
#[derive(Drop)]
pub(crate) struct Aside {
    _ended: (),
}

/// Gives each file the name under which it is kept.
fn rename_all<S: Voice + AllocGlobal, F: Stores>(
    system: &S,
    stores: &mut F,
    names: &[String],
    number: u32,
) -> Result<(), Failure>
    ensures { OnOk result (AreMade F.made (asides names.now number) stores.old stores.new) }
{
    let [name, more @ ..] = names else {
        return Ok(());
    };
    let alloc = system.alloc();
    let kept = kept_of(alloc, name, number)?;
    or_say(system, name, stores.rename(alloc, name, &kept))?;
    rename_all(system, stores, more, number)
}

/// Who puts files aside.
#[derive(Drop)]
struct Setting<'a, S> {
    system: &'a S,
    /// Where they lie.
    names: &'a [String],
    /// All that are named.
    records: &'a [String],
}

impl<'a, S: Voice + AllocGlobal, F: Stores, D> Holder<F, D> for Setting<'a, S> {
    type Due = (&'a [String], &'a [String]);

    type Out = u32;

    ghost use Rattle.std.specs.Prelude.{◌≡◌, IfOk};
    ghost use Rattle.dali_commission_cleared.specs.Clearing.{AreRenamed};

    ghost dues = { λ setting _ from to _ _ result. (to ≡ from) × IfOk result (λ due.
        (due.0.now ≡ setting.names.now) × (due.1.now ≡ setting.records.now)) };

    ghost ends = { λ _ from to due result. IfOk result (λ number.
        AreRenamed F.made F.saw due.1.now due.0.now number from to) };

    fn refused(&self, name: &str, failure: Failure) -> Failure {
        say_refused(self.system, name, failure)
    }

    fn take(
        &mut self,
        _stores: &mut F,
        _all: &[Kept],
        _beside: &mut D,
    ) -> Result<(&'a [String], &'a [String]), Failure> {
        Ok((self.names, self.records))
    }

    fn then(
        self,
        stores: &mut F,
        (names, records): (&'a [String], &'a [String]),
    ) -> Result<u32, Failure> {
        let number = free_number(self.system.alloc(), stores, names, records)?;
        rename_all(self.system, stores, names, number)?;
        Ok(number)
    }
}

/// Whether a table names no gear.
fn is_empty(kept: &Kept) -> bool
    ensures { IsTrue result ↔ ((kept.now.reserved ≡ []) × (kept.now.enrolled ≡ [])) }
{
    kept.reserved().is_empty() && kept.enrolled().is_empty()
}

/// Adds where the file of a name lies, if it is there and not empty.
fn add_filled<S: Voice + AllocGlobal, F: Stores>(
    system: &S,
    stores: &F,
    name: &str,
    places: &mut Vec<String>,
) -> Result<(), Failure>
    ensures { OnOk result (AddsFilled F.saw stores.now name.now places.old.items places.new.items) }
{
    let place = place_of(system, stores, name)?;
    if !stores.has(&place) {
        return Ok(());
    }
    if is_empty(&read(system, stores, &place)?) {
        Ok(())
    } else {
        add(places, place)
    }
}

/// Adds where the files of these names lie that are there and not empty.
fn push_filled<S: Voice + AllocGlobal, F: Stores>(
    system: &S,
    stores: &F,
    records: &[String],
    places: &mut Vec<String>,
) -> Result<(), Failure>
    ensures { OnOk result (AreFilled F.saw stores.now places.old.items records.now places.new.items) }
{
    let [name, more @ ..] = records else {
        return Ok(());
    };
    add_filled(system, stores, name, places)?;
    push_filled(system, stores, more, places)
}

/// Puts the files of these names aside that are not empty, and says where they are kept.
pub(crate) fn put_aside<S: Voice + AllocGlobal, F: Stores>(
    system: &S,
    stores: &mut F,
    records: &[String],
) -> Result<Aside, Failure>
    ensures { OnOk result (ArePutAside F.made F.saw (S.told system.now) records.now stores.old stores.new) }
{
    let mut names = Vec::new(system.alloc());
    push_filled(system, stores, records, &mut names)?;
    let setting = Setting {
        system,
        names: &names,
        records,
    };
    let number = stores.hold(system.alloc(), &names, setting, &mut ())?;
    say_kept(system, &names, number)?;
    Ok(Aside { _ended: () })
}

/// Puts aside the new file that a stopped replacement has left beside the file of this name.
fn put_its_new_aside<S: Voice + AllocGlobal, F: Stores>(
    system: &S,
    stores: &mut F,
    name: &str,
) -> Result<(), Failure>
    ensures { OnOk result (IsNewAside F.made F.saw (S.told system.now) name.now stores.old stores.new) }
{
    let place = place_of(system, stores, name)?;
    put_one_aside(system, stores, &place)
}

/// Puts aside the new files that a stopped replacement has left beside the files of these names.
pub(crate) fn put_new_aside<S: Voice + AllocGlobal, F: Stores>(
    system: &S,
    stores: &mut F,
    records: &[String],
) -> Result<(), Failure>
    ensures { OnOk result (AreNewAside F.made F.saw (S.told system.now) records.now stores.old stores.new) }
{
    let [name, more @ ..] = records else {
        return Ok(());
    };
    put_its_new_aside(system, stores, name)?;
    put_new_aside(system, stores, more)
}
