ghost use Rattle.std.specs.Prelude.{◌≡◌, ◌≢◌, ℕ, false, IsTrue, IsSome, IfOk, IfErr, IfSome, IfNone, OnOk, OnErr};
ghost use Rattle.std.specs.declared.option.Option.TheVariants.{None, Some};
ghost use Rattle.once_cell.specs.Once.{cell_name};
ghost use Rattle.dali_enrol.specs.declared.error.DirectoryError.TheVariants.{NoMemory};
ghost use Rattle.dali_enrol.specs.Directory.{IsOfAddress};

use crate::error::DirectoryError;
use dali_frame::Short;
use dali_script::Enrolled;
use once_cell::race::{Note, OnceBox};
use std::alloc::Global;
use std::marker::Model;

/// How many short addresses there are.
const ADDRESSES: usize = 64;

/// For each short address nothing, or one entry for good: set once, and then read by every thread without waiting.
///
/// Contracts see the names of its places. What stands in a place is seen through a pass.
#[derive(Drop)]
pub struct Directory {
    places: Vec<OnceBox<Enrolled>>,
}

impl Model for Directory {
    ghost use Rattle.std.specs.Prelude.{◌≡◌, ℕ, List, map};
    ghost use Rattle.std.specs.Vec.{vec_len};
    ghost use Rattle.once_cell.specs.Once.{cell_name};

    ghost Value = { List ℕ };

    ghost view = { λ d. map cell_name d.places.items };

    ghost invariant = { λ d. vec_len d.places ≡ 64 };
}

/// What one reader of a directory has learned of it: for each short address nothing yet, or the entry that stands
/// there for good.
///
/// Contracts see the places that it is of, what it knows, and what it found standing where it posted.
#[derive(Drop)]
pub struct Pass {
    notes: Vec<Note<Enrolled>>,
    /// If a card was posted or handed back, what stands there, be it of another address.
    standing: Vec<Note<Enrolled>>,
}

impl Model for Pass {
    ghost use Rattle.std.specs.Prelude.{◌≡◌, map};
    ghost use Rattle.std.specs.Vec.{vec_len};
    ghost use Rattle.dali_enrol.specs.Directory.{Pass, AtItsAddress};

    ghost Value = { Pass };

    ghost view = { λ p. record {
      places = map (λ n. n.cell) p.notes.items;
      known = map (λ n. n.known) p.notes.items;
      standing = map (λ n. n.known) p.standing.items;
    } };

    ghost invariant = { λ p. (vec_len p.notes ≡ 64) × (vec_len p.standing ≡ 64)
        × AtItsAddress (map (λ n. n.known) p.notes.items)
        × (map (λ n. n.cell) p.standing.items ≡ map (λ n. n.cell) p.notes.items) };
}

impl Directory {
    ghost use Rattle.dali_enrol.specs.Directory.{IsNothing, Keeps, known_at, stands_at};

    /// A directory in which nothing stands. It takes all the memory that it will need beside its cards.
    pub fn new(alloc: Global) -> Result<Directory, DirectoryError>
        ensures refusal { IfErr result (λ e. e ≡ NoMemory) }
    {
        let Ok(mut places) = Vec::with_capacity(alloc, ADDRESSES) else {
            return Err(DirectoryError::NoMemory);
        };
        for _ in 0..ADDRESSES {
            places.push_reserved(OnceBox::new(alloc));
        }
        Ok(Directory { places })
    }

    /// A pass of this directory that knows nothing yet.
    pub fn pass(&self, alloc: Global) -> Result<Pass, DirectoryError>
        ensures places { IfOk result (λ p. p.places ≡ self.now) }
        ensures nothing { IfOk result IsNothing }
        ensures refusal { IfErr result (λ e. e ≡ NoMemory) }
    {
        let Ok(mut notes) = Vec::with_capacity(alloc, ADDRESSES) else {
            return Err(DirectoryError::NoMemory);
        };
        let Ok(mut standing) = Vec::with_capacity(alloc, ADDRESSES) else {
            return Err(DirectoryError::NoMemory);
        };
        for place in &self.places {
            notes.push_reserved(place.note());
            standing.push_reserved(place.note());
        }
        Ok(Pass { notes, standing })
    }

    /// The entry of a short address; `None` if none is there yet. It never waits and takes no memory.
    ///
    /// Once a pass got an entry, it gets this same one each time.
    pub fn look(&self, pass: &mut Pass, address: Short) -> Option<&Enrolled>
        requires { pass.old.places ≡ self.now }
        ensures places { pass.new.places ≡ pass.old.places }
        ensures address { IfSome result (λ e. e.now.short ≡ address) }
        ensures known { IfSome result (λ e. known_at pass.new address ≡ Some e.now) }
        ensures others { (a : ℕ) → a ≢ address → known_at pass.new a ≡ known_at pass.old a }
        ensures kept { Keeps pass.old pass.new }
        ensures standing { pass.new.standing ≡ pass.old.standing }
        ensures none { IfNone result (known_at pass.old address ≡ None) }
        ensures unchanged { IfNone result (pass.new ≡ pass.old) }
    {
        let at = usize::from(address.number());
        ask(&self.places[at], &mut pass.notes[at], address)
    }

    /// Puts an entry at its short address, for good. It never waits and takes no memory.
    ///
    /// The card is handed back only if one was put there before. The pass then knows that one stands there, and
    /// which (`stands_at`): what it knows under this address, if anything. That it is of this address, `look` says.
    pub fn post(&self, pass: &mut Pass, card: Box<Enrolled>) -> Result<(), Box<Enrolled>>
        requires { pass.old.places ≡ self.now }
        ensures places { pass.new.places ≡ pass.old.places }
        ensures posted { OnOk result (known_at pass.new card.value.short ≡ Some card.value) }
        ensures others { (a : ℕ) → a ≢ card.value.short → known_at pass.new a ≡ known_at pass.old a }
        ensures first { OnOk result ((known_at pass.old card.value.short ≡ None)
            × (stands_at pass.old card.value.short ≡ None)) }
        ensures kept { Keeps pass.old pass.new }
        ensures back { IfErr result (λ back. back.value ≡ card.value) }
        ensures unchanged { OnErr result (pass.new.known ≡ pass.old.known) }
        ensures stands { IsSome (stands_at pass.new card.value.short) }
        ensures still { (a : ℕ) → IfSome (stands_at pass.old a) (λ e. stands_at pass.new a ≡ Some e) }
        ensures nowhere_else { (a : ℕ) → a ≢ card.value.short → stands_at pass.new a ≡ stands_at pass.old a }
        ensures which { IfSome (known_at pass.new card.value.short)
            (λ e. stands_at pass.new card.value.short ≡ Some e) }
        ensures settled { (a : ℕ) → IsSome (stands_at pass.old a) → known_at pass.new a ≡ known_at pass.old a }
    {
        let at = usize::from(card.short().number());
        offer(
            &self.places[at],
            &mut pass.notes[at],
            &mut pass.standing[at],
            card,
        )
    }

    /// Two passes of one directory that both know an entry of a short address know the same one. It never waits
    /// and takes no memory.
    pub fn agree(one: &mut Pass, other: &mut Pass, address: Short)
        requires { one.old.places ≡ other.old.places }
        ensures same { IfSome (known_at one.old address) (λ e. IfSome (known_at other.old address) (λ f. e ≡ f)) }
        ensures one { one.new ≡ one.old }
        ensures other { other.new ≡ other.old }
    {
        let at = usize::from(address.number());
        compare(&mut one.notes[at], &mut other.notes[at]);
    }
}

/// The entry of a short address that stands in a place. An entry of another address is no answer, and is not noted.
fn ask<'a>(
    place: &'a OnceBox<Enrolled>,
    note: &mut Note<Enrolled>,
    address: Short,
) -> Option<&'a Enrolled>
    requires place { note.old.cell ≡ cell_name place.now }
    requires own { IsOfAddress note.old.known address }
    ensures place { note.new.cell ≡ note.old.cell }
    ensures own { IsOfAddress note.new.known address }
    ensures found { IfSome result (λ e. (e.now.short ≡ address) × (note.new.known ≡ Some e.now)) }
    ensures kept { IfSome note.old.known (λ e. note.new.known ≡ Some e) }
    ensures none { IfNone result ((note.old.known ≡ None) × (note.new ≡ note.old)) }
{
    let was = note.again();
    // Only by its address is it known to be the entry that was asked for: the type of a place does not say it.
    match place.get_as(note) {
        Some(entry) if entry.short() == address => Some(entry),
        _ => {
            *note = was;
            None
        }
    }
}

/// Whether something stands in a place. The second note has it then.
fn is_taken(
    place: &OnceBox<Enrolled>,
    note: &mut Note<Enrolled>,
    stands: &mut Note<Enrolled>,
) -> bool
    requires note { note.old.cell ≡ cell_name place.now }
    requires stands { stands.old.cell ≡ cell_name place.now }
    ensures taken { IsTrue result → IsSome stands.new.known }
    ensures free { result ≡ false → note.old.known ≡ None }
    ensures note { note.new ≡ note.old }
    ensures place { stands.new.cell ≡ stands.old.cell }
    ensures kept { IfSome stands.old.known (λ e. stands.new.known ≡ Some e) }
    ensures which { IsTrue result → IfSome note.old.known (λ e. stands.new.known ≡ Some e) }
{
    let mut seen = note.again();
    if place.get_as(&mut seen).is_none() {
        return false;
    }
    stands.compare(seen.again());
    *stands = seen;
    true
}

/// Puts a card into a place, if nothing stands there. The second note has what stands there then, whatever its
/// address.
fn offer(
    place: &OnceBox<Enrolled>,
    note: &mut Note<Enrolled>,
    stands: &mut Note<Enrolled>,
    card: Box<Enrolled>,
) -> Result<(), Box<Enrolled>>
    requires place { note.old.cell ≡ cell_name place.now }
    requires same_place { stands.old.cell ≡ cell_name place.now }
    requires own { IsOfAddress note.old.known card.value.short }
    ensures place { note.new.cell ≡ note.old.cell }
    ensures own { IsOfAddress note.new.known card.value.short }
    ensures kept { IfSome note.old.known (λ e. note.new.known ≡ Some e) }
    ensures posted { OnOk result (note.new.known ≡ Some card.value) }
    ensures first { OnOk result ((note.old.known ≡ None) × (stands.old.known ≡ None)) }
    ensures back { IfErr result (λ back. (back.value ≡ card.value) × (note.new ≡ note.old)) }
    ensures same_place { stands.new.cell ≡ stands.old.cell }
    ensures stands { IsSome stands.new.known }
    ensures still { IfSome stands.old.known (λ e. stands.new.known ≡ Some e) }
    ensures which { IfSome note.new.known (λ e. stands.new.known ≡ Some e) }
    ensures settled { IsSome stands.old.known → note.new.known ≡ note.old.known }
{
    if is_taken(place, note, stands) {
        return Err(card);
    }
    let posted = place.set_as(card, stands);
    if posted.is_ok() {
        *note = stands.again();
    }
    posted
}

/// Two notes of one place that know an entry know the same one.
fn compare(one: &mut Note<Enrolled>, other: &mut Note<Enrolled>)
    requires { one.old.cell ≡ other.old.cell }
    ensures same { IfSome one.old.known (λ e. IfSome other.old.known (λ f. e ≡ f)) }
    ensures one { one.new ≡ one.old }
    ensures other { other.new ≡ other.old }
{
    one.compare(other.again());
}
