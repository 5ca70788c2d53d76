//! What is true of a row of gear while a short address is mended, whatever is lost, destroyed, damaged or powered.
//! Programs don't call these.

ghost use Rattle.std.specs.Prelude.{◌≡◌, ℕ, List, ◌∷◌, map, slice_get, Some, None, true, false};
ghost use Rattle.dali_gear.specs.Gear.{has_short};
ghost use Rattle.dali_mending.specs.declared.course.Course.{Course};
ghost use Rattle.dali_mending.specs.Course.{IsCourse, Spares};
ghost use Rattle.dali_gear.specs.declared.row.Reach.TheVariants.{Everyone};
ghost use Rattle.dali_mending.specs.Planned.{Mended, all_mended, IsMended, AreSpared, IsOneNumber, IsPlanBut};
ghost use Rattle.dali_mending.specs.Planned.{with_gear};
ghost use Rattle.dali_mending.specs.Transactions.{beginning};
ghost use Rattle.dali_statement.specs.Gear.{gear_seen};
ghost use Rattle.dali_statement.specs.Page.{Gear, IsPlan, Plan, are_apart};
ghost use Rattle.dali_mending.specs.Rows.{Befall, Moment, sent, takes_part};
ghost use Rattle.dali_mending.specs.Rows.{Site, Sending, AllSpare, all_sent, Each, Keeps, IsGivenNone};

/// ONLY GEAR WITH THE SHORT ADDRESS ARE INITIALISED by an INITIALISE of it in the transaction of a TERMINATE that was
/// not destroyed: no other gear takes part.
pub fn only_gear_with_the_address_are_initialised()
    ensures { (a : ℕ) (befalls : List Befall) (ms : List Moment) (s : Site)
        → Each (λ g h. has_short a g.short ≡ false → takes_part h ≡ false) s.gear
        (sent (beginning a) (record { before = befalls; reach = Everyone } ∷ ms) s).gear }
{}

/// ALL OTHER GEAR KEEP BOTH ADDRESSES: whatever transactions of the mending of a short address are sent, each gear that
/// does not have it when they begin keeps its short and its random address.
pub fn others_keep_their_addresses()
    ensures { (a : ℕ) (xs : List Sending) (s : Site)
        → Each (λ g h. has_short a g.short ≡ false → Keeps g h) s.gear (all_sent a xs s).gear }
{}

/// NO GEAR IS GIVEN A SHORT ADDRESS by any of them: it keeps the one that it has, or loses it.
pub fn no_short_address_is_given()
    ensures { (a : ℕ) (xs : List Sending) (s : Site) → Each IsGivenNone s.gear (all_sent a xs s).gear }
{}

/// THE GEAR OF A TABLE KEEP BOTH ADDRESSES: a gear with this random address keeps it, with its short address, if none
/// of the transactions lets gear draw, and none erases under this number.
pub fn the_gear_of_a_table_keeps_its_addresses()
    ensures { (a r : ℕ) (xs : List Sending) (s : Site) → AllSpare r xs
        → Each (λ g h. g.random ≡ r → Keeps g h) s.gear (all_sent a xs s).gear }
{}

/// A mending that has a table spares the gear of the table, at every stage.
pub fn mendings_spare_the_gear_of_the_table()
    ensures { (c : Course) (r : ℕ) → IsCourse c → c.table ≡ Some r → Spares r c.stage }
{}

/// GEAR THAT WERE MENDED ARE THOSE OF A PLAN OF THE PAGE (`IsPlan` of `dali_statement`), with the records that are
/// there: short addresses were mended one after the other, by whatever transactions were sent. Gear may share these
/// addresses before, but no others (`IsPlanBut`). Then one number alone must be at each of them, no two gear may have
/// one number, and each mending must have spared the gear of all tables. So histories of the page may begin there.
pub fn mended_gear_are_a_plan()
    ensures { (p : Plan) (ms : List Mended) (s : Site) → p.gear ≡ map gear_seen s.gear
        → IsPlanBut (λ a. IsMended a ms) p → AreSpared p ms
        → are_apart (map gear_seen (all_mended ms s).gear) ≡ true
        → ((a : ℕ) → IsMended a ms → IsOneNumber a (map gear_seen (all_mended ms s).gear))
        → IsPlan (with_gear p (all_mended ms s)) }
{}

/// CLEARED GEAR ARE A PLAN, if none has a short address and no record is there.
pub fn cleared_gear_are_a_plan()
    ensures { (p : Plan) → ((i : ℕ) (g : Gear) → slice_get p.gear i ≡ Some g → g.short ≡ None)
        → ((c a : ℕ) → p.reserved c a ≡ None) → ((c a r : ℕ) → p.enrolled c a r ≡ false) → IsPlan p }
{}
