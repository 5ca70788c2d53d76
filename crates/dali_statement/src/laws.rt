//! What is proved of the page. Programs don't call these.

ghost use Rattle.std.specs.Prelude.{◌≡◌, ◌≢◌, ◌⊎◌, ℕ, List, Bool};
ghost use Rattle.std.specs.Prelude.{[], ◌∷◌, map, ◌++◌, Option, Some, true, false, not, ◌==◌, ◌&&◌};
ghost use Rattle.std.specs.List.{AllByRecursion};
ghost use Rattle.dali_special.specs.declared.command.Part.{Part as AskedPart};
ghost use Rattle.dali_special.specs.declared.command.Command.{Command as Read};
ghost use Rattle.dali_special.specs.declared.command.Command.TheVariants as read;
ghost use Rattle.dali_special.specs.Command.{command_of, is_send_twice, IsSpelled};
ghost use Rattle.dali_frame.specs.declared.frames.Forward.{Forward};
ghost use Rattle.dali_frame.specs.declared.frames.Answer.{Answer};
ghost use Rattle.dali_frame.specs.Random.{value_of};
ghost use Rattle.dali_frame.specs.Short.{short_of};
ghost use Rattle.dali_script.specs.declared.block.Block.{Block};
ghost use Rattle.dali_script.specs.declared.trace.Entry.{Entry};
ghost use Rattle.dali_script.specs.Records.{Assignment, Has};
ghost use Rattle.dali_script.specs.declared.records.Record.TheVariants as record_of;
ghost use Rattle.dali_script.specs.Findings.{search_of};
ghost use Rattle.dali_script.specs.Scripts.{Lawful};
ghost use Rattle.dali_gear.specs.Gear.{Gear as Real, after_frame, answer_to, with_power, without_power, gear_expired};
ghost use Rattle.dali_gear.specs.Gear.{gear_quieted};
ghost use Rattle.dali_gear.specs.declared.row.Reach.{Reach};
ghost use Rattle.dali_gear.specs.declared.row.Reach.TheVariants.{Everyone};
ghost use Rattle.dali_gear.specs.Row.{row_after, answers_of};
ghost use Rattle.dali_statement.specs.Page.{Moment, Plan, QueryShort, QueryRandom, takes, answer, is_told, IsHistory};
ghost use Rattle.dali_statement.specs.Page.{KeepsPromise, Byte, befalls, hears, Part, byte, Site, tells, may_send};
ghost use Rattle.dali_statement.specs.Page.{Gear, IsPlan, Command, Heard, holds, allowed, happens};
ghost use Rattle.dali_statement.specs.Page.{start};
ghost use Rattle.dali_statement.specs.Own.{Own, Act, Puts, Loses, Keeps, AreOwn, IsProgram, rest_all_allowed};
ghost use Rattle.dali_statement.specs.Again.{ended, IsReplaced};
ghost use Rattle.dali_statement.specs.Scripts.{said_of};
ghost use Rattle.dali_statement.specs.Gear.{part_seen, command_seen, gear_seen, HasShort};
ghost use Rattle.dali_statement.specs.Whole.{IsKeptByAll, IsKeptInStep};
ghost use Rattle.dali_statement.specs.Weaker.{Break, BreakUnder, BreakIf, BreakFrom, with_program, unnumbered};
ghost use Rattle.dali_statement.specs.Weaker.{initialised_since, unqueried, unanswered, searched_since};
ghost use Rattle.dali_statement.specs.Weaker.{programmed_since, unreserved, unsent, destroying_any};
ghost use Rattle.dali_statement.specs.Weaker.{enrolling_beyond, mishearing_bytes};
ghost use Rattle.dali_statement.specs.Weaker.{erasing, initialising_all, with_randomise, none_programmed};
ghost use Rattle.dali_statement.specs.Weaker.{is_terminated, Shorts, Short, Block as BlockRow, Small, Below, Numbered};
ghost use Rattle.dali_statement.specs.Weaker.{enrolling, with_reserve, twice, elsewhere, used, beyond, undrawn, Tabled};
ghost use Rattle.dali_statement.specs.Weaker.{with_release, mishearing, with_gear, missing, misreading, executing_all};
ghost use Rattle.dali_statement.specs.Weaker.{with_lists, kept_by_others, kept_by_its_sender, kept_from_destroyed};
ghost use Rattle.dali_statement.specs.Weaker.{counted, IsPlanBut};

/// EVERY HISTORY KEEPS THE PROMISE. At every moment no two gear hold one short address and each table is true, and from
/// each moment on a gear that holds a short address keeps it, with its random address: whatever senders that keep the
/// five rules send and hear, whichever frames are destroyed, whenever power comes and goes.
pub fn every_history_keeps_the_promise()
    ensures { (p : Plan) (ms : List Moment) → IsHistory p ms → KeepsPromise p ms }
{}

/// HISTORIES BEGIN WITH RECORDS. Where one ended another may begin, with the gear and the records that are there then
/// (`again`). So may one if a gear was replaced (`replaced`): another stands in its place, without short address and no
/// record has the short address any more, and tables of other senders may be copied. The new gear gets its address by
/// the five rules. The replaced one does not come back.
pub fn histories_begin_with_records()
    ensures again { (p : Plan) (ms : List Moment) → IsHistory p ms → IsPlan (ended p ms) }
    ensures replaced { (p q : Plan) (g a : ℕ) (old new : Gear) → IsPlan p → IsReplaced p g old new a q → IsPlan q }
{}

/// THE RULES CAN BE KEPT, by a history in which two senders give addresses and enrol the gear (`whole`). Two senders
/// may search in step: each may then send PROGRAM, and once one has sent it the other may not (`in_step`).
pub fn rules_can_be_kept()
    ensures whole { IsKeptByAll }
    ensures in_step { IsKeptInStep }
{}

/// A LIST MAY BE FORGOTTEN. What the newest part of a sender's list allows, its whole list allows (`rules`), and what
/// an answer tells after that part, it tells after the whole list (`told`). So a sender may begin a transaction anew,
/// or restart, at any time.
pub fn a_list_may_be_forgotten()
    ensures rules { (s : Site) (c : ℕ) (newest older : List (Command × Heard)) (x : Command)
        → s.said c ≡ newest ++ older → may_send (record s { said = λ d. newest }) c x ≡ true → may_send s c x ≡ true }
    ensures told { (x : Command) (h : Heard) (newest older : List (Command × Heard)) (q : Part) (a v : ℕ)
        → tells x h newest q a v ≡ true → tells x h (newest ++ older) q a v ≡ true }
{}

/// EACH CLAUSE OF PROGRAM IS NEEDED. If one is left out, some history keeps all else and breaks the promise: if no
/// number need be sent (`number`), or INITIALISE may come after it (`initialise`); if QUERY SHORT ADDRESS need not be
/// heard as `FF` (`query`), or silence is enough (`silence`), or search bytes (`search`) or PROGRAM (`program`) may
/// come after it; if the address need not be reserved (`reserved`); if addresses may be erased (`erase`).
pub fn each_clause_of_program_is_needed()
    ensures number { BreakUnder (with_program unnumbered) }
    ensures initialise { BreakUnder (with_program initialised_since) }
    ensures query { BreakUnder (with_program unqueried) }
    ensures silence { BreakUnder (with_program unanswered) }
    ensures search { BreakUnder (with_program searched_since) }
    ensures program { BreakUnder (with_program programmed_since) }
    ensures reserved { BreakUnder (with_program unreserved) }
    ensures erase { BreakUnder erasing }
{}

/// EACH CLAUSE OF INITIALISE AND RANDOMISE IS NEEDED: INITIALISE to gear without short address alone (`unaddressed`);
/// TERMINATE before RANDOMISE in the list of its sender (`terminate`), and no PROGRAM since (`program`).
pub fn each_clause_of_an_opening_is_needed()
    ensures unaddressed { BreakUnder initialising_all }
    ensures terminate { BreakUnder (with_randomise none_programmed) }
    ensures program { BreakUnder (with_randomise is_terminated) }
{}

/// EACH CLAUSE OF RECORDS IS NEEDED. What is enrolled was told (`told`), of a short address below 64 (`within`). A
/// reserved address is free (`free`), of the own block (`block`), none that a gear came with (`unused`), below 64
/// (`short`), for a number below `FFFFFF` (`below`). It is released only if it is reserved for that number (`number`),
/// and its gear was told to have an address (`release`), and another one (`another`).
pub fn each_clause_of_records_is_needed()
    ensures told { BreakUnder enrolling }
    ensures within { BreakUnder enrolling_beyond }
    ensures free { BreakUnder (with_reserve twice) }
    ensures block { BreakUnder (with_reserve elsewhere) }
    ensures unused { BreakUnder (with_reserve used) }
    ensures short { BreakUnder (with_reserve beyond) }
    ensures below { BreakUnder (with_reserve undrawn) }
    ensures number { BreakUnder (with_release (λ s c a r b. is_told s b r && not (a == b))) }
    ensures release { BreakUnder (with_release (λ s c a r b. holds r (s.reserved c a) && not (a == b))) }
    ensures another { BreakUnder (with_release (λ s c a r b. holds r (s.reserved c a) && is_told s b r)) }
{}

/// EACH CLAUSE OF LISTS IS NEEDED. A frame empties the lists of all other senders (`others`), also of one that was in
/// step until then (`in_step`). A destroyed frame empties the list of its sender (`own`), and those of all others
/// (`destroyed`), as if one byte of another comes between QUERY SHORT ADDRESS and PROGRAM; it does not count as sent
/// (`counted`). What joins a list went out as its sender's own frame (`misread`).
pub fn each_clause_of_lists_is_needed()
    ensures others { BreakIf (with_lists kept_by_others) }
    ensures in_step { BreakIf (with_lists kept_by_others) }
    ensures own { BreakIf (with_lists kept_by_its_sender) }
    ensures destroyed { BreakIf (with_lists kept_from_destroyed) }
    ensures counted { BreakIf (with_lists counted) }
    ensures misread { BreakIf (with_gear misreading) }
{}

/// EACH PREMISE IS NEEDED: that no byte is heard of QUERY SHORT ADDRESS (`heard`) or of a query of the random address
/// (`bytes`) which was not answered; that no two gear have one random address (`drawn`); that each gear executes a
/// frame which is sent whole, but INITIALISE and RANDOMISE (`whole`), and at most one of those that overlap (`one`);
/// that each frame has a sender (`sender`), and each destroyed one keeps the rules too (`overlap`).
pub fn each_premise_is_needed()
    ensures heard { BreakUnder mishearing }
    ensures bytes { BreakUnder mishearing_bytes }
    ensures drawn { Break IsPlan allowed happens }
    ensures whole { BreakIf (with_gear missing) }
    ensures one { BreakIf (with_gear executing_all) }
    ensures sender { BreakUnder unsent }
    ensures overlap { BreakUnder destroying_any }
{}

/// EACH ROW OF A PLAN IS NEEDED: that short addresses are different (`shorts`) and below 64 (`short`); that a reserved
/// address is of the own block (`block`), below 64 (`small`), for a number below `FFFFFF` (`below`), which a gear with
/// the address has (`number`); and that tables are true (`tables`).
pub fn each_row_of_a_plan_is_needed()
    ensures shorts { BreakFrom (IsPlanBut Shorts) }
    ensures short { BreakFrom (IsPlanBut Short) }
    ensures block { BreakFrom (IsPlanBut BlockRow) }
    ensures small { BreakFrom (IsPlanBut Small) }
    ensures below { BreakFrom (IsPlanBut Below) }
    ensures number { BreakFrom (IsPlanBut Numbered) }
    ensures tables { BreakFrom (IsPlanBut Tabled) }
{}

/// GEAR OF THE PAGE ARE THOSE OF `dali_gear`, of which it leaves out power, WITHDRAWN and half pairs. If a frame is for
/// a gear that is seen so, it takes the frame as the page says (`step`). At INITIALISE and RANDOMISE it does, or stays
/// as it is (`pair`). What it answers to QUERY SHORT ADDRESS it answers on the page (`query`), and what it answers to a
/// query of its random address too (`random`): there a gear without power answers as well. `power_off`, `power_on`,
/// `expired` and `quieted` say what else befalls it.
pub fn gear_are_those_of_the_page()
    ensures step { (c : Read) (draw n : ℕ) (g : Real) → is_send_twice c ≡ false
        → gear_seen (after_frame c draw g) ≡ takes (command_seen c) n (gear_seen g) }
    ensures pair { (c : Read) (draw : ℕ) (g : Real) → is_send_twice c ≡ true → IsSpelled c → HasShort g
        → (gear_seen (after_frame c draw g) ≡ gear_seen g)
        ⊎ (gear_seen (after_frame c draw g) ≡ takes (command_seen c) draw (gear_seen g)) }
    ensures query { (g : Real) → answer_to read.QueryShort g ≡ answer QueryShort (gear_seen g) }
    ensures random { (a v : ℕ) (part : AskedPart) (g : Real) → answer_to (read.RandomByte a part) g ≡ Some v
        → answer (QueryRandom a (part_seen part)) (gear_seen g) ≡ Some v }
    ensures power_off { (g : Real) → gear_seen (without_power g)
        ≡ record (gear_seen g) { live = false; search = λ p. 0xFF } }
    ensures power_on { (g : Real) → gear_seen (with_power g) ≡ gear_seen g }
    ensures expired { (g : Real) → gear_seen (gear_expired g) ≡ record (gear_seen g) { live = false } }
    ensures quieted { (g : Real) → gear_seen (gear_quieted g) ≡ gear_seen g }
{}

/// ROWS OF GEAR ARE THOSE OF THE PAGE. If a frame that is no half of a pair reaches all gear, all gear of the page take
/// it (`sent`). If a frame reaches some gear, some of the page take it (`reached`). If each answer is one byte, it may
/// be heard on the page (`heard`).
pub fn rows_are_those_of_the_page()
    ensures sent { (c : Read) (gs : List Real) (left : List ℕ) → is_send_twice c ≡ false
        → map gear_seen (row_after Everyone c 0 gs left) ≡ map (takes (command_seen c) 0) (map gear_seen gs) }
    ensures reached { (reach : Reach) (c : Read) (gs : List Real) (left : List ℕ) → IsSpelled c
        → AllByRecursion HasShort gs → (some : List (Option ℕ))
        × (map gear_seen (row_after reach c 0 gs left) ≡ befalls (takes (command_seen c)) some (map gear_seen gs)) }
    ensures heard { (c : Read) (v : ℕ) (gs : List Real) → (answers_of Everyone c 0 gs ≢ [])
        → AllByRecursion (λ u. u ≡ v) (answers_of Everyone c 0 gs)
        → hears (command_seen c) (Byte v) (map gear_seen gs) ≡ true }
{}

/// THE SCRIPTS KEEP THE RULES. Each frame that is lawful after a trace, for a sender with these reservations, may be
/// sent on the page by rules 1 and 2, if its list is what the trace has said, and whatever it said before (`rules`). If
/// it is QUERY SHORT ADDRESS and heard as a short address, that tells which random address the gear has: the search
/// address that the trace has set (`told`).
pub fn scripts_keep_the_rules()
    ensures rules { (b : Block) (records : List Assignment) (t : List Entry) (f : Forward) (s : Site) (c : ℕ)
        (older : List (Command × Heard))
        → Lawful b records t f → s.said c ≡ said_of t ++ older
        → ((a r : ℕ) → Has records (a, r) → s.reserved c a ≡ Some r)
        → may_send s c (command_seen (command_of f)) ≡ true }
    ensures told { (b : Block) (records : List Assignment) (t : List Entry) (f : Forward) (s : Site) (c : ℕ)
        (older : List (Command × Heard)) (v a : ℕ) (q : Part)
        → Lawful b records t f → s.said c ≡ said_of t ++ older
        → ((d r : ℕ) → Has records (d, r) → s.reserved c d ≡ Some r)
        → command_of f ≡ read.QueryShort → short_of v ≡ Some a
        → tells QueryShort (Byte v) (s.said c) q a (byte q (value_of (search_of t))) ≡ true }
{}

/// PROGRAMS KEEP THE PROMISE. Any number of programs run on one bus that is true, beside other senders that keep the
/// rules: one after the other, at once or in step. Each keeps to its scripts (`AreOwn`): each frame is lawful after its
/// trace, by the records that its store has committed. What happens is a history of the page (`history`), which keeps
/// the promise (`promise`).
pub fn programs_keep_the_promise()
    ensures history { (p : Plan) (ours : ℕ → Bool) (own : ℕ → Own) (acts : ℕ → List Act) (ms : List Moment)
        → IsPlan p → ((c : ℕ) → ours c ≡ true → IsProgram p c (own c) (acts c) ms)
        → rest_all_allowed p ours (start p) ms ≡ true → IsHistory p ms }
    ensures promise { (p : Plan) (ours : ℕ → Bool) (own : ℕ → Own) (acts : ℕ → List Act) (ms : List Moment)
        → IsPlan p → ((c : ℕ) → ours c ≡ true → IsProgram p c (own c) (acts c) ms)
        → rest_all_allowed p ours (start p) ms ≡ true → KeepsPromise p ms }
{}

/// A RECORD IS KEPT BEFORE ITS FRAME. If a program sends PROGRAM SHORT ADDRESS, its store had the reservation at the
/// start, or has committed it before (`sent`); also if the frame was destroyed (`destroyed`).
pub fn records_are_kept_before_frames()
    ensures sent { (v : Own) (before later : List Act) (f : Forward) (h : Answer) (a : ℕ)
        → AreOwn v (before ++ (Puts f h ∷ later)) → command_of f ≡ read.Program (Some a)
        → (r : ℕ) × (Has v.kept.reserved (a, r) ⊎ Has before (Keeps (record_of.Reserve a r))) }
    ensures destroyed { (v : Own) (before later : List Act) (f : Forward) (a : ℕ)
        → AreOwn v (before ++ (Loses f ∷ later)) → command_of f ≡ read.Program (Some a)
        → (r : ℕ) × (Has v.kept.reserved (a, r) ⊎ Has before (Keeps (record_of.Reserve a r))) }
{}
