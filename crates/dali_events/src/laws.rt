//! What is proved of every run. Programs don't call these.
//!
//! Each law quantifies over every plan and every list of events that is a run, whatever frames were sent, destroyed or
//! answered, and whenever gear lost power and controllers restarted.

ghost use Rattle.std.specs.Prelude.{ℕ, List, ◌++◌, ◌∷◌, [], ◌≡◌, ◌<◌, ◌==◌, length, map, unwrap_or, Some, None, true};
ghost use Rattle.std.specs.Prelude.{false};
ghost use Rattle.std.specs.Prelude.{replicate};
ghost use Rattle.dali_frame.specs.declared.frames.Forward.{Forward};
ghost use Rattle.dali_frame.specs.declared.frames.Answer.{Answer};
ghost use Rattle.dali_frame.specs.declared.numbers.SearchAddress.{SearchAddress};
ghost use Rattle.dali_frame.specs.Random.{value_of, number_of};
ghost use Rattle.dali_frame.specs.declared.frames.Answer.TheVariants.{Byte, Damaged};
ghost use Rattle.dali_special.specs.declared.command.Command.{Command};
ghost use Rattle.dali_special.specs.declared.command.Command.TheVariants.{Randomise, RandomByte};
ghost use Rattle.dali_special.specs.declared.command.Part.{Part};
ghost use Rattle.dali_special.specs.declared.command.Part.TheVariants.{High, Middle, Low};
ghost use Rattle.dali_special.specs.Command.{command_of, is_question};
ghost use Rattle.dali_script.specs.declared.trace.Entry.{Entry};
ghost use Rattle.dali_script.specs.declared.stage.Stage.TheVariants.{Unnamed};
ghost use Rattle.dali_script.specs.Records.{Has, HasAddress, InBlock};
ghost use Rattle.dali_script.specs.declared.finding.Finding.{Finding};
ghost use Rattle.dali_script.specs.declared.records.Record.TheVariants as record_of;
ghost use Rattle.dali_script.specs.Findings.{assigned};
ghost use Rattle.dali_script.specs.Scripts.{IsFirst};
ghost use Rattle.dali_script.specs.Stages.{stage_of};
ghost use Rattle.dali_script.specs.declared.orders.Input.TheVariants as input;
ghost use Rattle.dali_script.specs.declared.orders.Order.{Order};
ghost use Rattle.dali_events.specs.declared.event.Event.TheVariants.{Sent, Acted, Destroyed};
ghost use Rattle.dali_gear.specs.declared.gear_set.GearSet.{GearSet};
ghost use Rattle.dali_gear.specs.declared.row.Reach.{Reach};
ghost use Rattle.dali_gear.specs.declared.row.Reach.TheVariants.{Everyone};
ghost use Rattle.dali_gear.specs.Gear.{fresh};
ghost use Rattle.dali_gear.specs.Row.{heard_of, answers_of};
ghost use Rattle.dali_events.specs.declared.event.Event.{Event};
ghost use Rattle.dali_statement.specs.Page.{Moment, Site, Reserves, Enrols, Releases, allowed, is_told, are_apart};
ghost use Rattle.dali_statement.specs.Page.{IsPlan as IsPagePlan};
ghost use Rattle.dali_statement.specs.Gear.{gear_seen};
ghost use Rattle.dali_events.specs.Page.{owner_in, plan_seen, IsReadAs, AreSeenAs, frames_in, frames_of};
ghost use Rattle.dali_events.specs.World.{World, Controller, gear_at, start};
ghost use Rattle.dali_events.specs.Happens.{happens, trace_running, entry, taken_by, after_quiet, after_foreign};
ghost use Rattle.dali_events.specs.Happens.{keeps_bus};
ghost use Rattle.dali_events.specs.Foreign.{is_foreign};
ghost use Rattle.dali_events.specs.Allowed.{Allowed, Hears, IsDestroyed, MayCommit, MaySend};
ghost use Rattle.dali_events.specs.Plan.{Plan, IsPlan, block_at};
ghost use Rattle.dali_events.specs.Used.{used_shorts};
ghost use Rattle.dali_events.specs.declared.used.Used.{Used};
ghost use Rattle.dali_events.specs.Runs.{after, IsRun, AreDrawn, LeavesUsed};
ghost use Rattle.dali_events.specs.Promise.{KeepsPromise, KeepsPromiseNow, KeepsAddresses, IsSafe, IsSafeHistory};
ghost use Rattle.dali_events.specs.Promise.{Names, HoldsShort};
ghost use Rattle.dali_events.specs.Laws.{GiftsAreReserved, GiftsAreOwned, KeepsReserved, TablesAgree, FindingsAgree};
ghost use Rattle.dali_events.specs.Laws.{KeepsRecords};
ghost use Rattle.dali_events.specs.Events.{frame_in};
ghost use Rattle.dali_events.specs.Searching.{EachPowered, EachActive, number_at, sent_event, up_to_compare};
ghost use Rattle.dali_events.specs.Searching.{SearchesAll, NobodyAnswers, HasShort};
ghost use Rattle.dali_events.specs.Calling.{Calls, AreCalled};
ghost use Rattle.dali_events.specs.Telling.{Happening, as_damaged, happened, after_happened, all_told};
ghost use Rattle.dali_events.specs.Telling.{IsHistory};

/// The plain hearing of a row of gear is one that may be heard.
pub fn plain_hearing_is_heard()
    ensures { (answers : List ℕ) → Hears answers (heard_of answers) }
{}

/// A history grows at the end. One more event moves the world by what it does. A run goes on with what is allowed and
/// reserves no address that used gear have.
pub fn histories_grow_at_the_end()
    ensures world { (p : Plan) (capacity : ℕ) (log : List Event) (e : Event)
        → after p capacity (log ++ e ∷ []) ≡ happens (after p capacity log) e }
    ensures run { (p : Plan) (capacity : ℕ) (log : List Event) (e : Event) → IsRun p capacity log
        → Allowed (after p capacity log) e → LeavesUsed p.used e → IsRun p capacity (log ++ e ∷ []) }
{}

/// NUMBERS ARE DRAWN ONCE. At each moment of every run each gear's random address is `FFFFFF` or was drawn by that
/// gear; no number was drawn twice, and none is `FFFFFF`.
pub fn numbers_are_drawn()
    ensures { (p : Plan) (capacity : ℕ) (front rest : List Event) → IsRun p capacity (front ++ rest)
        → AreDrawn (after p capacity front) }
{}

/// FRAMES FIND GEAR, in every run.
///
/// After a first frame that was not destroyed, and until the second one, no powered gear has a half pair, so none of
/// INITIALISE or RANDOMISE. Whenever RANDOMISE is sent or destroyed, no powered gear that is not DISABLED has a short
/// address. After SEARCHADDRH, SEARCHADDRM and SEARCHADDRL every powered gear that is not DISABLED has the search
/// address that they set. After QUERY SHORT ADDRESS was heard as `FF`, and until PROGRAM SHORT ADDRESS, none of them
/// with that random address has a short address.
pub fn frames_find_gear()
    ensures half { (p : Plan) (capacity : ℕ) (log : List Event) (c : ℕ) (f : Forward) (h : Answer)
        → IsRun p capacity (log ++ Sent c f h ∷ []) → IsFirst f
        → EachPowered (after p capacity (log ++ Sent c f h ∷ [])) (λ g. g.half ≡ None) }
    ensures half_still { (p : Plan) (capacity : ℕ) (log : List Event) (first : Entry) → IsRun p capacity log
        → (after p capacity log).trace ≡ first ∷ []
        → EachPowered (after p capacity log) (λ g. g.half ≡ None) }
    ensures randomise { (p : Plan) (capacity : ℕ) (log : List Event) (e : Event) (f : Forward)
        → IsRun p capacity (log ++ e ∷ []) → frame_in e ≡ Some f → command_of f ≡ Randomise
        → EachActive (after p capacity log) (λ g. g.short ≡ None) }
    ensures search { (p : Plan) (capacity : ℕ) (log : List Event) (r : SearchAddress) → IsRun p capacity log
        → number_at (stage_of (after p capacity log).trace) ≡ Some r
        → EachActive (after p capacity log) (λ g. g.search ≡ r) }
    ensures unnamed { (p : Plan) (capacity : ℕ) (log : List Event) (r : SearchAddress) → IsRun p capacity log
        → stage_of (after p capacity log).trace ≡ Unnamed r
        → EachActive (after p capacity log) (λ g. g.random ≡ value_of r → g.short ≡ None) }
{}

/// GIFTS STAY RESERVED, at each moment of every run. Each short address that a gear was given is reserved by some
/// controller for the gear's random address, unless the gear is used and came with it. A controller that has reserved
/// an address for the gear that was given it has reserved it for good.
pub fn gifts_stay_reserved()
    ensures reserved { (p : Plan) (capacity : ℕ) (front rest : List Event) → IsRun p capacity (front ++ rest)
        → p.used ≡ [] → GiftsAreReserved (after p capacity front) }
    ensures owned { (p : Plan) (capacity : ℕ) (front rest : List Event) → IsRun p capacity (front ++ rest)
        → GiftsAreOwned p.used (after p capacity front) }
    ensures stay { (p : Plan) (capacity : ℕ) (front later rest : List Event)
        → IsRun p capacity (front ++ (later ++ rest))
        → KeepsReserved (after p capacity front) (after p capacity (front ++ later)) }
{}

/// EVERY RUN IS A HISTORY OF THE PAGE of `dali_statement`. Its log, read event by event, is a history that has the same
/// gear after each event. At its end it has the same reservations and each table, and the owner of the bus has in its
/// list what its transaction has said. Later events go on with it (`read`). So what five rules of senders promise is
/// true of every run. No other history is that of the log: its frames are those of the log, in their order, each with
/// its sender, and with what was heard or that it was destroyed (`frames`).
pub fn every_run_is_a_history()
    ensures read { (p : Plan) (capacity : ℕ) (front rest : List Event) → IsRun p capacity (front ++ rest)
        → (ms : List Moment) × (more : List Moment) × IsReadAs p capacity front ms
        × IsReadAs p capacity (front ++ rest) (ms ++ more) }
    ensures frames { (w : World) (log : List Event) (ms : List Moment) → AreSeenAs w log ms
        → frames_in ms ≡ frames_of log }
{}

/// EVERY RUN IS SAFE. In every world of every run no two gear hold one short address. A gear that holds one holds it,
/// with its random address, in every later world. For every kept enrolment of every controller there is the gear that
/// holds its address and has its number.
///
/// That follows from what was given and drawn. Each gear was given at most one short address, and each short address
/// was given to at most one gear. A gear holds an address exactly if it was given it, and from then on has one
/// random address for good. Every kept enrolment names the gear that drew its number and was given its address.
pub fn every_run_is_safe()
    ensures promise { (p : Plan) (capacity : ℕ) (log : List Event) → IsRun p capacity log
        → KeepsPromise p capacity log }
    ensures history { (p : Plan) (capacity : ℕ) (log : List Event) → IsRun p capacity log
        → IsSafeHistory p capacity log }
{}

/// A SITE MEETS THE PAGE'S PREMISES. In every run no two gear have one random address (`numbers`). A
/// plan that is not refused is one of the page, without records (`plan`), and its blocks are disjoint (`block`).
pub fn sites_meet_the_premises()
    ensures numbers { (p : Plan) (capacity : ℕ) (front rest : List Event) → IsRun p capacity (front ++ rest)
        → are_apart (map gear_seen (after p capacity front).gear) ≡ true }
    ensures plan { (p : Plan) → IsPlan p → IsPagePlan (plan_seen p) }
    ensures block { (p : Plan) → IsPlan p → (c a : ℕ) → c < length p.blocks → InBlock (block_at p c) a
        → owner_in p.blocks 0 a ≡ c }
{}

/// ORDERS KEEP THE RULES. A record that a controller may order to be kept is one that rules 3 and 4 allow, on a site of
/// the page where it has the same reservations and its finding was told: a reservation, of no address that used gear
/// have (`reserve`), an enrolment (`enrol`), a release (`release`). Who may send on a site owns the bus, or no
/// controller owns it (`turn`).
pub fn orders_keep_the_rules()
    ensures turn { (w : World) (c : ℕ) (f : Forward) → MaySend w c f → (unwrap_or w.bus.owner c == c) ≡ true }
    ensures reserve { (p : Plan) (s : Site) (k : Controller) (c : ℕ) → IsPlan p → (a r : ℕ)
        → c < length p.blocks → k.records.block ≡ block_at p c → MayCommit k (record_of.Reserve a r)
        → (Has (used_shorts p.used) a → ⊥) → ((q : ℕ) → s.reserved c a ≡ Some q → HasAddress k.records.reserved a)
        → allowed (plan_seen p) s (Reserves c a r) ≡ true }
    ensures enrol { (p : Plan) (s : Site) (k : Controller) (c a r : ℕ) → MayCommit k (record_of.Enrol a r)
        → ((x : Finding) → k.finding ≡ Some x → is_told s (assigned x).0 (assigned x).1 ≡ true)
        → allowed (plan_seen p) s (Enrols c a r) ≡ true }
    ensures release { (p : Plan) (s : Site) (k : Controller) (c a r : ℕ) → MayCommit k (record_of.Release a r)
        → ((x : Finding) → k.finding ≡ Some x → is_told s (assigned x).0 (assigned x).1 ≡ true)
        → (Has k.records.reserved (a, r) → s.reserved c a ≡ Some r)
        → (b : ℕ) × (allowed (plan_seen p) s (Releases c a r b) ≡ true) }
{}

/// USED GEAR KEEP THEIR ADDRESSES. They come with short addresses, all different, and with random addresses that no
/// other gear has and no gear will draw. They keep both at each moment of every run. All else that is said of a run is
/// said of them too.
///
/// A run has a premise for them: no controller reserves a short address that used gear have. A machine that surveys
/// reserves no address under which it heard an answer
/// (`dali_progress::laws::nothing_is_given_where_somebody_was_heard`). What it cannot hear is a gear without power.
///
/// If all gear come from the factory, each event meets the premise (`factory`), and the site begins with gear that
/// have nothing and were given nothing (`start`).
pub fn used_gear_keep_their_addresses()
    ensures kept { (p : Plan) (capacity : ℕ) (front rest : List Event) (u : Used) → IsRun p capacity (front ++ rest)
        → Has p.used u → HoldsShort (after p capacity front) u.gear u.short
        × ((gear_at (after p capacity front) u.gear).random ≡ u.random) }
    ensures factory { (p : Plan) (e : Event) → p.used ≡ [] → LeavesUsed p.used e }
    ensures start { (p : Plan) (capacity : ℕ) → p.used ≡ [] → ((start p capacity).gear ≡ replicate p.gear fresh)
        × ((start p capacity).drawn ≡ []) × ((start p capacity).gifts ≡ []) }
{}

/// NO TWO TABLES DISAGREE. At each moment of every run, two kept enrolments with one short address, one number or one
/// gear are the same entry, of whichever controllers they are.
pub fn no_two_tables_disagree()
    ensures safe { (w : World) → IsSafe w → AreDrawn w → TablesAgree w }
    ensures run { (p : Plan) (capacity : ℕ) (front rest : List Event) → IsRun p capacity (front ++ rest)
        → TablesAgree (after p capacity front) }
{}

/// FINDINGS AGREE WITH TABLES. At each moment of every run a controller's last finding names a gear. No kept
/// enrolment of any controller has its short address with another number or its number with another short address.
pub fn findings_agree_with_tables()
    ensures { (p : Plan) (capacity : ℕ) (front rest : List Event) → IsRun p capacity (front ++ rest)
        → FindingsAgree (after p capacity front) }
{}

/// A RANDOM ADDRESS IS TOLD BY ITS GEAR. Suppose that in a run the first two queries of the random address were sent to
/// one short address and heard as bytes. If the third is sent and heard as a byte too, the gear that was given that
/// short address has the random address of the three bytes.
pub fn random_addresses_are_told()
    ensures { (p : Plan) (capacity : ℕ) (log : List Event) (c a high middle low : ℕ) (f g h : Forward)
        → IsRun p capacity (log ++ Sent c h (Byte low) ∷ [])
        → trace_running (after p capacity log) c ≡ entry f (Byte high) ∷ entry g (Byte middle) ∷ []
        → command_of f ≡ RandomByte a High → command_of g ≡ RandomByte a Middle → command_of h ≡ RandomByte a Low
        → Names (after p capacity log) (a, number_of high middle low) }
{}

/// SILENCE IS NO GEAR. If no gear answers a query of a random address to a short address, no gear with power has that
/// short address. What is heard may be silence when a gear did answer, since answers may be lost: the law speaks of
/// the answers.
pub fn silence_is_nobody()
    ensures { (w : World) (a : ℕ) (part : Part) → answers_of Everyone (RandomByte a part) 0 w.gear ≡ []
        → EachPowered w (λ g. g.short ≡ Some a → ⊥) }
{}

/// QUESTIONS LEAVE GEAR AS THEY WERE. COMPARE, VERIFY SHORT ADDRESS, QUERY SHORT ADDRESS and QUERY RANDOM ADDRESS
/// change nothing if no gear with power has a half pair, whichever gear they reach. So a question that was destroyed
/// leaves the same gear, draws and gifts as one that was sent.
pub fn questions_leave_gear()
    ensures { (w : World) (reach : Reach) (c : Command) → is_question c ≡ true → EachPowered w (λ g. g.half ≡ None)
        → taken_by w reach c ≡ w }
{}

/// FRAMES OF OTHER DEVICES END HALF PAIRS, in gear with power, and do nothing else. What all gear that take the frame
/// do is what its event says.
pub fn foreign_frames_end_half_pairs()
    ensures { (w : World) (f : Forward) → is_foreign f ≡ true → taken_by w Everyone (command_of f) ≡ after_foreign w }
{}

/// DESTROYED QUESTIONS MAY BE TOLD AS DAMAGED. Take every history in which some questions were destroyed, and their
/// senders were told that the answers were damaged and went on so. Each keeps the bus while a frame may follow. Then
/// what the senders were told is a run (`run`). What there is differs from the world of that run by half pairs alone:
/// if half pairs are forgotten, the two are equal (`world`). As that is so at each moment, no gear executes INITIALISE
/// or RANDOMISE by a half pair that is left. So the promise holds of what there is, at each moment (`promise`) and from
/// each one on (`ever_after`).
///
/// A sender that gives up its transaction, after whatever frame, leaves all as if it had been told that the frame was
/// destroyed (`given_up`).
pub fn destroyed_questions_may_be_told_as_damaged()
    ensures run { (p : Plan) (capacity : ℕ) (xs : List Happening) → IsHistory p capacity xs
        → IsRun p capacity (all_told xs) }
    ensures world { (p : Plan) (capacity : ℕ) (xs : List Happening) → IsHistory p capacity xs
        → after_quiet (after_happened p capacity xs) ≡ after_quiet (after p capacity (all_told xs)) }
    ensures promise { (p : Plan) (capacity : ℕ) (xs : List Happening) → IsHistory p capacity xs
        → KeepsPromiseNow (after_happened p capacity xs) }
    ensures ever_after { (p : Plan) (capacity : ℕ) (earlier later : List Happening)
        → IsHistory p capacity (earlier ++ later)
        → KeepsAddresses (after_happened p capacity earlier) (after_happened p capacity (earlier ++ later)) }
    ensures given_up { (w : World) (c : ℕ) (f : Forward) (set : GearSet) (o : Order) → IsDestroyed w c f set
        → keeps_bus o ≡ false
        → happens (happened w (as_damaged c f set)) (Acted c (input.Heard Damaged) o)
        ≡ happens (happens w (Destroyed c f set)) (Acted c input.Destroyed o) }
{}

/// RECORDS ARE KEPT. At each moment of every run the records of a controller are those of its block, with each address
/// and each number once of each kind. Its outstanding record may be added to them.
pub fn records_are_kept()
    ensures { (p : Plan) (capacity : ℕ) (front rest : List Event) → IsRun p capacity (front ++ rest)
        → KeepsRecords p (after p capacity front) }
{}

/// ROLL CALLS ARE ANSWERED, gear by gear, in every run. Suppose that a controller initialises gear, and in the same
/// transaction asks with COMPARE which gear are at most `FFFFFF`. Then each gear that had power from the first
/// INITIALISE on has a short address by then, or answers. Its initialisation did not run out in that time. Between the
/// two INITIALISE the bus was not quiet, and no other device sent a frame. Nothing is supposed of other gear, of other
/// controllers or of what happened before.
pub fn roll_calls_are_answered()
    ensures { (p : Plan) (capacity : ℕ) (front : List Event) (c : ℕ) (first : Entry) (es : List Event) (compare : Entry)
        → Calls p capacity front c first es compare → AreCalled p capacity front c first es }
{}

/// ALL FOUND IS TRUE. Suppose that a controller sent a whole opening, and later a COMPARE under the search address
/// `FFFFFE` that no gear answers. Then every powered gear has a short address, when the COMPARE is sent and afterwards.
/// The premises are:
///
/// - Since the opening's first frame no gear's power came or went, no initialisation expired, the bus was not quiet for
///   long, and no other TERMINATE was sent or destroyed.
/// - No frame of another device came between the two INITIALISE or the two RANDOMISE of the opening.
/// - Since the opening no controller passed a gear over: none sent WITHDRAW to a gear that it did not ask for its short
///   address (`nobody_passed`). Only surveys do that. A gear that another controller passes over is WITHDRAWN, so it
///   answers no COMPARE, and has no short address: a short history ends so (`proofs/Histories/PassedOver`,
///   `examples/passed-over.txt`).
///
/// What is heard may be silence when a gear did answer, since answers may be lost: the law speaks of the answers.
pub fn all_found_is_true()
    ensures now { (p : Plan) (capacity : ℕ) (front : List Event) (c : ℕ) (first : Entry) (opening : List Event)
        (last : Entry) (middle : List Event) (compare : Entry)
        → SearchesAll p capacity front c first opening last middle compare
        → NobodyAnswers (after p capacity (up_to_compare front c first opening last middle))
        → EachPowered (after p capacity (up_to_compare front c first opening last middle)) HasShort }
    ensures afterwards { (p : Plan) (capacity : ℕ) (front : List Event) (c : ℕ) (first : Entry) (opening : List Event)
        (last : Entry) (middle : List Event) (compare : Entry)
        → SearchesAll p capacity front c first opening last middle compare
        → NobodyAnswers (after p capacity (up_to_compare front c first opening last middle))
        → EachPowered
        (after p capacity (up_to_compare front c first opening last (middle ++ sent_event c compare ∷ [])))
        HasShort }
{}
