//! What is proved of a whole commissioning. Programs don't call these.
//!
//! Eight speak of commissioning that nothing disturbs: of a site on which a controller begins alone, with nothing on
//! the bus (`BeginsAlone`), in one of two ways: by Start, with nothing kept (`ByStart`); or by a survey, with any
//! records (`BySurvey`). And of a list of events that rounds add to its log (`Rounds`): the controller acts on what is
//! due, and its commits succeed; frames that are next are sent, and what the gear answer is heard. So no other
//! controller acts meanwhile, no frame is destroyed, no answer is lost or damaged, the bus never lapses, and no gear's
//! power comes or goes.
//!
//! Three of the eight speak, also or alone, of the runs of rounds that a replay makes of an installation in which one
//! controller alone has a turn (`RanAlone`): each is such a list of events. One law more speaks of rounds in which one
//! gear is misheard.
//!
//! Three speak of what a survey promises of a machine on any bus (`IsCourse`), and one of used gear and the log of a
//! site, whatever is disturbed.

ghost use Rattle.std.specs.Prelude.{◌≡◌, ◌⊎◌, ℕ, ◌+◌, ◌*◌, ◌<◌, ◌≤◌, Bool, true, List, [], ◌∷◌, length, Some};
ghost use Rattle.std.specs.List.{AllByRecursion};
ghost use Rattle.dali_frame.specs.declared.frames.Forward.{Forward};
ghost use Rattle.dali_frame.specs.declared.numbers.SearchAddress.{SearchAddress};
ghost use Rattle.dali_frame.specs.Random.{value_of, MASK24};
ghost use Rattle.dali_frame.specs.Priority.{LATER};
ghost use Rattle.dali_script.specs.declared.block.Block.{Block};
ghost use Rattle.dali_script.specs.declared.records.Record.TheVariants.{Reserve};
ghost use Rattle.dali_script.specs.declared.stage.Stage.TheVariants.{Unnamed};
ghost use Rattle.dali_script.specs.declared.orders.Input.{Input};
ghost use Rattle.dali_script.specs.declared.orders.Order.TheVariants.{Put, Commit};
ghost use Rattle.dali_script.specs.Records.{Has, InBlock};
ghost use Rattle.dali_controller.specs.Course.{address_for};
ghost use Rattle.dali_controller.specs.Machine.{Machine};
ghost use Rattle.dali_controller.specs.Whole.{IsWhole};
ghost use Rattle.dali_script.specs.declared.orders.End.{End};
ghost use Rattle.dali_script.specs.declared.orders.End.TheVariants.{AllFound};
ghost use Rattle.dali_events.specs.declared.event.Event.{Event};
ghost use Rattle.dali_events.specs.Plan.{Plan, IsPlan, block_at};
ghost use Rattle.dali_events.specs.Runs.{IsRun};
ghost use Rattle.dali_events.specs.Promise.{KeepsPromise, HoldsShort, KeepsAddresses};
ghost use Rattle.dali_events.specs.World.{controller_at, gear_at};
ghost use Rattle.dali_events.specs.Used.{used_shorts};
ghost use Rattle.dali_events.specs.Searching.{HasShort};
ghost use Rattle.dali_events.specs.Wanted.{OfPowered};
ghost use Rattle.dali_standing.specs.declared.refusal.Refusal.TheVariants as refusal;
ghost use Rattle.dali_events.specs.declared.trouble.Trouble.TheVariants as trouble;
ghost use Rattle.dali_world.specs.Site.{SiteState, opened_site, world, IsActRefused, IsPumpRefused};
ghost use Rattle.dali_replay.specs.Installation.{Installation, installation_of};
ghost use Rattle.dali_replay.specs.Rounds.{Ran};
ghost use Rattle.dali_progress.specs.Rounds.{Beginning, ByStart, BySurvey, by_survey, BeginsAlone, IsSettledAt};
ghost use Rattle.dali_progress.specs.Rounds.{restarted, Rounds, site_after, frames, bare, most_frames, most_events};
ghost use Rattle.dali_progress.specs.Rounds.{GoesOn, HasEnded};
ghost use Rattle.dali_progress.specs.Ends.{IsTrueEnd, table_at, NamesAll, CommitsNothing};
ghost use Rattle.dali_progress.specs.Misheard.{RoundsBut, IsTrueEndBut};
ghost use Rattle.dali_progress.specs.Replaced.{IsVacant, HasVacant, HasNew, IsReplacing, only, IsServed, AreNamed};
ghost use Rattle.dali_events.specs.Allowed.{Allowed};
ghost use Rattle.dali_events.specs.Laws.{TablesAgree};
ghost use Rattle.dali_events.specs.declared.event.Event.TheVariants.{Up};
ghost use Rattle.dali_world.specs.Site.{site_logged};
ghost use Rattle.dali_progress.specs.InTurn.{IsStill, Turn, TakesTurn, TakeTurns, left_by, after_turns, turn_frames};
ghost use Rattle.dali_progress.specs.InTurn.{HasFoundAll, HaveVacant, AllAreNamed};
ghost use Rattle.dali_progress.specs.Running.{RanAlone, HasBegun, begun, SparesUsedOf, HasRoom, HasEndedBy, WasRefused};
ghost use Rattle.dali_progress.specs.Surveyed.{Step, IsCourse, ArePlain, WasHeard, IsAccounted, HasSurveyed};
ghost use Rattle.dali_progress.specs.Surveyed.{stage_told};
ghost use Rattle.dali_progress.specs.Spared.{AreOfCalls, HasJustBegun, HearsUsed, HasAsked, StaysBegun};
ghost use Rattle.dali_progress.specs.Spared.{HavePower, AllAskInPeace};
ghost use Rattle.dali_progress.specs.Census.{BeginsBySurvey, AreWhole, AreSteady, frames_asked, frames_lost, WasSilent};
ghost use Rattle.dali_progress.specs.Census.{WasSpelled, IsNamed, IsClean, HasTakenCensus};

/// WHO BEGINS ALONE. On a new site with one controller it may start alone (`new`). If it may start, it may begin by
/// a survey as well (`starts`). It has nothing reserved, so its records are settled: each address that is reserved is
/// enrolled so (`settled`).
///
/// A controller that ended a survey, went down and came up again begins alone once more, by a survey (`again`), with
/// the records that it kept (`kept`). So what is said of one survey is said of each that follows.
pub fn who_begins_alone()
    ensures new { (p : Plan) (queue room : ℕ) (k : Block) → IsPlan p → p.blocks ≡ k ∷ []
        → BeginsAlone ByStart (opened_site p queue room) 0 }
    ensures starts { (b : Beginning) (s : SiteState) (c : ℕ) → BeginsAlone ByStart s c → BeginsAlone b s c }
    ensures settled { (s : SiteState) (c : ℕ) → BeginsAlone ByStart s c → IsSettledAt s c }
    ensures again { (s : SiteState) (c : ℕ) (es : List Event) (e : End) → BeginsAlone BySurvey s c → Rounds true s c es
        → HasEnded (site_after s es) c e → BeginsAlone BySurvey (restarted (site_after s es) c) c }
    ensures kept { (s : SiteState) (c : ℕ) (es : List Event) (e : End) → BeginsAlone BySurvey s c → Rounds true s c es
        → HasEnded (site_after s es) c e
        → (controller_at (world (restarted (site_after s es) c)) c).records
        ≡ (controller_at (world (site_after s es)) c).records }
{}

/// IT IS BOUNDED. With n gear that have power and no short address (`bare`), a controller that begins alone sends at
/// most so many frames (`frames`):
///
/// - By Start 111 n + 10: for each gear at most 25 probes of four frames, and 11 frames of visits; and the opening of
///   five frames, a last probe of four, and the close.
/// - By a survey 106 n + 258, with any records. Three go to each of the 64 short addresses at the most: three
///   questions if no gear answers, and the three queries of a random address if a gear does. Then the roll is
///   called, in seven frames if gear answer. A search that goes up finds the gear that drew numbers; the roll
///   is called again; a search in vain of nine frames tells that gear are left that never drew; they draw, in eight;
///   and a search finds them. For each of the n that are at most 95 frames of questions and 11 of visits, and nine more
///   for each search. Two roll calls of eight frames if no gear answers, and the close, end it. The gear may have
///   short addresses from before, by any controller, and numbers that they drew or none.
///
/// No more than 333 n + 31 or 318 n + 775 events come (`events`), so a log with room for these never fills.
pub fn it_is_bounded()
    ensures frames { (b : Beginning) (s : SiteState) (c : ℕ) (es : List Event) → BeginsAlone b s c
        → Rounds (by_survey b) s c es → frames es ≤ most_frames b (bare s) }
    ensures events { (b : Beginning) (s : SiteState) (c : ℕ) (es : List Event) → BeginsAlone b s c
        → Rounds (by_survey b) s c es → length es ≤ most_events b (bare s) }
{}

/// IT GOES ON OR HAS ENDED. At each moment the controller has ended; or something is due for it that may be done, with
/// no request waiting; or a request is next on the bus. It never halts.
///
/// So `SiteState::act` adds one more event of a round, or `SiteState::pump` does, if the log has room, the queue
/// takes one request, the numbers are there that gear draw, and no order would reserve an address that used gear have.
pub fn it_goes_on()
    ensures { (b : Beginning) (s : SiteState) (c : ℕ) (es : List Event) → BeginsAlone b s c
        → Rounds (by_survey b) s c es → GoesOn (by_survey b) (site_after s es) c }
{}

/// ITS END IS TRUE (`done`). After a start: if it ends with all-found, every gear with power has a short address;
/// if it ends with block-full, every address of its block is reserved; and it never gives up. Its table has each
/// gear that has a short address, but one that had it before (`table`).
///
/// After a survey: if it ends with all-found, every gear with power has a short address. If it ends with
/// block-full, some gear with power has none, and each address of its block is taken: reserved, or in the table, or one
/// under which gear was heard whose number it does not know. It never gives up. Its table names each gear that has
/// a short address, with its random address, by any controller; but one that had it before the survey, and then had no
/// power or no number that gear draw.
///
/// If its records were settled, they are settled at the end. And whatever its records: if so many addresses of its
/// block are vacant, and not reserved but as they are enrolled, as gear have power and no short address, it ends with
/// all-found (`enough`).
///
/// So one survey that nothing disturbs says all this at its end. If it committed nothing, the earlier table already
/// named them (`quiet`). That three runs in a row be quiet is asked if the bus may lose answers.
pub fn its_end_is_true()
    ensures done { (b : Beginning) (s : SiteState) (c : ℕ) (es : List Event) (e : End) → BeginsAlone b s c
        → Rounds (by_survey b) s c es → HasEnded (site_after s es) c e → IsTrueEnd b s (site_after s es) c e }
    ensures enough { (s : SiteState) (c : ℕ) (es : List Event) (e : End) → BeginsAlone BySurvey s c
        → HasVacant s c → Rounds true s c es → HasEnded (site_after s es) c e
        → (e ≡ AllFound) × OfPowered (world (site_after s es)).gear HasShort }
    ensures table { (b : Beginning) (s : SiteState) (c : ℕ) (es : List Event) (e : End) → BeginsAlone b s c
        → Rounds (by_survey b) s c es → HasEnded (site_after s es) c e
        → NamesAll (by_survey b) s (table_at (site_after s es) c) (site_after s es) }
    ensures quiet { (s : SiteState) (c : ℕ) (es : List Event) (e : End) → BeginsAlone BySurvey s c → Rounds true s c es
        → AllByRecursion CommitsNothing es → HasEnded (site_after s es) c e
        → NamesAll true s (table_at s c) (site_after s es) }
{}

/// ONE GEAR BLOCKS NO OTHER. In a survey of a controller that begins alone, with any records, let one gear g be
/// misheard: when it answers QUERY SHORT ADDRESS, silence or a damaged frame may be heard instead, each time or never.
/// Nothing else is disturbed.
///
/// If the controller then ends with all-found, every gear with power has a short address, g too. If it ends with
/// block-full, each address of its block is taken. It gives up only if every gear with power but g has a short
/// address, or each address of its block is taken.
///
/// At each moment it goes on or has ended, and it never halts (`goes_on`). How long it takes is not said: a visit that
/// fails costs frames that `it_is_bounded` does not count. Rounds that nothing disturbs are such rounds (`plain`).
pub fn one_gear_blocks_nobody()
    ensures plain { (g : ℕ) (s : SiteState) (c : ℕ) (es : List Event) → Rounds true s c es
        → RoundsBut g s c es }
    ensures goes_on { (g : ℕ) (s : SiteState) (c : ℕ) (es : List Event) → g < length (world s).gear
        → BeginsAlone BySurvey s c → RoundsBut g s c es → GoesOn true (site_after s es) c }
    ensures done { (g : ℕ) (s : SiteState) (c : ℕ) (es : List Event) (e : End) → g < length (world s).gear
        → BeginsAlone BySurvey s c → RoundsBut g s c es → HasEnded (site_after s es) c e
        → IsTrueEndBut g (site_after s es) c e }
{}

/// A RUN OF ENOUGH ROUNDS ENDS. On an installation in which one controller begins alone, and nothing is due for the
/// others, which are down or have ended, with n gear that have power and no short address, a run ends with the end of
/// the controller, which is true, or at a call that was refused (`ends`): a run of more than 333 n + 31 rounds if it
/// starts; and, once it began by a survey (`survey 0` of a script), one of more than 318 n + 774. A run of any length
/// sends no more frames than `it_is_bounded` says (`frames`).
///
/// If a request may wait, and the log has room for all events to come, and used gear are left alone, the one call
/// that may be refused is that of the bus, if the gear would draw more numbers than are left (`room`). Used gear are
/// left alone if none has an address of the block, or all have power and the controller surveys. So it is on a
/// new installation of a plan with one controller and at most 128 gear, also used ones, which have power there (`new`).
pub fn a_run_ends()
    ensures frames { (b : Beginning) (c limit : ℕ) (n between : Installation) (sent : ℕ) (text : List ℕ)
        (m : Installation) → RanAlone b c limit n between sent text m → sent ≤ most_frames b (bare n.site) }
    ensures ends { (b : Beginning) (c limit : ℕ) (n between : Installation) (sent : ℕ) (text : List ℕ)
        (m : Installation) → RanAlone b c limit n between sent text m
        → most_events b (bare n.site) < limit + begun (by_survey b)
        → HasEndedBy b n.site m.site c ⊎ WasRefused between sent text m }
    ensures room { (b : Beginning) (c limit : ℕ) (n between : Installation) (sent : ℕ) (text : List ℕ)
        (m : Installation) → RanAlone b c limit n between sent text m
        → most_events b (bare n.site) < limit + begun (by_survey b) → HasRoom b n.site c
        → HasEndedBy b n.site m.site c ⊎ IsPumpRefused m.site trouble.None refusal.DrawsSpent }
    ensures new { (b : Beginning) (limit : ℕ) (p : Plan) (k : Block) (between : Installation) (sent : ℕ)
        (text : List ℕ) (m : Installation) → IsPlan p → SparesUsedOf b p → p.blocks ≡ k ∷ [] → p.gear ≤ 128
        → most_events b p.gear < limit + begun (by_survey b) → HasBegun (by_survey b) 0 (installation_of p) between
        → Ran limit between sent text m
        → HasEndedBy b (installation_of p).site m.site 0 ⊎ IsPumpRefused m.site trouble.None refusal.DrawsSpent }
{}

/// AND WITH NUMBERS IT COMMISSIONS. If there also is a number to be drawn for each gear with power and without short
/// address, no call is refused, and the run ends with the end of the controller, which is true (`alone`). So it does on
/// a new installation of such a plan with no fewer numbers than gear (`new`), however the controller begins.
pub fn a_run_commissions()
    ensures alone { (b : Beginning) (c limit : ℕ) (n between : Installation) (sent : ℕ) (text : List ℕ)
        (m : Installation) → RanAlone b c limit n between sent text m
        → most_events b (bare n.site) < limit + begun (by_survey b) → HasRoom b n.site c
        → bare n.site ≤ length (world n.site).left → HasEndedBy b n.site m.site c }
    ensures new { (b : Beginning) (limit : ℕ) (p : Plan) (k : Block) (between : Installation) (sent : ℕ)
        (text : List ℕ) (m : Installation) → IsPlan p → SparesUsedOf b p → p.blocks ≡ k ∷ [] → p.gear ≤ 128
        → p.gear ≤ length p.draws → most_events b p.gear < limit + begun (by_survey b)
        → HasBegun (by_survey b) 0 (installation_of p) between → Ran limit between sent text m
        → HasEndedBy b (installation_of p).site m.site 0 }
{}

/// A REPLACED GEAR GETS THE ADDRESS. Let a controller begin alone by a survey, with settled records, in which each
/// address that is reserved is enrolled so, say with none; let one gear g alone with power have no short address; and
/// let an address of the controller's block be vacant: no gear has it, with power or without. So it is if a
/// luminaire was replaced: the new one has no address, and that of the one that is gone is vacant. The others may be
/// used gear, and have addresses of the block or not.
///
/// Then it ends with all-found, g has an address of the block that was vacant, and the table names it so (`served`). In
/// a block of one address that is the one (`address`): so a new gear gets the address of the one that is gone if the
/// block is this address alone.
///
/// Each other gear keeps its address and its random address (`keeps`), and the table names it, unless it had no power
/// or no number that gear draw (`named`); with any records.
///
/// A run of more than 1092 rounds that begins so, with room and a number left to draw, ends so (`run`). An address of
/// the block is vacant if the controller has nothing kept and no used gear has it (`vacant`). So a run ends of a new
/// installation in which all gear but g are used, and the block is one address, which none of them has: g gets it
/// (`new`).
pub fn a_replaced_gear_gets_the_address()
    ensures served { (s : SiteState) (c g a : ℕ) (es : List Event) (e : End) → BeginsAlone BySurvey s c
        → IsSettledAt s c → HasNew s c g a → Rounds true s c es → HasEnded (site_after s es) c e
        → IsServed s (site_after s es) c g e }
    ensures address { (s : SiteState) (c g a : ℕ) (es : List Event) (e : End) → BeginsAlone BySurvey s c
        → IsSettledAt s c → HasNew s c g a → block_at s.plan c ≡ only a → Rounds true s c es
        → HasEnded (site_after s es) c e
        → HoldsShort (world (site_after s es)) g a
        × Has (table_at (site_after s es) c) (a, (gear_at (world (site_after s es)) g).random) }
    ensures keeps { (s : SiteState) (c : ℕ) (es : List Event) → BeginsAlone BySurvey s c → Rounds true s c es
        → KeepsAddresses (world s) (world (site_after s es)) }
    ensures named { (s : SiteState) (c : ℕ) (es : List Event) (e : End) → BeginsAlone BySurvey s c → Rounds true s c es
        → HasEnded (site_after s es) c e → AreNamed s (site_after s es) c }
    ensures run { (c limit g a : ℕ) (n between : Installation) (sent : ℕ) (text : List ℕ) (m : Installation)
        → RanAlone BySurvey c limit n between sent text m → IsSettledAt n.site c → HasNew n.site c g a
        → HasRoom BySurvey n.site c → 0 < length (world n.site).left → 1092 < limit
        → (e : End) × HasEnded m.site c e × IsServed n.site m.site c g e }
    ensures vacant { (s : SiteState) (c a : ℕ) → BeginsAlone ByStart s c → InBlock (block_at s.plan c) a
        → (Has (used_shorts s.plan.used) a → ⊥) → IsVacant s a }
    ensures new { (limit g a : ℕ) (p : Plan) (between : Installation) (sent : ℕ) (text : List ℕ) (m : Installation)
        → IsPlan p → p.gear ≤ 128 → p.blocks ≡ only a ∷ [] → IsReplacing p g a → 0 < length p.draws → 1092 < limit
        → HasBegun true 0 (installation_of p) between → Ran limit between sent text m
        → (e : End) × HasEnded m.site 0 e × IsServed (installation_of p).site m.site 0 g e
        × HoldsShort (world m.site) g a }
{}

/// CONTROLLERS SURVEY ONE AFTER THE OTHER. From any history after which nothing waits (`IsStill`), with whatever
/// records, a controller that comes up begins alone (`comes`). So the laws of one survey alone hold of it; and of a
/// start, if it kept nothing. Once it has ended nothing waits (`rests`). Let controllers survey in turn, each alone and
/// undisturbed to its end (`TakeTurns`); then nothing waits again (`still`).
///
/// With n gear that have power and no short address they send at most 106 n + 258 frames each (`frames`). Gear keep
/// their addresses (`keeps`). Once one ended with all-found, every gear with power has a short address (`found`). So
/// it is after the last turn, whatever their records: if as many addresses of their blocks are vacant together, and
/// not reserved but as they are enrolled when a turn begins, as gear have power and no short address (`enough`).
///
/// The table of the controller that ended last names each gear with power that has a short address and a number that
/// gear draw (`named`). No two tables name one gear under two addresses, or two gear under one (`agree`).
pub fn controllers_survey_in_turn()
    ensures comes { (s : SiteState) (c : ℕ) (kept : Bool) → IsStill s → Allowed (world s) (Up c kept)
        → BeginsAlone BySurvey (site_logged s (Up c kept)) c }
    ensures rests { (b : Beginning) (s : SiteState) (c : ℕ) (es : List Event) (e : End) → BeginsAlone b s c
        → Rounds (by_survey b) s c es → HasEnded (site_after s es) c e → IsStill (site_after s es) }
    ensures still { (s : SiteState) (ts : List Turn) → IsStill s → TakeTurns s ts → IsStill (after_turns s ts) }
    ensures frames { (s : SiteState) (ts : List Turn) → IsStill s → TakeTurns s ts
        → turn_frames ts ≤ length ts * most_frames BySurvey (bare s) }
    ensures keeps { (s : SiteState) (ts : List Turn) → IsStill s → TakeTurns s ts
        → KeepsAddresses (world s) (world (after_turns s ts)) }
    ensures found { (s : SiteState) (ts : List Turn) → IsStill s → TakeTurns s ts → HasFoundAll ts
        → OfPowered (world (after_turns s ts)).gear HasShort }
    ensures enough { (s : SiteState) (ts : List Turn) → IsStill s → TakeTurns s ts
        → HaveVacant s ts → OfPowered (world (after_turns s ts)).gear HasShort }
    ensures named { (s : SiteState) (t : Turn) → IsStill s → TakesTurn s t
        → AllAreNamed (table_at (left_by s t) t.controller) (world (left_by s t)).gear }
    ensures agree { (s : SiteState) (ts : List Turn) → IsStill s → TakeTurns s ts
        → TablesAgree (world (after_turns s ts)) }
{}

/// A CENSUS IS BOUNDED. Of every list of inputs that are due, from a survey on, whatever bus, store and other
/// controllers do: while a machine asks short addresses for their random addresses, at most 320 of its frames are sent
/// and heard, five for each short address, and at most five more for each that was destroyed or not sent. If the gear
/// that are there answer at once, so that no answer follows a silence, they are at most 192, and three more for each
/// that was lost. So it is each time that it asks, at the start and as often as it asks again (`askings`).
///
/// So each census ends: after so many answers the machine asks no more. It asks again at most six times (`again`).
pub fn a_census_is_bounded()
    ensures any { (steps : List Step) (n : Machine) → IsCourse steps n → BeginsBySurvey steps → AreWhole steps
        → IsWhole n → frames_asked steps ≤ 320 * (1 + n.course.tally.askings) + 5 * frames_lost steps }
    ensures steady { (steps : List Step) (n : Machine) → IsCourse steps n → BeginsBySurvey steps → AreWhole steps
        → IsWhole n → AreSteady steps
        → frames_asked steps ≤ 192 * (1 + n.course.tally.askings) + 3 * frames_lost steps }
    ensures again { (steps : List Step) (n : Machine) → IsCourse steps n → BeginsBySurvey steps → AreWhole steps
        → IsWhole n → n.course.tally.askings ≤ 6 }
{}

/// A SURVEY GIVES NO ADDRESS AT WHICH IT HEARD GEAR. If a machine that began by a survey heard gear under a
/// short address, that address is marked, or enrolled, or about to be enrolled, from then on, or the machine has
/// halted. So it does not reserve the address. And what is reserved from before it gives only to the gear that is
/// enrolled there.
///
/// What it reserves was silent: it asked that address, and heard silence three times in a row (`silent`).
///
/// It says so of every list of inputs that are due, whatever bus, store and other controllers do; it takes for granted
/// that short addresses are below 64, and that three bytes are a number to `FFFFFF`.
pub fn nothing_is_given_where_somebody_was_heard()
    ensures accounted { (steps : List Step) (n : Machine) (a : ℕ) → a < 64 → IsCourse steps n → ArePlain steps
        → WasHeard steps a → IsAccounted n a }
    ensures reserved { (s : Step) (earlier : List Step) (n : Machine) (a r : ℕ) → a < 64 → IsCourse (s ∷ earlier) n
        → ArePlain (s ∷ earlier) → s.order ≡ Commit (Reserve a r) → HasSurveyed n → WasHeard (s ∷ earlier) a → ⊥ }
    ensures given { (s : Step) (earlier : List Step) (n : Machine) (a : ℕ) (q : SearchAddress) (f : Forward) → a < 64
        → IsCourse (s ∷ earlier) n → ArePlain (s ∷ earlier) → s.order ≡ Put LATER f → HasSurveyed n
        → n.course.opened ≡ true → stage_told s ≡ Unnamed q → address_for n.kept.reserved (value_of q) ≡ Some a
        → WasHeard (s ∷ earlier) a → Has n.kept.enrolled (a, value_of q) }
    ensures silent { (s : Step) (earlier : List Step) (n : Machine) (a r : ℕ) → a < 64 → IsCourse (s ∷ earlier) n
        → BeginsBySurvey (s ∷ earlier) → ArePlain (s ∷ earlier) → AreWhole (s ∷ earlier) → IsWhole n
        → s.order ≡ Commit (Reserve a r) → HasSurveyed n → WasSilent (s ∷ earlier) a }
{}

/// GEAR THAT TELLS ITS RANDOM ADDRESS IS IN THE TABLE. If a machine asked a short address, and heard three bytes of a
/// number that gear draw, that address is enrolled with that number from then on, or about to be, or the machine has
/// halted; whichever controller gave the gear its address (`told`).
///
/// Once the census of a survey is over, each short address under which every answer was a byte is in the table so, or
/// told `FFFFFF`, which is no number that gear draw (`taken`).
pub fn who_tells_its_number_is_enrolled()
    ensures told { (steps : List Step) (n : Machine) (a r : ℕ) → IsCourse steps n → r < MASK24
        → WasSpelled steps a r → IsNamed n a r }
    ensures taken { (steps : List Step) (n : Machine) (a : ℕ) → a < 64 → IsCourse steps n → BeginsBySurvey steps
        → ArePlain steps → AreWhole steps → IsWhole n → AllByRecursion (IsClean a) steps → HasTakenCensus n
        → ((r : ℕ) × IsNamed n a r) ⊎ WasSpelled steps a MASK24 }
{}

/// USED GEAR THAT WERE HEARD ARE LEFT ALONE. Of a controller that has just begun, and of all that calls of the site add
/// to its log from then on: if it surveys each time that it begins, and of each short address that used gear have in
/// its block hears silence at most twice before it begins anew, when it asks for the first byte of the random address,
/// none of its acts is refused because an address is in use (`heard`). Once its questions are over, it is so whatever
/// is heard, until it begins anew (`later`).
///
/// It hears no silence if each used gear of its block that it asks so has power then, and nothing disturbs the
/// answer (`powered`).
///
/// All else may be disturbed: frames may be destroyed, the bus may lapse, other controllers may do what they want, and
/// what is heard of other gear may be lost. So controllers need not survey one after the other. A survey of one
/// controller alone that nothing disturbs, while all used gear have power, is such a one (`undisturbed`).
///
/// If each controller of a new site hears them so, no order reserves an address that used gear have, whether or not
/// a site would refuse it (`run`); and so it is if each asks in peace (`peaceful`). So the promise holds on a real
/// bus too, which refuses no order (`promise`). On a new site each controller has just begun (`start`).
///
/// A gear without power is not heard, and one whose address no controller asks is not either: two short histories of
/// `dali_events` show what then becomes of the promise.
pub fn used_gear_that_were_heard_are_left_alone()
    ensures heard { (s : SiteState) (c : ℕ) (es : List Event) (i : Input) → IsPlan s.plan → HasJustBegun s c
        → AreOfCalls s es → HearsUsed s.plan c es
        → IsActRefused (site_after s es) c i refusal.AddressInUse → ⊥ }
    ensures later { (s : SiteState) (c : ℕ) (es more : List Event) (i : Input) → IsPlan s.plan → HasJustBegun s c
        → AreOfCalls s es → HearsUsed s.plan c es → HasAsked (site_after s es) c
        → AreOfCalls (site_after s es) more → AllByRecursion (StaysBegun c) more
        → IsActRefused (site_after (site_after s es) more) c i refusal.AddressInUse → ⊥ }
    ensures powered { (s : SiteState) (c : ℕ) (es : List Event) (i : Input) → HasJustBegun s c → AreOfCalls s es
        → IsRun s.plan s.queue (site_after s es).log → AllAskInPeace s c es
        → IsActRefused (site_after s es) c i refusal.AddressInUse → ⊥ }
    ensures undisturbed { (s : SiteState) (c : ℕ) (es : List Event) → BeginsAlone BySurvey s c → HavePower s
        → Rounds true s c es → HasJustBegun s c × AreOfCalls s es × AllAskInPeace s c es }
    ensures run { (p : Plan) (queue room : ℕ) (es : List Event) → IsPlan p → AreOfCalls (opened_site p queue room) es
        → ((c : ℕ) → HearsUsed p c es) → IsRun p queue es }
    ensures promise { (p : Plan) (queue room : ℕ) (es : List Event) → IsPlan p
        → AreOfCalls (opened_site p queue room) es → ((c : ℕ) → HearsUsed p c es) → KeepsPromise p queue es }
    ensures peaceful { (p : Plan) (queue room : ℕ) (es : List Event) → IsPlan p
        → AreOfCalls (opened_site p queue room) es
        → ((c : ℕ) → AllAskInPeace (opened_site p queue room) c es) → IsRun p queue es }
    ensures start { (p : Plan) (queue room c : ℕ) → c < length p.blocks → HasJustBegun (opened_site p queue room) c }
{}
