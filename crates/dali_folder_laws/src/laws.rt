//! What a stop leaves of an exchange of files, and of files that are put aside. Programs don't call these.

ghost use Rattle.std.specs.declared.alloc.Global.{Global};
ghost use Rattle.std.specs.declared.string.String.{String};
ghost use Rattle.std.specs.Prelude.{◌≡◌, ◌≤◌, ◌<◌, ◌⊎◌, ℕ, Bool, true, List, Some, None, length};
ghost use Rattle.dali_replacement.specs.declared.swapping.Swap.{Swap};
ghost use Rattle.dali_replacement.specs.Swapping.{names_of};
ghost use Rattle.dali_commission_stores.specs.Calls.{Call, AreMade};
ghost use Rattle.dali_commission_stores.specs.Settling.{count_of, new_at};
ghost use Rattle.dali_commission_stores.specs.Keeping.{IsAside};
ghost use Rattle.dali_commission_stores.specs.Lent.{lent_calls};
ghost use Rattle.dali_commission_cleared.specs.Clearing.{asides};
ghost use Rattle.dali_folder.specs.Events.{Event, AreBegun};
ghost use Rattle.dali_folder.specs.Folder.{Folders, IsSettled, Happen};
ghost use Rattle.dali_folder_laws.specs.Asides.{PutAsideOften, AreAway, HasStill, HasBehind, LiesOrAside};
ghost use Rattle.dali_folder_laws.specs.Folder.{Folder, IsAfter, IsUsed, Leaves};
ghost use Rattle.dali_folder_laws.specs.Moments.{Itself, Journal, IsPart, Differ, MayBegin, Files, IsBefore, IsBehind};
ghost use Rattle.dali_folder_laws.specs.Moments.{IsAtSome, AllOld, AllNew, AllAnnounced};
ghost use Rattle.dali_folder_laws.specs.Stops.{Program, starting, Makes, Sees, Exchanges, SettleOften, ended_as};
ghost use Rattle.dali_folder_laws.specs.System.{but_for, asked_by, AreFit, AllFit, IsThere, Machine, Fits};
ghost use Rattle.dali_folder_laws.specs.System.{MachineExchanges, MachineSettles, MachinesSettle, MachinePutsAside};

/// Whenever it is stopped, the folder is at a moment of the exchange. One that is not stopped ends it (`ends`).
pub fn a_stop_leaves_an_exchange_at_a_moment()
    ensures begun { (swap : Swap) (files : Files) (x : Folder) (y : Program) → MayBegin swap → IsBefore swap files x
        → Exchanges swap x y → IsAtSome swap files y.folder }
    ensures ends { (swap : Swap) (files : Files) (x : Folder) (y : Program) → MayBegin swap → IsBefore swap files x
        → Exchanges swap x y → y.runs ≡ true → IsBehind swap files y.folder }
    ensures settled { (swap : Swap) (files : Files) (often : ℕ) (x y : Folder) → MayBegin swap → IsAtSome swap files x
        → SettleOften swap often x y → IsAtSome swap files y }
{}

/// At no moment is a file missing, unless a journal lies beside each; and if none lies beside one, each file is old, or
/// each is new.
pub fn no_file_is_missing_and_none_has_two_truths()
    ensures missing { (swap : Swap) (files : Files) (i : ℕ) (at : List ℕ) (x : Folder) → IsAtSome swap files x
        → i < count_of swap → IsPart swap i Itself at → x at ≡ None → AllAnnounced swap x }
    ensures truth { (swap : Swap) (files : Files) (i : ℕ) (at : List ℕ) (x : Folder) → IsAtSome swap files x
        → i < count_of swap → IsPart swap i Journal at → x at ≡ None → AllOld swap files x ⊎ AllNew swap files x }
{}

/// An exchange may begin (`MayBegin`) if no two files have one name, and none has that of another one's new file. Names
/// beside them are apart then: before an exchange the files are there, and no journal and no kept file.
pub fn an_exchange_of_names_that_differ_may_begin()
    ensures { (swap : Swap) (files : Files) (x : Folder) → length (names_of swap) ≤ 64 → Differ swap
        → IsBefore swap files x → MayBegin swap }
{}

/// A NEW FILE OVER A CRASH, that of a first run (`lent`), or one that is put aside. Whenever it is stopped, each other
/// name has what it had, and the file and its log have what SQLite leaves. One that is put aside lies there still, or
/// under its new name (`lies`). If it is not stopped, nothing lies there (`away`): so a later call puts it aside.
pub fn a_new_file_is_used_or_put_aside()
    ensures lent { (name : List ℕ) (x : Folder) (y : Program) → AreMade Makes (lent_calls name) (starting x) y
        → IsUsed name x y.folder }
    ensures lies { (name : List ℕ) (x : Folder) (y : Program)
        → IsAside Makes Sees (λ _. Unit {0}) name (starting x) y → LiesOrAside name x y.folder }
    ensures away { (name : List ℕ) (x : Folder) (y : Program)
        → IsAside Makes Sees (λ _. Unit {0}) name (starting x) y → y.runs ≡ true → y.folder (new_at name) ≡ None }
{}

/// THE SYSTEM LEAVES NO MORE: a call that is stopped within what it asks of the system leaves folders as before it or
/// as after it, as programs see them and on the disk; and one that ends well leaves them as after it, on the disk.
pub fn the_system_leaves_what_a_stop_leaves()
    ensures stops { (passing : List ℕ → Bool) (part log : List ℕ → List ℕ) (call : Call) (begun : List Event)
        (was now : Folders) → AreFit passing part log call → IsSettled passing was
        → AreBegun begun (asked_by part log call) → Happen begun was now
        → Leaves call (but_for passing was.holds) (but_for passing now.holds)
        × Leaves call (but_for passing was.holds) (but_for passing now.disk) }
    ensures ends { (passing : List ℕ → Bool) (part log : List ℕ → List ℕ) (call : Call) (was now : Folders)
        → AreFit passing part log call → IsSettled passing was → IsThere call was.holds
        → Happen (asked_by part log call) was now
        → IsSettled passing now × IsAfter call (but_for passing was.holds) (but_for passing now.holds) }
{}

/// AN EXCHANGE OVER KILLS AND CRASHES. Machines exchange files and settle that, each of which may stop within what any
/// call asks of the system: its program is killed, and the next one goes on from what programs see then; or it starts
/// anew from what its disk has. One that does not stop ends it, on the disk: with each file exchanged, or as before.
pub fn an_exchange_ends_over_every_crash()
    ensures { (passing : List ℕ → Bool) (part log : List ℕ → List ℕ) (swap : Swap) (files : Files) (often : ℕ)
        (x z : Folders) (y w : Machine) (done : Bool) → MayBegin swap → Fits passing part log swap
        → IsSettled passing x → IsBefore swap files (but_for passing x.holds) → MachineExchanges part log swap x y
        → MachinesSettle part log swap often y.folders z → MachineSettles part log swap z w done → w.runs ≡ true
        → IsSettled passing w.folders × ended_as swap files done (but_for passing w.folders.holds) }
{}

/// FILES THAT ARE PUT ASIDE OVER A KILL OR A CRASH. A machine may stop within what any call asks of the system: each
/// name has what it had, as programs see it then and on the disk; or it has nothing, and what it had is kept. If it
/// does not stop, each file that was there and not empty is put aside, on the disk (`away`). No file is lost after any
/// number of programs that were stopped (`often`).
pub fn what_is_put_aside_is_not_lost()
    ensures kept { (passing : List ℕ → Bool) (part log : List ℕ → List ℕ) (records names : List (String Global))
        (number : ℕ) (x : Folders) (y : Machine) (at had : List ℕ) → AllFit passing part log (asides names number)
        → IsSettled passing x → MachinePutsAside part log records names number x y
        → but_for passing x.holds at ≡ Some had
        → HasStill number (but_for passing x.holds) (but_for passing y.folders.holds) at had
        × HasStill number (but_for passing x.holds) (but_for passing y.folders.disk) at had }
    ensures away { (passing : List ℕ → Bool) (part log : List ℕ → List ℕ) (records names : List (String Global))
        (number : ℕ) (x : Folders) (y : Machine) → AllFit passing part log (asides names number)
        → IsSettled passing x → MachinePutsAside part log records names number x y → y.runs ≡ true
        → IsSettled passing y.folders × AreAway names (but_for passing y.folders.holds) }
    ensures often { (records : List (String Global)) (often : ℕ) (x y : Folder) (at had : List ℕ)
        → PutAsideOften records often x y → x at ≡ Some had → HasBehind y at had }
{}
