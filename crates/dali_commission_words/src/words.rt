//! The command line, and what it asks for.

ghost use Rattle.std.specs.Prelude.{◌≡◌, ◌<◌, ℕ, List, [], IfOk, IfSome, IsErr, OnOk, codes, string_bytes};
ghost use Rattle.std.specs.List.{list_any};
ghost use Rattle.dali_words.specs.Lines.{values_of};
ghost use Rattle.dali_commission_words.specs.Words.{IsShort, IsBlock, AddsSpelled, value_of, first_of, meets, IsStart};
ghost use Rattle.dali_commission_words.specs.Words.{IsSetup, IsForm, IsOnlyBlock, IsReplacement, IsTask, IsAsked};
ghost use Rattle.dali_commission_words.specs.Words.{AreNamed, IsMend, Has};

use dali_commission_tasks::{Asked, Mend, Replacement, Setup, Start, TableForm, Task};
use dali_frame::Short;
use dali_replacement::MOST_FILES;
use dali_script::Block;
use dali_words::{
    CommandLine, LineFault, Program, Subcommand, Value, Word, WordKind, conflict, no_task,
    wrong_value,
};
use std::alloc::Global;

const LONG_ABOUT: &str = "\
Gives short addresses to the DALI control gear on a bus, and keeps its records in a file.

It talks to a driver of the bus by lines, on standard input and output: `put P HHHH ask|tell [pair 1|2]` is answered by
`silence`, `byte HH`, `damaged`, `destroyed` or `lapsed`. With --driver the launcher starts one and passes lines on.";

const AFTER_HELP: &str = "\
Examples:
  ./dali_commission run --records site.db --driver 'adapters/daliserver localhost 55825' 0-63
  ./dali_commission check --records site.db --driver 'adapters/daliserver localhost 55825'
  ./dali_commission identify 5 --driver 'adapters/daliserver localhost 55825'
  ./dali_commission table --records site.db --csv
  ./dali_commission replace 5 --records site.db --only --driver 'adapters/daliserver localhost 55825'
  ./dali_commission mend 5 7 --records site.db --driver 'adapters/daliserver localhost 55825' 0-63

docs/INSTALLER.md of the repository says how to use it, docs/FORMAT.md has each line and the exit statuses.";

const RUN: &str = "\
Gives each gear without short address one of the block, and keeps which gear has which in the file of the records.

It makes passes over the bus until three in a row have found nothing. Each pass begins with a survey: it asks each short
address that its table does not name, and enrols each gear that tells its random address. If a gear answers but does not
tell it, the address is given to no gear, and the end says so. With --start fresh, for new gear alone, it asks before it
begins; if a gear answers, it begins nothing, and says what can be done. You may stop it at any moment, also by a power
cut: the next run goes on from the file.";

const CHECK: &str = "\
Asks each short address three times for the random address of its gear, and compares the answers with the records: which
gear answer, which are missing, which are strangers, and which share one address. Then it asks whether there are gear
without short address. It gives no address and writes no record.";

const REPLACE: &str = "\
Gives a new luminaire the short address of one that is gone, in all files of records of the site.

The new luminaire is on and has no short address, the old one is disconnected, and all others are on. Each file is named
by --records. A new file is made beside each; when all are complete they take the places of the old ones, which are kept
as FILE.before-1, FILE.before-2 and so on. It refuses and changes nothing if a gear still answers at the address, if
another luminaire of a table does not answer, or if it does not find exactly one new luminaire. Before any file takes
the place of another, and before it says that it is done, it has heard the new luminaire answer at the address. You may
stop it at any moment, also by a power cut: the same line goes on where it was, or with --again anew. With --accept no
frame changes any luminaire: the one that answers at the address is the new one. The old one must never come back.";

const MEND: &str = "\
Tells gear apart that share a short address, and lets all but one of them lose it; then gives each of these another one.

The words before the block are the short addresses; without them it takes each one that several gear have, or a gear
without random address. It asks all short addresses first. It refuses and changes nothing if no gear answers at one of
them, or if another luminaire of a table does not answer. The luminaire that a table has keeps its short address, and
no luminaire with another one loses it. At the end it enrols gear in the first file of records, as a run does. You may
stop it at any moment: the same line, or a run, goes on.";

const CLEAR: &str = "\
Takes the short addresses of all gear on the bus away. Scenes, groups and levels stay, and so do random addresses.

Each file of records that is named and not empty is put aside first, as FILE.before-1 and so on: it would be wrong. Then
all gear are initialised, searched by their random addresses, and lose their short addresses, until none answers at any.
On a terminal it asks for a word, which you type in full; a script says --yes. At the end it says which gear still
answer. You may stop it at any moment: the same line goes on. A run then begins anew.";

const DRIVER: Word = Word {
    name: "driver",
    value: "COMMAND",
    help: "The driver of the bus, which the launcher starts; without it you type the driver's answers",
    kind: WordKind::Option(Value::Text),
};

const DRIVER_TIMEOUT: Word = Word {
    name: "driver-timeout",
    value: "SECONDS",
    help: "How long the driver may take to answer before the launcher ends the run; the default is 10 s",
    kind: WordKind::Option(Value::Text),
};

const JSON: Word = Word {
    name: "json",
    value: "",
    help: "Write what it came to as an object of JSON, too, on standard output",
    kind: WordKind::Flag,
};

const QUIET: Word = Word {
    name: "quiet",
    value: "",
    help: "Say nothing of how far it is",
    kind: WordKind::Flag,
};

const OTHERS: Word = Word {
    name: "others",
    value: "BLOCK",
    help: "The block of another controller, whose addresses the census does not query; may be given again",
    kind: WordKind::Again,
};

const MISSING: Word = Word {
    name: "missing",
    value: "ADDRESS",
    help: "The short address of another luminaire that is known to be gone; may be given again",
    kind: WordKind::Again,
};

const RECORDS: &str = "The file of the records: one controller, one file";

const NEEDED_RECORDS: Word = Word {
    name: "records",
    value: "FILE",
    help: RECORDS,
    kind: WordKind::Needed(Value::Text),
};

const RUN_WORDS: &[Word] = &[
    NEEDED_RECORDS,
    DRIVER,
    DRIVER_TIMEOUT,
    OTHERS,
    Word {
        name: "start",
        value: "WAY",
        help: "How each pass begins: with a survey of the gear that are there, or as beside new gear alone",
        kind: WordKind::Default(Value::Among(&["survey", "fresh"]), "survey"),
    },
    Word {
        name: "idle-passes",
        value: "N",
        help: "How many passes over the bus in a row must have found nothing",
        kind: WordKind::Default(Value::Count, "3"),
    },
    Word {
        name: "mend",
        value: "",
        help: "Then mend the short addresses that gear share, as mend does",
        kind: WordKind::Flag,
    },
    QUIET,
    JSON,
    Word {
        name: "block",
        value: "BLOCK",
        help: "The short addresses that may be given, as 0-63",
        kind: WordKind::Place(Value::Text),
    },
];

const CHECK_WORDS: &[Word] = &[
    Word {
        name: "records",
        value: "FILE",
        help: RECORDS,
        kind: WordKind::Option(Value::Text),
    },
    DRIVER,
    DRIVER_TIMEOUT,
    OTHERS,
    JSON,
];

const IDENTIFY_WORDS: &[Word] = &[
    DRIVER,
    DRIVER_TIMEOUT,
    JSON,
    Word {
        name: "address",
        value: "ADDRESS",
        help: "The short address of the gear, 0 to 63",
        kind: WordKind::Place(Value::Address),
    },
];

const TABLE_WORDS: &[Word] = &[
    NEEDED_RECORDS,
    Word {
        name: "csv",
        value: "",
        help: "As comma-separated values, with a heading",
        kind: WordKind::Flag,
    },
    Word {
        name: "json",
        value: "",
        help: "As an array with an object for each gear",
        kind: WordKind::NotBeside("csv"),
    },
];

const REPLACE_WORDS: &[Word] = &[
    Word {
        name: "records",
        value: "FILE",
        help: "A file of the records; each file of the site is named, by an option of its own",
        kind: WordKind::NeededAgain,
    },
    MISSING,
    Word {
        name: "only",
        value: "",
        help: "No other controller has a file of records: the one that is named is the only one of the site",
        kind: WordKind::Flag,
    },
    Word {
        name: "again",
        value: "",
        help: "Put aside the new files that an earlier call has left, and begin anew",
        kind: WordKind::Flag,
    },
    Word {
        name: "accept",
        value: "",
        help: "The luminaire that answers at the address is the new one: it is accepted, and no address is given",
        kind: WordKind::Flag,
    },
    DRIVER,
    DRIVER_TIMEOUT,
    QUIET,
    JSON,
    Word {
        name: "address",
        value: "ADDRESS",
        help: "The short address of the luminaire that is replaced, 0 to 63",
        kind: WordKind::Place(Value::Address),
    },
    Word {
        name: "block",
        value: "BLOCK",
        help: "The block of the records, if one file is named",
        kind: WordKind::LastPlace(Value::Text),
    },
];

const MEND_WORDS: &[Word] = &[
    Word {
        name: "records",
        value: "FILE",
        help: "A file of the records; the first one is that of the block, and gear of the others are left alone",
        kind: WordKind::NeededAgain,
    },
    MISSING,
    OTHERS,
    DRIVER,
    DRIVER_TIMEOUT,
    QUIET,
    JSON,
    Word {
        name: "words",
        value: "WORD",
        help: "The short addresses, 0 to 63, if not all are meant; and last the block of the first file, as 0-63",
        kind: WordKind::Places,
    },
];

const CLEAR_WORDS: &[Word] = &[
    Word {
        name: "records",
        value: "FILE",
        help: "A file of the records, which is put aside; may be given again",
        kind: WordKind::Again,
    },
    Word {
        name: "yes",
        value: "",
        help: "All gear are to lose their short addresses: no word is asked for",
        kind: WordKind::Flag,
    },
    DRIVER,
    DRIVER_TIMEOUT,
    QUIET,
    JSON,
];

const SUBCOMMANDS: &[Subcommand] = &[
    Subcommand {
        name: "run",
        about: "Gives short addresses to the gear",
        long_about: Some(RUN),
        after_help: None,
        words: RUN_WORDS,
    },
    Subcommand {
        name: "check",
        about: "Says which gear answer, beside the records",
        long_about: Some(CHECK),
        after_help: None,
        words: CHECK_WORDS,
    },
    Subcommand {
        name: "identify",
        about: "Makes the gear with a short address go bright and dark",
        long_about: None,
        after_help: None,
        words: IDENTIFY_WORDS,
    },
    Subcommand {
        name: "table",
        about: "Writes which gear has which short address",
        long_about: None,
        after_help: None,
        words: TABLE_WORDS,
    },
    Subcommand {
        name: "replace",
        about: "Gives a new luminaire the short address of one that is gone",
        long_about: Some(REPLACE),
        after_help: None,
        words: REPLACE_WORDS,
    },
    Subcommand {
        name: "mend",
        about: "Tells gear apart that share a short address",
        long_about: Some(MEND),
        after_help: None,
        words: MEND_WORDS,
    },
    Subcommand {
        name: "clear",
        about: "Takes the short addresses of all gear away",
        long_about: Some(CLEAR),
        after_help: None,
        words: CLEAR_WORDS,
    },
];

/// The words that the program knows.
pub const PROGRAM: Program = Program {
    name: "dali_commission",
    about: "Short address commissioning of DALI control gear",
    long_about: Some(LONG_ABOUT),
    after_help: AFTER_HELP,
    subcommands: SUBCOMMANDS,
};

/// What a value may spell.
trait Spelled: Drop + Sized {
    ghost spells: { List ℕ → Self → Type 0 };

    /// What this word spells.
    fn of(alloc: Global, word: &str) -> Result<Self, LineFault>
        ensures { IfOk result (spells word.now) };
}

impl Spelled for String {
    ghost spells = { λ word it. string_bytes it ≡ word };

    fn of(alloc: Global, word: &str) -> Result<String, LineFault> {
        Ok(String::from_str(alloc, word)?)
    }
}

impl Spelled for Short {
    ghost spells = { IsShort };

    fn of(alloc: Global, word: &str) -> Result<Short, LineFault> {
        match short_of(word) {
            Some(short) => Ok(short),
            None => wrong(alloc, word, "not a short address, 0 to 63"),
        }
    }
}

impl Spelled for Block {
    ghost spells = { IsBlock };

    fn of(alloc: Global, word: &str) -> Result<Block, LineFault> {
        match block_of(word) {
            Some(block) => Ok(block),
            None => wrong(alloc, word, "not a block such as 0-63"),
        }
    }
}

/// A value is none of its word, for this reason.
fn wrong<T>(alloc: Global, word: &str, why: &str) -> Result<T, LineFault>
    ensures { IsErr result }
{
    Err(LineFault::Value(format!(in alloc; "invalid value '{word}': {why}")?))
}

fn short_of(word: &str) -> Option<Short>
    ensures { IfSome result (IsShort word.now) }
{
    Short::of(word.parse().ok()?)
}

/// A block of short addresses, as `0-63`.
fn block_of(word: &str) -> Option<Block>
    ensures { IfSome result (IsBlock word.now) }
{
    let (first, last) = word.split_once('-')?;
    let (first, last) = (short_of(first)?, short_of(last)?);
    if first <= last {
        Some(Block { first, last })
    } else {
        None
    }
}

/// Adds what the values of a word spell, of these.
fn push_all<T: Spelled>(
    alloc: Global,
    all: &mut Vec<T>,
    name: &str,
    values: &[(String, String)],
) -> Result<(), LineFault>
    ensures { OnOk result (AddsSpelled T.spells all.old.items (values_of name.now values.now) all.new.items) }
{
    let [(word, value), more @ ..] = values else {
        return Ok(());
    };
    if word.as_str() == name {
        let it = T::of(alloc, value)?;
        all.push(it).map_err(|_| LineFault::Memory)?;
    }
    push_all(alloc, all, name, more)
}

/// What all values of a word spell.
fn all<T: Spelled>(alloc: Global, line: &CommandLine, name: &str) -> Result<Vec<T>, LineFault>
    ensures { IfOk result (λ all. AddsSpelled T.spells [] (values_of name.now line.now.values.items) all.items) }
{
    let mut all = Vec::new(alloc);
    push_all(alloc, &mut all, name, &line.values)?;
    Ok(all)
}

/// What the value of a word spells. `clap` has seen that it is there.
fn one<T: Spelled>(alloc: Global, line: &CommandLine, name: &str) -> Result<T, LineFault>
    ensures { IfOk result (T.spells (value_of name.now line.now.values.items)) }
{
    T::of(alloc, line.value(name).unwrap_or_default())
}

fn meets_any(own: Block, others: &[Block]) -> bool
    ensures { result ≡ list_any (meets own) others.now }
{
    others
        .iter()
        .any(|other| own.first <= other.last && other.first <= own.last)
}

/// How a run starts. The table has no other word, so that a further one is told and not taken for these.
fn start(alloc: Global, line: &CommandLine) -> Result<Start, LineFault>
    ensures { IfOk result (IsStart line.now.values.items) }
{
    let word = line.value("start");
    if word == Some("fresh") {
        Ok(Start::Fresh)
    } else if word.is_none() || word == Some("survey") {
        Ok(Start::Survey)
    } else {
        wrong_value(alloc, "a start is neither 'survey' nor 'fresh'")
    }
}

/// How many passes must find nothing. `clap` has seen that they are some.
fn idle_passes(line: &CommandLine) -> u8
    ensures { 0 < result }
{
    match line.number("idle-passes") {
        Some(0) | None => 3,
        Some(count) => count,
    }
}

const MEETS: &str = "the block and that of another controller have an address in common";

/// What is asked for by `run`, beside these blocks of other controllers, none of which may have an address in common
/// with its own one.
fn setup(alloc: Global, line: &CommandLine, others: &[Block]) -> Result<Setup, LineFault>
    ensures { IfOk result (IsSetup line.now.values.items others.now) }
{
    let block = one(alloc, line, "block")?;
    if meets_any(block, others) {
        return conflict(alloc, MEETS);
    }
    Ok(Setup {
        block,
        start: start(alloc, line)?,
        idle_passes: idle_passes(line),
        mends: line.has("mend"),
    })
}

const ONE_FILE: &str = "\
one file is named: if other controllers have files, name each by --records; if none has, say --only, or name the \
block, as 0-31";

/// The block of the only file of records.
fn only_block(alloc: Global, line: &CommandLine, files: usize) -> Result<Block, LineFault>
    ensures { IfOk result (IsOnlyBlock line.now.values.items files (first_of (codes "block") line.now.values.items)) }
{
    match (line.value("block"), line.has("only")) {
        (Some(word), _) if files == 1 => Block::of(alloc, word),
        (Some(_), _) => conflict(alloc, "a block is that of one file, and several are named"),
        (None, false) if files == 1 => conflict(alloc, ONE_FILE),
        (None, true) if files > 1 => {
            conflict(alloc, "--only is said of one file, and several are named")
        }
        (None, _) => Ok(Block::ALL),
    }
}

/// What is asked for by `replace`, in so many files of records.
fn replacement(alloc: Global, line: &CommandLine, files: usize) -> Result<Replacement, LineFault>
    ensures { IfOk result (IsReplacement line.now.values.items files) }
{
    if files > MOST_FILES {
        return conflict(alloc, "a site has at most 64 files of records");
    }
    Ok(Replacement {
        block: only_block(alloc, line, files)?,
        short: one(alloc, line, "address")?,
        missing: all(alloc, line, "missing")?,
        is_again: line.has("again"),
    })
}

/// Adds the short addresses that all words but the last one spell; and the block that this one spells.
fn push_named(alloc: Global, named: &mut Vec<Short>, words: &[String]) -> Result<Block, LineFault>
    ensures { IfOk result (AreNamed named.old.items words.now named.new.items) }
{
    match words {
        [] => wrong_value(alloc, "a block is missing"),
        [last] => Block::of(alloc, last),
        [word, more @ ..] => {
            let short: Short = Spelled::of(alloc, word)?;
            named.push(short).map_err(|_| LineFault::Memory)?;
            push_named(alloc, named, more)
        }
    }
}

/// What is asked for by `mend`, beside these blocks of other controllers.
fn mend(alloc: Global, line: &CommandLine, others: &[Block]) -> Result<Mend, LineFault>
    ensures { IfOk result (IsMend line.now.values.items others.now) }
{
    let words: Vec<String> = all(alloc, line, "words")?;
    let mut named = Vec::new(alloc);
    let block = push_named(alloc, &mut named, &words)?;
    if meets_any(block, others) {
        return conflict(alloc, MEETS);
    }
    Ok(Mend {
        named,
        missing: all(alloc, line, "missing")?,
        block,
    })
}

/// What is asked for by `clear`, if its word is there.
fn clear(alloc: Global, line: &CommandLine) -> Result<Task, LineFault>
    ensures { IfOk result (λ task. (task ≡ Task.Clear) × Has (codes "yes") line.now.values.items) }
{
    if line.has("yes") {
        Ok(Task::Clear)
    } else {
        conflict(
            alloc,
            "all gear would lose their short addresses: type the word that is asked for, or say --yes",
        )
    }
}

fn form(line: &CommandLine) -> TableForm
    ensures { IsForm line.now.values.items result }
{
    if line.has("csv") {
        TableForm::Csv
    } else if line.has("json") {
        TableForm::Json
    } else {
        TableForm::Text
    }
}

/// What is to be done, with so many files of records, beside these blocks of other controllers.
fn task_of(
    alloc: Global,
    line: &CommandLine,
    files: usize,
    others: &[Block],
) -> Result<Task, LineFault>
    ensures { IfOk result (IsTask (string_bytes line.now.subcommand) line.now.values.items others.now files) }
{
    match line.subcommand.as_str() {
        "run" => Ok(Task::Run(setup(alloc, line, others)?)),
        "check" => Ok(Task::Check),
        "identify" => Ok(Task::Identify(one(alloc, line, "address")?)),
        "table" => Ok(Task::Table(form(line))),
        "replace" => {
            let wanted = replacement(alloc, line, files)?;
            if line.has("accept") {
                Ok(Task::Accept(wanted))
            } else {
                Ok(Task::Replace(wanted))
            }
        }
        "mend" => Ok(Task::Mend(mend(alloc, line, others)?)),
        "clear" => clear(alloc, line),
        _ => no_task(alloc),
    }
}

/// What a line asks for.
pub fn asked_of(alloc: Global, line: &CommandLine) -> Result<Asked, LineFault>
    ensures { IfOk result (IsAsked (string_bytes line.now.subcommand) line.now.values.items) }
{
    if line.value("driver").is_some() || line.value("driver-timeout").is_some() {
        return conflict(
            alloc,
            "a driver is started by the launcher, ./dali_commission",
        );
    }
    let records: Vec<String> = all(alloc, line, "records")?;
    let others: Vec<Block> = all(alloc, line, "others")?;
    let task = task_of(alloc, line, records.len(), &others)?;
    Ok(Asked {
        as_json: line.has("json") && !matches!(task, Task::Table(_)),
        is_quiet: line.has("quiet"),
        task,
        records,
        others,
    })
}
