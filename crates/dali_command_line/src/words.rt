//! The command line, and what it asks for.

ghost use Rattle.std.specs.Prelude.{◌≡◌, Some, Ok, codes, slice_get, string_bytes, IsErr, IfOk, MatchOption};
ghost use Rattle.dali_grammar.specs.Numbers.{block_of, blocks_of};
ghost use Rattle.dali_words.specs.Lines.{values_of};
ghost use Rattle.dali_command_line.specs.Words.{IsSetup, IsForm, IsTask};

use arrayvec::ArrayVec;
use dali_events::PlanError;
use dali_replay::{Form, block_of, plan_limit};
use dali_threads::Setup;
use dali_words::{
    CommandLine, LineFault, Program, Subcommand, Value, Word, WordKind, no_task, wrong_value,
};
use std::alloc::Global;
use std::str::FromStr;

/// What a command line asks for.
#[derive(Drop)]
pub enum Task {
    /// A script is to be played, and this is to be written.
    Replay(Form),
    /// Controllers are to be run in threads.
    Threads(Setup),
}

const REPLAY: &str = "\
Plays a script of what happens on a bench of control gear or on a whole site, and reports what comes of each line.

The script is read from standard input. Its first two lines set up the gear, the controllers and the numbers that gear
draw; each further line is one event. The reports are written to standard output.";

const AFTER_REPLAY: &str = "\
Example: dali_sim replay < examples/plain-path.txt

docs/FORMAT.md of the repository has each line, its report and the exit statuses; README.md says where to begin.";

const AFTER_HELP: &str = "\
Examples:
  dali_sim replay < examples/plain-path.txt
  dali_sim threads --gear 8 --seed 1 --turns 100000 0-15 16-31

The manual is README.md of the repository, and docs/FORMAT.md for each line that is read or written.";

const THREADS: &str = "\
Runs application controllers in threads of their own over one bus, and reports what became of the control gear.

The gear come from the factory. Each controller searches them and gives them addresses of its block, until it ends or
has had its turns. Standard input is not read. The report is written when all have ended, a line for
  controller C: END                        how each controller ended
  gear G POWER STATE RANDOM SEARCH SHORT   each gear with its short address, or - if it has none
  table C: A=RANDOM ..                     the gear that each controller enrolled, by address
  addressed K of N                         how many gear have a short address
The order in which the threads act is open, so two runs of one command line may give different addresses.";

const AFTER_THREADS: &str = "\
Example: dali_sim threads --gear 8 --seed 1 --turns 100000 0-15 16-31

README.md of the repository shows what it writes, docs/FORMAT.md has each line and the exit statuses.";

const REPLAY_WORDS: &[Word] = &[Word {
    name: "json",
    value: "",
    help: "Writes what each line `show` shows as one line of JSON, and no other report",
    kind: WordKind::Flag,
}];

const THREADS_WORDS: &[Word] = &[
    Word {
        name: "gear",
        value: "N",
        help: "How many gear there are, 1 to 128",
        kind: WordKind::Needed(Value::Number32),
    },
    Word {
        name: "seed",
        value: "S",
        help: "Where the random addresses come from: a seed always gives the same ones",
        kind: WordKind::Needed(Value::Number64),
    },
    Word {
        name: "turns",
        value: "T",
        help: "How many turns each controller may take, and how many the bus",
        kind: WordKind::Needed(Value::Number32),
    },
    Word {
        name: "survey",
        value: "",
        help: "Each controller begins by a survey: it first asks which gear have a short address",
        kind: WordKind::Flag,
    },
    Word {
        name: "json",
        value: "",
        help: "Writes the report as one line of JSON",
        kind: WordKind::Flag,
    },
    Word {
        name: "story",
        value: "",
        help: "Writes the story of the run instead of the report",
        kind: WordKind::Flag,
    },
    Word {
        name: "blocks",
        value: "BLOCK",
        help: "A controller each, 1 to 4: the first and the last address of its block, as 0-15",
        kind: WordKind::Places,
    },
];

/// The words that the program knows.
pub const PROGRAM: Program = Program {
    name: "dali_sim",
    about: "Short address commissioning of DALI control gear, simulated",
    long_about: None,
    after_help: AFTER_HELP,
    subcommands: &[
        Subcommand {
            name: "replay",
            about: "Reads a script of events from standard input and reports each",
            long_about: Some(REPLAY),
            after_help: Some(AFTER_REPLAY),
            words: REPLAY_WORDS,
        },
        Subcommand {
            name: "threads",
            about: "Runs controllers in threads of their own, and reports what became of the gear",
            long_about: Some(THREADS),
            after_help: Some(AFTER_THREADS),
            words: THREADS_WORDS,
        },
    ],
};

fn not_a_block(alloc: Global, word: &str) -> Result<(u8, u8), LineFault>
    ensures { IsErr result }
{
    Err(LineFault::Value(format!(in alloc;
        "invalid value '{word}' for '<BLOCK>...': a block is first-last, as 0-15, and addresses end at 63"
    )?))
}

/// A block that a word is, spelled as in the line `site` of a script.
fn block(alloc: Global, word: &str) -> Result<(u8, u8), LineFault>
    ensures { IfOk result (λ block. block_of word.now ≡ Some block) }
{
    match block_of(word.as_bytes()) {
        Some(block) => Ok(block),
        None => not_a_block(alloc, word),
    }
}

/// The blocks, one for each controller.
fn blocks(alloc: Global, line: &CommandLine) -> Result<ArrayVec<(u8, u8), 4>, LineFault>
    ensures { IfOk result (λ blocks. blocks_of (values_of (codes "blocks") line.now.values.items) ≡ Some blocks.items) }
{
    let mut blocks = ArrayVec::new();
    for (name, word) in line.values.iter() {
        if name.as_str() == "blocks" && blocks.try_push(block(alloc, word)?).is_err() {
            let limit = plan_limit(PlanError::ControllerCount);
            let message = format!(in alloc;
                "unexpected value '{word}' for '<BLOCK>...' found; no more were expected: {limit}"
            )?;
            return Err(LineFault::TooMany(message));
        }
    }
    Ok(blocks)
}

/// The number that an option has.
fn number<T: FromStr>(alloc: Global, line: &CommandLine, name: &str) -> Result<T, LineFault>
where
    T::Err: Drop,
    ensures { IfOk result (λ number. MatchOption (slice_get (values_of name.now line.now.values.items) 0) ⊥
        (λ value. T.from_str_gives value (Ok number))) }
{
    match line.number(name) {
        Some(number) => Ok(number),
        None => wrong_value(alloc, "a number is required"),
    }
}

/// What is to be run.
fn setup(alloc: Global, line: &CommandLine) -> Result<Setup, LineFault>
    ensures { IfOk result (IsSetup line.now.values.items) }
{
    Ok(Setup {
        gear: number(alloc, line, "gear")?,
        seed: number(alloc, line, "seed")?,
        turns: number(alloc, line, "turns")?,
        surveys: line.has("survey"),
        as_json: line.has("json"),
        as_story: line.has("story"),
        blocks: blocks(alloc, line)?,
    })
}

/// What is to be written of a script.
fn form(line: &CommandLine) -> Form
    ensures { IsForm line.now.values.items result }
{
    if line.has("json") {
        Form::Json
    } else {
        Form::Text
    }
}

/// What a line asks for.
pub fn task_of(alloc: Global, line: &CommandLine) -> Result<Task, LineFault>
    ensures { IfOk result (IsTask (string_bytes line.now.subcommand) line.now.values.items) }
{
    match line.subcommand.as_str() {
        "replay" => Ok(Task::Replay(form(line))),
        "threads" => Ok(Task::Threads(setup(alloc, line)?)),
        _ => no_task(alloc),
    }
}
