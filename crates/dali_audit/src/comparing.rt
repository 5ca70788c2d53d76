//! A bench of gear takes the frames of a capture: where the first answer is none that they may have given.

ghost use Rattle.std.specs.Prelude.{◌≡◌, ◌<◌, ◌≤◌, [], length, All, false};
ghost use Rattle.dali_frame.specs.Random.{MASK24};
ghost use Rattle.dali_audit.specs.Comparing.{agrees, fits, is_possible, lacks, needed, differs, moved, compared};
ghost use Rattle.dali_audit.specs.Comparing.{is_frame};
ghost use Rattle.dali_audit.specs.declared.comparing.Move.TheVariants.{Frame};

use dali_frame::{Answer, Forward, Random24};
use dali_gear::{Reach, Row};
use dali_special::Command;

/// What happens on a bench.
#[derive(Clone, Copy)]
pub enum Move {
    /// A gear has power again.
    On(u8),
    /// A gear loses its power, or is not known any more.
    Off(u8),
    /// The initialisation of a gear is over.
    Expire(u8),
    /// Half pairs are forgotten.
    Quiet,
    /// All gear that have power take a frame. What was heard after it is compared with what they answer, if it is a
    /// question of the command table.
    Frame(Forward, Option<Answer>),
}

/// A move, and its time in the capture in µs.
#[derive(Clone, Copy)]
pub struct Step {
    pub at: u64,
    pub what: Move,
}

/// What came of a bench that took the frames of a capture.
#[derive(Clone, Copy, Debug, PartialEq, Eq)]
pub enum Outcome {
    /// Whatever was heard, the gear may have answered.
    Agrees,
    /// The step of this number is the first at which something was heard that they did not answer.
    Differs(usize),
    /// The step of this number would make them draw more numbers than are left.
    Spent(usize),
}

/// What came of one move.
#[derive(Clone, Copy)]
struct Taken {
    drawn: usize,
    differs: bool,
}

/// Whether a gear may answer this byte to a question: YES is `FF`.
fn is_possible(command: &Command, byte: u8) -> bool
    ensures { result ≡ is_possible command.now byte }
{
    match command {
        Command::Compare | Command::Verify(_) => byte == 0xFF,
        Command::QueryShort
        | Command::RandomByte(..)
        | Command::Terminate
        | Command::Initialise(_)
        | Command::Randomise
        | Command::Withdraw
        | Command::SearchHigh(_)
        | Command::SearchMiddle(_)
        | Command::SearchLow(_)
        | Command::Program(_)
        | Command::Arc(_)
        | Command::Other(_) => true,
    }
}

/// Whether a byte that was heard is what the gear answer.
fn fits(byte: u8, given: Answer) -> bool
    ensures { result ≡ fits byte given }
{
    match given {
        Answer::Byte(own) => own == byte,
        Answer::Silence | Answer::Damaged => true,
    }
}

/// Whether the gear may have answered what was heard, by what those that are known answer.
fn agrees(command: &Command, heard: Answer, given: Answer) -> bool
    ensures { result ≡ agrees command.now heard given }
{
    match heard {
        Answer::Silence => given == Answer::Silence,
        Answer::Damaged => true,
        Answer::Byte(byte) => is_possible(command, byte) && fits(byte, given),
    }
}

/// Whether a move would make gear draw more numbers than are left.
fn lacks(row: &Row, step: &Move, left: &[Random24]) -> bool
    ensures { result ≡ lacks step.now left.now row.now }
{
    match step {
        Move::Frame(frame, _) => {
            left.len() < row.draws_needed(&Command::read(*frame), Reach::Everyone)
        }
        Move::On(_) | Move::Off(_) | Move::Expire(_) | Move::Quiet => false,
    }
}

/// The gear take a frame.
fn take_frame(row: &mut Row, frame: Forward, heard: Option<Answer>, left: &[Random24]) -> Taken
    requires enough { lacks (Frame frame heard) left.now row.old ≡ false }
    requires below_mask { All (λ r. r < MASK24) left.now }
    ensures row { row.new ≡ moved (Frame frame heard) left.now row.old }
    ensures drawn { result.drawn ≡ needed (Frame frame heard) row.old }
    ensures there { result.drawn ≤ length left.now }
    ensures differs { result.differs ≡ differs (Frame frame heard) row.old }
{
    let command = Command::read(frame);
    let given = row.take(&command, Reach::Everyone, left);
    let differs = match heard {
        Some(answer) => !agrees(&command, answer, given.answer),
        None => false,
    };
    Taken {
        drawn: given.drawn,
        differs,
    }
}

/// The gear after a move that is no frame.
fn set_gear(row: &mut Row, step: &Move)
    requires { is_frame step.now ≡ false }
    ensures { row.new ≡ moved step.now [] row.old }
{
    match step {
        Move::On(gear) => {
            if usize::from(*gear) < row.len() {
                row.power_on(usize::from(*gear));
            }
        }
        Move::Off(gear) => {
            if usize::from(*gear) < row.len() {
                row.power_off(usize::from(*gear));
            }
        }
        Move::Expire(gear) => {
            if usize::from(*gear) < row.len() {
                row.expire(usize::from(*gear));
            }
        }
        Move::Quiet => row.quiet(),
        Move::Frame(..) => {}
    }
}

/// The gear after a move.
fn take(row: &mut Row, step: &Move, left: &[Random24]) -> Taken
    requires enough { lacks step.now left.now row.old ≡ false }
    requires below_mask { All (λ r. r < MASK24) left.now }
    ensures row { row.new ≡ moved step.now left.now row.old }
    ensures drawn { result.drawn ≡ needed step.now row.old }
    ensures there { result.drawn ≤ length left.now }
    ensures differs { result.differs ≡ differs step.now row.old }
{
    match step {
        Move::Frame(frame, heard) => take_frame(row, *frame, *heard, left),
        Move::On(_) | Move::Off(_) | Move::Expire(_) | Move::Quiet => {
            set_gear(row, step);
            Taken {
                drawn: 0,
                differs: false,
            }
        }
    }
}

/// The gear take a move, if there are enough numbers to draw. Answers how many they drew.
pub(crate) fn play(row: &mut Row, step: &Move, left: &[Random24]) -> usize
    requires { All (λ r. r < MASK24) left.now }
{
    if lacks(row, step, left) {
        return 0;
    }
    take(row, step, left).drawn
}

/// The first step at which something was heard that the gear did not answer. Those that draw take the numbers in order,
/// each of which is below `FFFFFF`.
pub fn compare(row: &mut Row, steps: &[Step], draws: &[Random24]) -> Outcome
    requires { All (λ r. r < MASK24) draws.now }
    ensures { result ≡ compared 0 steps.now draws.now row.old }
{
    let mut left = draws;
    for at in 0..steps.len() {
        let step = steps[at].what;
        if lacks(row, &step, left) {
            return Outcome::Spent(at);
        }
        let taken = take(row, &step, left);
        if taken.differs {
            return Outcome::Differs(at);
        }
        left = &left[taken.drawn..];
    }
    Outcome::Agrees
}
