//! Why a run ended at a bad line or a refused plan: which word, what is wrong with it, and the form that is wanted.

ghost use Rattle.std.specs.Prelude.{◌≡◌, None, IfSome};
ghost use Rattle.dali_grammar.specs.Reason.{Quotes, Gives, IsOfLine};
ghost use Rattle.dali_grammar.specs.ReplayFault.{fault_of};

mod clue;
mod excerpt;
mod forms;
mod line;
mod mistake;
mod names;
mod quote;
mod words;

use crate::fault::{ReplayFault, Stop};
use crate::words::Wrong;
pub use clue::{Clue, Spot};
use dali_console::Failed;
use dali_events::PlanError;
pub use excerpt::Excerpt;
pub use forms::{Hint, LineForm, Place};
use line::line_mistake;
pub use mistake::{Mistake, plan_limit};
pub use quote::Quote;
use quote::{part_at, quoted, quoted_at};
use std::fmt;

/// Why a line is bad, or a plan refused.
#[derive(Clone, Copy)]
pub struct Reason {
    pub mistake: Mistake,
    /// The word that it is said of; `None` if it is a line or a word that is missing, or spaces.
    pub word: Option<Quote>,
    /// Another word that does not go with it.
    pub beside: Option<Quote>,
    pub hint: Hint,
}

impl fmt::Display for Reason {
    fn fmt<W: fmt::Write>(&self, f: &mut fmt::Formatter<W>) -> fmt::Result {
        if let Some(word) = &self.word {
            if self.mistake.is_of_name() {
                write!(f, "`{}` ", word.excerpt)?;
            } else {
                write!(f, "{word}: ")?;
            }
        }
        f.write_str(self.mistake.text())?;
        if let Some(beside) = &self.beside {
            write!(f, "; see line {}, {beside}", beside.line)?;
        }
        fmt::Display::fmt(&self.hint, f)
    }
}

/// Why this line is bad, of which this word is wrong.
fn line_reason(input: &[u8], number: u32, place: Place, wrong: Wrong) -> Reason
    ensures word { IfSome result.word (Quotes input.now) }
    ensures line { IfSome result.word (λ quote. quote.line ≡ number) }
    ensures beside { result.beside ≡ None }
{
    let line = match part_at(input, b'\n', number.saturating_sub(1) as usize) {
        Some(line) => line,
        None => &[],
    };
    let ((mistake, word), hint) = line_mistake(place, line, wrong);
    Reason {
        mistake,
        word: quoted(input, number, word),
        beside: None,
        hint,
    }
}

/// Why this plan is refused; no word is named if there is no clue.
fn plan_reason(input: &[u8], error: PlanError, clue: Option<Clue>) -> Reason
    ensures word { IfSome result.word (Quotes input.now) }
    ensures beside { IfSome result.beside (Quotes input.now) }
{
    let Some(clue) = clue else {
        return Reason {
            mistake: Mistake::Plan(error),
            word: None,
            beside: None,
            hint: Hint::Nothing,
        };
    };
    let beside = match clue.beside {
        Some(spot) => quoted_at(input, spot),
        None => None,
    };
    Reason {
        mistake: clue.mistake.unwrap_or(Mistake::Plan(error)),
        word: quoted_at(input, clue.at),
        beside,
        hint: Hint::Nothing,
    }
}

/// Why a run ended before the end of its input.
#[derive(Clone, Copy)]
pub struct Explained {
    pub fault: ReplayFault,
    /// Why a line is bad, or a plan refused.
    pub reason: Option<Reason>,
}

impl Explained {
    /// What stopped a run over this input.
    pub fn of(input: &[u8], stop: Stop) -> Explained
        ensures fault { result.fault ≡ fault_of stop }
        // A reason is given of each bad line and each refused plan.
        ensures given { Gives result.fault result.reason }
        // A word that is named stands there.
        ensures word { IfSome result.reason (λ reason. IfSome reason.word (Quotes input.now)) }
        ensures beside { IfSome result.reason (λ reason. IfSome reason.beside (Quotes input.now)) }
        // Of a bad line a word of that line is named.
        ensures line { IfSome result.reason (λ reason. IfSome reason.word (IsOfLine result.fault)) }
    {
        let reason = match stop {
            Stop::Line(number, place, wrong) => Some(line_reason(input, number, place, wrong)),
            Stop::Plan(error, clue) => Some(plan_reason(input, error, clue)),
            Stop::Memory | Stop::Read | Stop::Write => None,
        };
        Explained {
            fault: stop.fault(),
            reason,
        }
    }

    /// A fault that is none of the script.
    pub fn without_reason(fault: ReplayFault) -> Explained
        ensures fault { result.fault ≡ fault }
        ensures reason { result.reason ≡ None }
    {
        Explained {
            fault,
            reason: None,
        }
    }
}

impl Failed for Explained {
    ghost use Rattle.dali_grammar.specs.ReplayFault.{status_of};

    ghost status_of = { λ e. status_of e.fault };

    fn status(&self) -> u8 {
        self.fault.status()
    }
}

impl fmt::Display for Explained {
    fn fmt<W: fmt::Write>(&self, f: &mut fmt::Formatter<W>) -> fmt::Result {
        fmt::Display::fmt(&self.fault, f)?;
        let Some(reason) = &self.reason else {
            return Ok(());
        };
        f.write_str(": ")?;
        if let (ReplayFault::BadPlan(_), Some(word)) = (&self.fault, &reason.word) {
            write!(f, "line {}, ", word.line)?;
        }
        fmt::Display::fmt(reason, f)
    }
}
