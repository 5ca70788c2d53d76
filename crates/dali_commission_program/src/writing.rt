//! What a task writes on standard output, where the driver reads: a table, or an object of JSON, and nothing else.

ghost use Rattle.std.specs.Prelude.{◌≡◌, IfOk, OnOk};
ghost use Rattle.dali_commission_program.specs.Object.{report_text};
ghost use Rattle.dali_commission_program.specs.Written.{text_of};
ghost use Rattle.dali_commission_said.specs.Tables.{table_text};

use crate::object::report_line;
use dali_commission_said::{Failure, REFUSED, Report, push_table};
use dali_commission_tasks::TableForm;
use dali_script::Kept;
use std::alloc::Global;

/// A text that may be written. No line of it is one to the driver.
#[derive(Drop)]
pub struct Text {
    text: String,
}

impl Text {
    /// The table of the gear that are enrolled.
    pub fn of_table(alloc: Global, form: TableForm, kept: &Kept) -> Result<Text, Failure>
        ensures { IfOk result (λ it. text_of it ≡ table_text form kept.now.enrolled) }
    {
        let mut text = String::new(alloc);
        push_table(&mut text, form, kept)?;
        Ok(Text { text })
    }

    /// What a task came to: how it ended and its exit status, and how many frames were put and how many gear
    /// enrolled. It also has the gear in the table, and the short addresses that need to be looked at.
    pub fn of_report(alloc: Global, report: &Report, end: &str, status: u8) -> Result<Text, Failure>
        ensures { IfOk result (λ it. text_of it ≡ report_text end.now status report.now) }
    {
        let text = report_line(alloc, report, end, status)?;
        Ok(Text { text })
    }
}

/// On what texts are written, and nothing else. Contracts see which were.
pub trait Writes {
    ghost use Rattle.std.specs.Prelude.{ℕ, List};
    ghost use Rattle.dali_commission_program.specs.Written.{text_of};

    ghost wrote: { Self → List ℕ → Type 0 };

    /// Writes a text on standard output.
    fn write(&self, text: &Text) -> Result<(), Failure>
        ensures { OnOk result (wrote self.now (text_of text.now)) };
}

impl<S: Print> Writes for S {
    ghost use Rattle.dali_commission_program.specs.Written.{IsWritten};

    ghost wrote = { IsWritten };

    #[tactic(auto, unfolding(crate::specs::Written::IsWritten))]
    fn write(&self, text: &Text) -> Result<(), Failure> {
        self.write_all(text.text.as_bytes()).map_err(|_| REFUSED)
    }
}
