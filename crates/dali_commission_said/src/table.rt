//! The table of the gear that are enrolled, as text, CSV or JSON.

ghost use Rattle.std.specs.Prelude.{◌≡◌, ◌++◌, ◌<◌, length, OnOk, string_bytes};
ghost use Rattle.dali_commission_said.specs.Tables.{at_if, rows, head, separator, tail, row_text, rows_text};
ghost use Rattle.dali_commission_said.specs.Tables.{table_text};

use arrayvec::ArrayVec;
use dali_commission_tasks::TableForm;
use dali_commissioning::random_at;
use dali_frame::{Random24, Short};
use dali_script::Kept;
use std::alloc::AllocError;

fn add_if(rows: &mut ArrayVec<(Short, Random24), 64>, short: Short, random: Option<Random24>)
    requires { length rows.old.items < 64 }
    ensures { rows.new.items ≡ rows.old.items ++ at_if short random }
{
    if let Some(random) = random {
        rows.push((short, random));
    }
}

/// The gear that are enrolled, by their short addresses.
#[tactic(auto, using(crate::proofs::Rows::none, crate::proofs::Rows::one_more))]
pub(crate) fn rows(kept: &Kept) -> ArrayVec<(Short, Random24), 64>
    ensures { result.items ≡ rows kept.now.enrolled }
{
    let mut rows = ArrayVec::new();
    for number in 0..64u8 {
        let Some(short) = Short::of(number) else {
            // Each number of the loop is below 64.
            unreachable!();
        };
        add_if(&mut rows, short, random_at(kept.enrolled(), short));
    }
    rows
}

fn head(form: TableForm) -> &'static str
    ensures { result.now ≡ head form }
{
    match form {
        TableForm::Text => "",
        TableForm::Csv => "address,random\n",
        TableForm::Json => "[",
    }
}

fn separator(form: TableForm, is_first: bool) -> &'static str
    ensures { result.now ≡ separator form is_first }
{
    match form {
        TableForm::Text | TableForm::Csv => "",
        TableForm::Json => { if is_first { "\n" } else { ",\n" } }
    }
}

fn tail(form: TableForm) -> &'static str
    ensures { result.now ≡ tail form }
{
    match form {
        TableForm::Text | TableForm::Csv => "",
        TableForm::Json => "\n]\n",
    }
}

fn push_row(text: &mut String, form: TableForm, row: (Short, Random24)) -> Result<(), AllocError>
    ensures { OnOk result (string_bytes text.new ≡ string_bytes text.old ++ row_text form row) }
{
    let address = row.0.number();
    let random = row.1;
    match form {
        TableForm::Text => write!(text, "{address} {random}\n"),
        TableForm::Csv => write!(text, "{address},0x{random}\n"),
        TableForm::Json => write!(text, "{{\"address\":{address},\"random\":\"{random}\"}}"),
    }
}

#[tactic(auto, using(std::proofs::lemmas::List::append_assoc))]
fn push_rows(
    text: &mut String,
    form: TableForm,
    is_first: bool,
    rows: &[(Short, Random24)],
) -> Result<(), AllocError>
    ensures { OnOk result (string_bytes text.new ≡ string_bytes text.old ++ rows_text form is_first rows.now) }
{
    match rows {
        [] => Ok(()),
        [row, more @ ..] => {
            text.push_str(separator(form, is_first))?;
            push_row(text, form, *row)?;
            push_rows(text, form, false, more)
        }
    }
}

/// Adds the table of the gear that are enrolled, by their short addresses.
#[tactic(auto, using(std::proofs::lemmas::List::append_assoc))]
pub fn push_table(text: &mut String, form: TableForm, kept: &Kept) -> Result<(), AllocError>
    ensures { OnOk result (string_bytes text.new
        ≡ string_bytes text.old ++ table_text form kept.now.enrolled) }
{
    text.push_str(head(form))?;
    push_rows(text, form, true, &rows(kept))?;
    text.push_str(tail(form))
}
