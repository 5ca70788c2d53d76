//! What a task came to, as one object of JSON on a line.

ghost use Rattle.std.specs.Prelude.{◌≡◌, ◌∷◌, ◌++◌, ◌+◌, ◌≤◌, [], IfOk, OnOk, flat_map, length, option_map};
ghost use Rattle.std.specs.Prelude.{string_bytes};
ghost use Rattle.json.specs.Lex.{tokens};
ghost use Rattle.json.specs.Print.{print};
ghost use Rattle.json.specs.Token.{begin_object, end_object};
ghost use Rattle.dali_commission_program.specs.Object.{IsPut, value_token, member_tokens, begin_list, entries};
ghost use Rattle.dali_commission_program.specs.Object.{gear_tokens, number_tokens, missing_tokens, oddity};
ghost use Rattle.dali_commission_program.specs.Object.{strangers_tokens, head_tokens, list_tokens, report_tokens};
ghost use Rattle.dali_commission_program.specs.Object.{report_text};

use dali_commission_said::{Report, Row};
use dali_commissioning::Place;
use dali_frame::Random24;
use json::Writer;
use std::alloc::{AllocError, Global};

/// The value of a member.
#[derive(Clone, Copy)]
enum Value<'a> {
    Text(&'a str),
    Number(u64),
    /// Null, if there is none.
    Random(Option<Random24>),
    /// Null, if it is not known.
    Truth(Option<bool>),
}

fn put_value(alloc: Global, out: &mut Writer, value: &Value) -> Result<(), AllocError>
    ensures { OnOk result (IsPut out.old out.new (value_token value.now ∷ [])) }
{
    match value {
        Value::Text(text) => out.string(text),
        Value::Number(number) => out.u64(*number),
        Value::Random(Some(random)) => out.string(&format!(in alloc; "{random}")?),
        Value::Truth(Some(is)) => out.boolean(*is),
        Value::Random(None) | Value::Truth(None) => out.null(),
    }
}

/// Members of an object, in order.
#[tactic(auto, using(std::proofs::lemmas::List::append_assoc))]
fn put(alloc: Global, out: &mut Writer, members: &[(&str, Value)]) -> Result<(), AllocError>
    ensures { OnOk result (IsPut out.old out.new (flat_map member_tokens members.now)) }
{
    let [(name, value), more @ ..] = members else {
        return Ok(());
    };
    out.key(name)?;
    put_value(alloc, out, value)?;
    put(alloc, out, more)
}

/// An object with these members.
#[tactic(auto, using(std::proofs::lemmas::List::append_assoc))]
fn put_object(alloc: Global, out: &mut Writer, members: &[(&str, Value)]) -> Result<(), AllocError>
    ensures { OnOk result (IsPut out.old out.new
        (begin_object ∷ (flat_map member_tokens members.now ++ end_object ∷ []))) }
{
    out.begin_object()?;
    put(alloc, out, members)?;
    out.end_object()
}

/// The beginning of a member that is a list.
#[tactic(auto, unfolding(crate::specs::Object::begin_list))]
fn begin_list(out: &mut Writer, name: &str) -> Result<(), AllocError>
    ensures { OnOk result (IsPut out.old out.new (begin_list name.now)) }
{
    out.key(name)?;
    out.begin_array()
}

#[tactic(auto, unfolding(crate::specs::Object::gear_tokens))]
fn put_row(alloc: Global, out: &mut Writer, row: Row) -> Result<(), AllocError>
    ensures { OnOk result (IsPut out.old out.new (gear_tokens row)) }
{
    let (address, random, is_own) = row;
    let gear = [
        ("address", Value::Number(address as u64)),
        ("random", Value::Random(Some(random))),
        ("given", Value::Truth(Some(is_own))),
    ];
    put_object(alloc, out, &gear)
}

/// The gear in the table, and the end of their list.
#[tactic(auto, using(std::proofs::lemmas::List::append_assoc))]
fn put_rows(alloc: Global, out: &mut Writer, rows: &[Row]) -> Result<(), AllocError>
    ensures { OnOk result (IsPut out.old out.new (entries gear_tokens rows.now)) }
{
    let [row, more @ ..] = rows else {
        return out.end_array();
    };
    put_row(alloc, out, *row)?;
    put_rows(alloc, out, more)
}

/// The short addresses that were left alone, and the end of their list.
#[tactic(auto, using(std::proofs::lemmas::List::append_assoc))]
fn put_numbers(out: &mut Writer, numbers: &[u8]) -> Result<(), AllocError>
    ensures { OnOk result (IsPut out.old out.new (entries number_tokens numbers.now)) }
{
    let [number, more @ ..] = numbers else {
        return out.end_array();
    };
    out.u64(*number as u64)?;
    put_numbers(out, more)
}

/// The short addresses whose gear are missing, from this one on, and the end of their list.
#[tactic(auto, using(std::proofs::lemmas::List::append_assoc))]
fn put_missing(out: &mut Writer, number: u8, places: &[Place]) -> Result<(), AllocError>
    requires { number + length places.now ≤ 64 }
    ensures { OnOk result (IsPut out.old out.new (missing_tokens number places.now)) }
{
    let [place, more @ ..] = places else {
        return out.end_array();
    };
    if let Place::Missing(_) = place {
        out.u64(number as u64)?;
    }
    put_missing(out, number + 1, more)
}

/// Why what stands under a short address is not as recorded, and the random address that was heard there; None if it
/// is, or if no gear answers.
fn oddity(place: Place) -> Option<(&'static str, Option<Random24>)>
    ensures { option_map (λ it. (it.0.now, it.1)) result ≡ oddity place }
{
    match place {
        Place::NotAsked | Place::Nobody | Place::There(_) | Place::Missing(_) => None,
        Place::Another(_, heard) => Some(("another", Some(heard))),
        Place::Several(_) => Some(("several", None)),
        Place::Unclear(_) => Some(("unclear", None)),
        Place::Unfinished(random) => Some(("unfinished", Some(random))),
        Place::Stranger(heard) => Some(("stranger", Some(heard))),
        Place::Strangers => Some(("strangers", None)),
        Place::Garbled | Place::Noise => Some(("unclear-strangers", None)),
    }
}

/// The gear that answer otherwise than is recorded, from this short address on, and the end of their list: strangers,
/// and those that answer in place of a gear of the table.
#[tactic(auto, using(std::proofs::lemmas::List::append_assoc))]
fn put_strangers(
    alloc: Global,
    out: &mut Writer,
    number: u8,
    places: &[Place],
) -> Result<(), AllocError>
    requires { number + length places.now ≤ 64 }
    ensures { OnOk result (IsPut out.old out.new (strangers_tokens number places.now)) }
{
    let [place, more @ ..] = places else {
        return out.end_array();
    };
    if let Some((is, random)) = oddity(*place) {
        let gear = [
            ("address", Value::Number(number as u64)),
            ("is", Value::Text(is)),
            ("random", Value::Random(random)),
        ];
        put_object(alloc, out, &gear)?;
    }
    put_strangers(alloc, out, number + 1, more)
}

/// How the task ended, and what it did.
#[tactic(auto, unfolding(crate::specs::Object::head_tokens))]
fn put_head(
    alloc: Global,
    out: &mut Writer,
    report: &Report,
    end: &str,
    status: u8,
) -> Result<(), AllocError>
    ensures { OnOk result (IsPut out.old out.new (head_tokens end.now status report.now)) }
{
    let members = [
        ("end", Value::Text(end)),
        ("status", Value::Number(status as u64)),
        ("frames", Value::Number(report.frames)),
        ("enrolled", Value::Number(report.enrolled as u64)),
    ];
    put(alloc, out, &members)
}

/// The gear in the table, and the short addresses that need to be looked at.
fn put_lists(alloc: Global, out: &mut Writer, report: &Report) -> Result<(), AllocError>
    ensures { OnOk result (IsPut out.old out.new (list_tokens report.now)) }
{
    begin_list(out, "table")?;
    put_rows(alloc, out, &report.table)?;
    begin_list(out, "left_alone")?;
    put_numbers(out, &report.left_alone)?;
    begin_list(out, "missing")?;
    put_missing(out, 0, &report.places)?;
    begin_list(out, "strangers")?;
    put_strangers(alloc, out, 0, &report.places)?;
    put(
        alloc,
        out,
        &[("unaddressed", Value::Truth(report.has_unaddressed))],
    )
}

#[tactic(auto, using(std::proofs::lemmas::List::append_assoc), unfolding(crate::specs::Object::report_tokens))]
fn put_report(
    alloc: Global,
    out: &mut Writer,
    report: &Report,
    end: &str,
    status: u8,
) -> Result<(), AllocError>
    ensures { OnOk result (IsPut out.old out.new (report_tokens end.now status report.now)) }
{
    out.begin_object()?;
    put_head(alloc, out, report, end, status)?;
    put_lists(alloc, out, report)?;
    out.end_object()
}

/// What a task came to, on a line.
pub(crate) fn report_line(
    alloc: Global,
    report: &Report,
    end: &str,
    status: u8,
) -> Result<String, AllocError>
    ensures line { IfOk result (λ text. string_bytes text ≡ report_text end.now status report.now) }
    ensures reads_back { OnOk result (let object = report_tokens end.now status report.now in
        tokens (print object) ≡ object) }
{
    let mut out = Writer::new(Vec::new(alloc));
    put_report(alloc, &mut out, report, end, status)?;
    let Ok(mut text) = String::from_utf8(out.into_inner()) else {
        // What a writer has written is UTF-8.
        unreachable!();
    };
    text.push_str("\n")?;
    Ok(text)
}
