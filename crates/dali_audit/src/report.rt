//! What is told of a capture, as lines and as JSON.
#![tactic(auto, using(std::proofs::lemmas::List::append_assoc))]

ghost use Rattle.std.specs.Prelude.{◌≡◌, ◌++◌, OnOk, string_bytes};
ghost use Rattle.dali_audit.specs.Report.{finding_text, findings_text, holder_text, table_text, way_name, comma};
ghost use Rattle.dali_audit.specs.Report.{json_finding, json_findings, json_holder, json_table};

use crate::findings::Finding;
use crate::holders::{Holder, Table};
use std::alloc::AllocError;

fn push_finding(text: &mut String, finding: &Finding) -> Result<(), AllocError>
    ensures { OnOk result (string_bytes text.new ≡ string_bytes text.old ++ finding_text finding.now) }
{
    let at = finding.at;
    let name = finding.kind.name();
    write!(text, "{at} {name}\n")
}

/// A line for each finding: its time in µs, and its name.
pub fn push_findings(text: &mut String, findings: &[Finding]) -> Result<(), AllocError>
    ensures { OnOk result (string_bytes text.new ≡ string_bytes text.old ++ findings_text findings.now) }
{
    for finding in findings {
        push_finding(text, finding)?;
    }
    Ok(())
}

/// How the gear with a short address is known.
fn way_name(holder: &Holder) -> &'static str
    ensures { result.now ≡ way_name holder.now }
{
    match holder {
        Holder::Nobody => "unknown",
        Holder::Programmed(_) => "programmed",
        Holder::Somebody | Holder::Answered(_) => "answered",
        Holder::Verified(_) => "verified",
    }
}

fn push_holder(text: &mut String, number: usize, holder: &Holder) -> Result<(), AllocError>
    ensures { OnOk result (string_bytes text.new ≡ string_bytes text.old ++ holder_text number holder.now) }
{
    let way = way_name(holder);
    match holder {
        Holder::Nobody => Ok(()),
        Holder::Somebody => write!(text, "gear - short {number} {way}\n"),
        Holder::Programmed(random) | Holder::Answered(random) | Holder::Verified(random) => {
            write!(text, "gear {random} short {number} {way}\n")
        }
    }
}

/// A line for each short address that gear has, as far as the capture shows.
pub fn push_table(text: &mut String, table: &Table) -> Result<(), AllocError>
    ensures { OnOk result (string_bytes text.new ≡ string_bytes text.old ++ table_text 0 table.now) }
{
    for (number, holder) in table.holders().iter().enumerate() {
        push_holder(text, number, holder)?;
    }
    Ok(())
}

fn comma(number: usize) -> &'static str
    ensures { result.now ≡ comma number }
{
    if number == 0 { "" } else { "," }
}

fn push_json_finding(text: &mut String, number: usize, finding: &Finding) -> Result<(), AllocError>
    ensures { OnOk result (string_bytes text.new ≡ string_bytes text.old ++ json_finding number finding.now) }
{
    let comma = comma(number);
    let at = finding.at;
    let name = finding.kind.name();
    write!(text, "{comma}{{\"at\":{at},\"kind\":\"{name}\"}}")
}

/// An object for each finding, with commas between them.
pub fn push_json_findings(text: &mut String, findings: &[Finding]) -> Result<(), AllocError>
    ensures { OnOk result (string_bytes text.new ≡ string_bytes text.old ++ json_findings 0 findings.now) }
{
    for (number, finding) in findings.iter().enumerate() {
        push_json_finding(text, number, finding)?;
    }
    Ok(())
}

fn push_json_holder(text: &mut String, number: usize, holder: &Holder) -> Result<(), AllocError>
    ensures { OnOk result (string_bytes text.new ≡ string_bytes text.old ++ json_holder number holder.now) }
{
    let comma = comma(number);
    let way = way_name(holder);
    match holder.random() {
        None => write!(
            text,
            "{comma}{{\"short\":{number},\"random\":null,\"known\":\"{way}\"}}"
        ),
        Some(random) => write!(
            text,
            "{comma}{{\"short\":{number},\"random\":\"{random}\",\"known\":\"{way}\"}}"
        ),
    }
}

/// An object for each of the 64 short addresses, with commas between them.
pub fn push_json_table(text: &mut String, table: &Table) -> Result<(), AllocError>
    ensures { OnOk result (string_bytes text.new ≡ string_bytes text.old ++ json_table 0 table.now) }
{
    for (number, holder) in table.holders().iter().enumerate() {
        push_json_holder(text, number, holder)?;
    }
    Ok(())
}
