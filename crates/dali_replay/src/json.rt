//! The state of all gear and the tables as JSON: what `show` writes for other programs.
#![tactic(auto, using(std::proofs::lemmas::List::append_assoc))]

ghost use Rattle.std.specs.Prelude.{◌≡◌, ◌++◌, OnOk, length, string_bytes};
ghost use Rattle.dali_world.specs.Site.{world};
ghost use Rattle.dali_replay.specs.Json.{comma, json_short, json_condition, json_addresses, json_gear, json_row};
ghost use Rattle.dali_replay.specs.Json.{json_gear_before, json_entry, json_entries, json_table, json_table_at};
ghost use Rattle.dali_replay.specs.Json.{json_tables};
ghost use Rattle.dali_replay.specs.Json.{json_state, json_line};

use crate::installation::Installation;
use crate::player::Player;
use crate::text::{power_name, state_name};
use dali_frame::Short;
use dali_gear::{Gear, Row};
use dali_script::Pair;
use dali_world::SiteState;
use std::alloc::AllocError;

/// A comma, but before the first item.
pub fn push_comma(text: &mut String, number: usize) -> Result<(), AllocError>
    ensures { OnOk result (string_bytes text.new ≡ string_bytes text.old ++ comma number) }
{
    if number == 0 {
        return Ok(());
    }
    text.push_str(",")
}

fn push_short(text: &mut String, short: Option<Short>) -> Result<(), AllocError>
    ensures { OnOk result (string_bytes text.new ≡ string_bytes text.old ++ json_short short) }
{
    match short {
        None => text.push_str("null"),
        Some(short) => {
            let number = short.number();
            write!(text, "{number}")
        }
    }
}

/// The number, the power and the initialisation state of a gear: the begin of its object.
pub fn push_condition(text: &mut String, number: usize, gear: &Gear) -> Result<(), AllocError>
    ensures { OnOk result (string_bytes text.new ≡ string_bytes text.old ++ json_condition number gear.now) }
{
    let power = power_name(gear.is_powered());
    let state = state_name(gear.state());
    write!(
        text,
        "{{\"gear\":{number},\"power\":\"{power}\",\"state\":\"{state}\""
    )
}

/// The addresses of a gear: the rest of its object.
pub fn push_addresses(text: &mut String, gear: &Gear) -> Result<(), AllocError>
    ensures { OnOk result (string_bytes text.new ≡ string_bytes text.old ++ json_addresses gear.now) }
{
    let random = gear.random();
    let search = gear.search().value();
    write!(
        text,
        ",\"random\":\"{random}\",\"search\":\"{search}\",\"short\":"
    )?;
    push_short(text, gear.short())?;
    text.push_str("}")?;
    Ok(())
}

/// The state of one gear, behind a comma if it is not the first.
fn push_gear(text: &mut String, number: usize, gear: &Gear) -> Result<(), AllocError>
    ensures { OnOk result (string_bytes text.new ≡ string_bytes text.old ++ json_gear number gear.now) }
{
    push_comma(text, number)?;
    push_condition(text, number, gear)?;
    push_addresses(text, gear)
}

/// The states of a row of gear, with commas between them.
pub fn push_row(text: &mut String, row: &Row) -> Result<(), AllocError>
    ensures { OnOk result (string_bytes text.new ≡ string_bytes text.old ++ json_row 0 row.now) }
{
    for number in 0..row.len() {
        let gear = row.gear(number);
        push_gear(text, number, &gear)?;
    }
    Ok(())
}

/// The states of all gear of a site, in order of their numbers, with commas between them.
pub fn push_json_gear(text: &mut String, site: &SiteState) -> Result<(), AllocError>
    ensures { OnOk result (string_bytes text.new ≡ string_bytes text.old
        ++ json_gear_before (world site.now) site.now.plan.gear) }
{
    for number in 0..site.plan().gear() {
        let gear = site.gear(number);
        push_gear(text, number as usize, &gear)?;
    }
    Ok(())
}

/// An entry of a table, behind a comma if it is not the first.
fn push_entry(text: &mut String, number: usize, entry: Pair) -> Result<(), AllocError>
    ensures { OnOk result (string_bytes text.new ≡ string_bytes text.old ++ json_entry number entry) }
{
    let short = entry.address();
    let random = entry.random();
    push_comma(text, number)?;
    write!(text, "{{\"short\":{short},\"random\":\"{random}\"}}")
}

/// The entries of a table, with commas between them.
fn push_entries(text: &mut String, entries: &[Pair]) -> Result<(), AllocError>
    ensures { OnOk result (string_bytes text.new ≡ string_bytes text.old ++ json_entries 0 entries.now) }
{
    for number in 0..entries.len() {
        push_entry(text, number, entries[number])?;
    }
    Ok(())
}

/// A controller's table.
pub fn push_json_table(text: &mut String, c: u8, entries: &[Pair]) -> Result<(), AllocError>
    ensures { OnOk result (string_bytes text.new ≡ string_bytes text.old ++ json_table c entries.now) }
{
    write!(text, "{{\"controller\":{c},\"entries\":[")?;
    push_entries(text, entries)?;
    text.push_str("]}")?;
    Ok(())
}

/// A controller's table, behind a comma if it is not the first.
fn push_table_at(text: &mut String, c: u8, entries: &[Pair]) -> Result<(), AllocError>
    ensures { OnOk result (string_bytes text.new ≡ string_bytes text.old ++ json_table_at c entries.now) }
{
    push_comma(text, c as usize)?;
    push_json_table(text, c, entries)
}

/// The tables of all controllers, in order of their numbers, with commas between them.
fn push_tables(text: &mut String, installation: &Installation) -> Result<(), AllocError>
    ensures { OnOk result (string_bytes text.new ≡ string_bytes text.old
        ++ json_tables (world installation.now.site) (length installation.now.site.plan.blocks)) }
{
    for c in 0..installation.controllers() {
        push_table_at(text, c, installation.enrolled(c))?;
    }
    Ok(())
}

/// The gear and the tables. A bench has no tables.
pub(crate) fn push_state(text: &mut String, player: &Player) -> Result<(), AllocError>
    ensures { OnOk result (string_bytes text.new ≡ string_bytes text.old ++ json_state player.now) }
{
    match player {
        Player::Bench(bench) => {
            push_row(text, bench.gear())?;
            text.push_str("],\"tables\":[")
        }
        Player::Site(installation) => {
            push_json_gear(text, installation.site())?;
            text.push_str("],\"tables\":[")?;
            push_tables(text, installation)?;
            Ok(())
        }
    }
}

/// What a `show` shows, as one line: the number of the line in the script, the gear and the tables.
pub fn push_shown(text: &mut String, number: u32, player: &Player) -> Result<(), AllocError>
    ensures { OnOk result (string_bytes text.new ≡ string_bytes text.old ++ json_line number player.now) }
{
    write!(text, "{{\"line\":{number},\"gear\":[")?;
    push_state(text, player)?;
    text.push_str("]}\n")?;
    Ok(())
}
