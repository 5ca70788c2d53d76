//! The story of a site that threads ran: a head, the events of its log, and an end.
#![tactic(auto, using(std::proofs::lemmas::List::append_assoc))]

ghost use Rattle.std.specs.Prelude.{◌≡◌, ◌++◌, IfOk, OnOk, string_bytes};
ghost use Rattle.dali_story.specs.Site.{threads_head, state_text, story_of_site};

use crate::members::{push_name, push_number, push_row_of};
use crate::story::push_end;
use crate::teller::Teller;
use dali_gear::Row;
use dali_replay::push_json_gear;
use dali_world::SiteState;
use std::alloc::{AllocError, Global};

/// The head, with the gear as they are at first.
#[tactic(auto, unfolding(crate::specs::Site::threads_head))]
fn push_threads_head(text: &mut String, controllers: u8, row: &Row) -> Result<(), AllocError>
    ensures { OnOk result (string_bytes text.new ≡ string_bytes text.old ++ threads_head controllers row.now) }
{
    text.push_str("{\"story\":1")?;
    push_name(text, "source", "threads")?;
    push_number(text, "controllers", u64::from(controllers))?;
    push_row_of(text, "gear", row)?;
    text.push_str("}\n")
}

/// The state at the end: the gear, and these tables.
fn push_state(text: &mut String, site: &SiteState, tables: &str) -> Result<(), AllocError>
    ensures { OnOk result (string_bytes text.new ≡ string_bytes text.old ++ state_text site.now tables.now) }
{
    push_json_gear(text, site)?;
    text.push_str("],\"tables\":[")?;
    text.push_str(tables)?;
    Ok(())
}

/// The story of a site that threads ran, with these tables: items of a list of JSON.
pub fn story_of_site(alloc: Global, site: &SiteState, tables: &str) -> Result<String, AllocError>
    ensures { IfOk result (λ story. string_bytes story ≡ story_of_site site.now tables.now) }
{
    let mut state = String::new(alloc);
    push_state(&mut state, site, tables)?;
    let plan = site.plan();
    let controllers = plan.blocks().len() as u8;
    let mut teller = Teller::new(plan.gear() as usize, plan.used(), plan.draws());
    let mut text = String::new(alloc);
    push_threads_head(&mut text, controllers, teller.row())?;
    teller.tell_all(&mut text, site.log())?;
    push_end(
        &mut text,
        controllers,
        site.log(),
        teller.counts(),
        state.as_str(),
    )?;
    Ok(text)
}
