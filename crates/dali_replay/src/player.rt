//! A bench or a site on which a script is played, line by line.

ghost use Rattle.std.specs.Prelude.{◌≡◌, IfOk, string_bytes};
ghost use Rattle.dali_grammar.specs.ReplayFault.{with_fault};
ghost use Rattle.dali_replay.specs.Player.{player_of, Takes};

use crate::bench::Bench;
use crate::bench_report::report_bench;
use crate::installation::Installation;
use crate::site_report::report_site;
use dali_grammar::{Place, Stop, bench_line_of, site_line_of};
use dali_world::{Event, Plan};
use std::alloc::{AllocError, Global};

/// What a script is played on: gear alone, or a site with controllers.
#[derive(Drop)]
pub enum Player {
    Bench(Bench),
    Site(Installation),
}

impl Player {
    /// A bench or a site of this plan, on which nothing was played yet.
    pub fn new(alloc: Global, is_bench: bool, plan: Plan) -> Result<Player, AllocError>
        ensures { IfOk result (λ player. player ≡ player_of is_bench plan) }
    {
        if is_bench {
            return Ok(Player::Bench(Bench::new(plan)));
        }
        Ok(Player::Site(Installation::new(alloc, plan)?))
    }

    /// Plays the line of this number, and appends the report of it. Answers the event that came of it on a bench, if
    /// one did; what came of it on a site stands in the log of the site.
    ///
    /// It stops at a line that has none of the forms, and for want of memory.
    pub fn play(
        &mut self,
        number: u32,
        line: &[u8],
        text: &mut String,
    ) -> Result<Option<Event>, Stop>
        ensures { Takes self.old number line.now (string_bytes text.old) self.new (string_bytes text.new)
            (with_fault result) }
    {
        match self {
            Player::Bench(bench) => {
                let asked = match bench_line_of(line) {
                    Ok(asked) => asked,
                    Err(wrong) => return Err(Stop::Line(number, Place::Bench, wrong)),
                };
                Ok(report_bench(text, bench, asked)?)
            }
            Player::Site(installation) => {
                let asked = match site_line_of(line) {
                    Ok(asked) => asked,
                    Err(wrong) => return Err(Stop::Line(number, Place::Site, wrong)),
                };
                report_site(text, installation, asked)?;
                Ok(None)
            }
        }
    }
}
