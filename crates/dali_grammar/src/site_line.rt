//! What a line asks for on a site.

ghost use Rattle.std.specs.Prelude.{◌≡◌, option_map};
ghost use Rattle.std.specs.Result.{result_ok};
ghost use Rattle.dali_grammar.specs.Lines.{words_of, parts_after};
ghost use Rattle.dali_grammar.specs.GearLine.{gear_line};
ghost use Rattle.dali_grammar.specs.SiteLine.{controller_line, site_line, site_line_of};

use crate::lines::cut;
use crate::words::{Wanted, Wrong, ended, frame, is_name, number, number_and_frame, trouble};
use dali_events::{Outside, Trouble};
use dali_frame::Forward;

/// A line of a site, after the two of its plan. Controllers and gear are named by their numbers, from 0.
#[derive(Clone, Copy)]
pub enum SiteLine {
    /// `go c`: controller c acts on what is due; if that is its store, the commit is made first.
    Go(u32),
    /// `store c`: the record that c ordered is committed in its store, and c is not told.
    Store(u32),
    /// `survey c`: controller c, for which its start is due, begins by a survey.
    Survey(u32),
    /// `fail c`: c is told that its commit failed, and none is made.
    Fail(u32),
    /// `pump ..`: the request that is next comes on the bus, and a trouble may disturb it.
    Pump(Trouble),
    /// `lapse`: the owner loses the bus.
    Lapse,
    /// `arc c HHHH`: c asks to send a frame of direct arc power.
    Arc(u32, Forward),
    /// `down c`: controller c goes down.
    Down(u32),
    /// `up c`: c comes up with the records of its store.
    Up(u32),
    /// `run n`: up to n rounds, in each of which every controller goes that has something due, and then the bus.
    Run(u32),
    /// `foreign HHHH`, `off g`, `on g`, `expire g` and `quiet`: something happens from outside.
    Outside(Outside),
    /// `show`: the state of all gear, and the tables of all controllers.
    Show,
}

/// A line of a controller alone.
fn controller_line(name: &[u8], rest: Option<&[u8]>) -> Result<SiteLine, Wrong>
    ensures { result_ok result
        ≡ controller_line name.now (parts_after 32 (option_map (λ rest. rest.now) rest.entry)) }
{
    if is_name(name, b"go") {
        Ok(SiteLine::Go(number(rest)?))
    } else if is_name(name, b"survey") {
        Ok(SiteLine::Survey(number(rest)?))
    } else if is_name(name, b"store") {
        Ok(SiteLine::Store(number(rest)?))
    } else if is_name(name, b"fail") {
        Ok(SiteLine::Fail(number(rest)?))
    } else if is_name(name, b"down") {
        Ok(SiteLine::Down(number(rest)?))
    } else if is_name(name, b"up") {
        Ok(SiteLine::Up(number(rest)?))
    } else {
        Err(Wrong::at(1, Wanted::Name))
    }
}

/// A line that benches have too, or one of a controller alone.
fn gear_line(name: &[u8], rest: Option<&[u8]>) -> Result<SiteLine, Wrong>
    ensures { result_ok result ≡ gear_line (λ on g. SiteLine.Outside (Outside.Power g on))
        (λ g. SiteLine.Outside (Outside.Expire g)) (SiteLine.Outside Outside.Quiet) SiteLine.Show name.now
        (parts_after 32 (option_map (λ rest. rest.now) rest.entry))
        (controller_line name.now (parts_after 32 (option_map (λ rest. rest.now) rest.entry))) }
{
    if is_name(name, b"off") {
        Ok(SiteLine::Outside(Outside::Power(number(rest)?, false)))
    } else if is_name(name, b"on") {
        Ok(SiteLine::Outside(Outside::Power(number(rest)?, true)))
    } else if is_name(name, b"expire") {
        Ok(SiteLine::Outside(Outside::Expire(number(rest)?)))
    } else if is_name(name, b"quiet") {
        ended(SiteLine::Outside(Outside::Quiet), rest, 2)
    } else if is_name(name, b"show") {
        ended(SiteLine::Show, rest, 2)
    } else {
        controller_line(name, rest)
    }
}

fn site_line(name: &[u8], rest: Option<&[u8]>) -> Result<SiteLine, Wrong>
    ensures { result_ok result
        ≡ site_line name.now (parts_after 32 (option_map (λ rest. rest.now) rest.entry)) }
{
    if is_name(name, b"pump") {
        Ok(SiteLine::Pump(trouble(rest)?))
    } else if is_name(name, b"lapse") {
        ended(SiteLine::Lapse, rest, 2)
    } else if is_name(name, b"arc") {
        let (c, frame) = number_and_frame(rest)?;
        Ok(SiteLine::Arc(c, frame))
    } else if is_name(name, b"foreign") {
        Ok(SiteLine::Outside(Outside::Foreign(frame(rest, 2)?)))
    } else if is_name(name, b"run") {
        Ok(SiteLine::Run(number(rest)?))
    } else {
        gear_line(name, rest)
    }
}

/// What a line asks for on a site, or its first wrong word.
pub fn site_line_of(line: &[u8]) -> Result<SiteLine, Wrong>
    ensures { result_ok result ≡ site_line_of (words_of line.now) }
{
    let (name, rest) = cut(line, b' ');
    site_line(name, rest)
}
