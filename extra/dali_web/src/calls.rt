//! What a page calls.

ghost use Rattle.std.specs.Prelude.{◌≡◌, ◌<◌, ◌⊎◌, Some, [], take, length, Ok, Err};
ghost use Rattle.dali_grammar.specs.declared.reason.Explained.{Explained};
ghost use Rattle.dali_grammar.specs.ReplayFault.{status_of};
ghost use Rattle.dali_replay.specs.Streams.{Explains};
ghost use Rattle.dali_story.specs.Tells.{Tells};
ghost use Rattle.dali_web.specs.Calls.{DONE, NO_ROOM, StandsAt, form_of};

use crate::handing::hand_out;
use crate::told::{REFUSED, Told};
use dali_replay::{Form, replay_through};
use dali_story::tell_run;
use std::alloc::Global;
use std::io::BufWriter;

fn form_of(is_json: bool) -> Form
    ensures { result ≡ form_of is_json }
{
    if is_json { Form::Json } else { Form::Text }
}

/// Plays a script, and hands out what `dali_play` writes of it and says of its end, as texts or as JSON of each `show`.
///
/// It answers the status of that program, 0, 1 or 3, or 4 if there is too little room.
#[unsafe(no_mangle)]
pub extern "C" fn dali_web_play(
    alloc: Global,
    is_json: bool,
    script: &[u8],
    wrote: &mut [u8],
    said: &mut [u8],
    told: &mut Told,
) -> u8
    ensures done { result ≡ DONE
        → Explains (form_of is_json) script.now (Some []) (Some (take told.new.written wrote.new)) (Ok tt) }
    ensures stopped { result ≡ 1 → (e : Explained) × (status_of e.fault ≡ 1) × StandsAt e told.new.line told.new.word
        × Explains (form_of is_json) script.now (Some []) (Some (take told.new.written wrote.new)) (Err e) }
    ensures room { result ≡ NO_ROOM → (length wrote.old < told.new.written) ⊎ (length said.old < told.new.said) }
{
    let mut reader = script;
    let Ok(mut writer) = BufWriter::with_capacity(alloc, 0, Vec::new(alloc)) else {
        *told = Told::NOTHING;
        return REFUSED;
    };
    let ended = replay_through(alloc, form_of(is_json), &mut reader, &mut writer);
    let Ok(written) = writer.into_inner() else {
        *told = Told::NOTHING;
        return REFUSED;
    };
    hand_out(alloc, ended, &written, wrote, said, told)
}

/// Plays a script to its end, and hands out its story, as `dali_view` writes it, and what that says of its end.
///
/// It answers the status of that program, 0, 1 or 3, or 4 if there is too little room.
#[unsafe(no_mangle)]
pub extern "C" fn dali_web_tell(
    alloc: Global,
    script: &[u8],
    wrote: &mut [u8],
    said: &mut [u8],
    told: &mut Told,
) -> u8
    ensures done { result ≡ DONE
        → Tells script.now (Some []) (Some (take told.new.written wrote.new)) (Ok tt) }
    ensures stopped { result ≡ 1 → (e : Explained) × (status_of e.fault ≡ 1) × StandsAt e told.new.line told.new.word
        × Tells script.now (Some []) (Some (take told.new.written wrote.new)) (Err e) }
    ensures room { result ≡ NO_ROOM → (length wrote.old < told.new.written) ⊎ (length said.old < told.new.said) }
{
    let mut reader = script;
    let mut written = Vec::new(alloc);
    let ended = tell_run(alloc, &mut reader, &mut written);
    hand_out(alloc, ended, &written, wrote, said, told)
}
