//! Members of objects, and texts from outside as strings.
#![tactic(auto, using(std::proofs::lemmas::List::append_assoc))]

ghost use Rattle.std.specs.Prelude.{◌≡◌, ◌++◌, OnOk, string_bytes};
ghost use Rattle.dali_replay.specs.Json.{json_row};
ghost use Rattle.dali_story.specs.Members.{number_member, text_member, list_member, json_byte, json_text};

use dali_gear::Row;
use dali_replay::push_row;
use std::alloc::AllocError;

/// A member that is a number.
#[tactic(auto, unfolding(crate::specs::Members::number_member))]
pub fn push_number(text: &mut String, key: &str, number: u64) -> Result<(), AllocError>
    ensures { OnOk result (string_bytes text.new ≡ string_bytes text.old ++ number_member key.now number) }
{
    write!(text, ",\"{key}\":{number}")
}

/// A member that is a name: a text without marks.
#[tactic(auto, unfolding(crate::specs::Members::text_member))]
pub fn push_name(text: &mut String, key: &str, value: &str) -> Result<(), AllocError>
    ensures { OnOk result (string_bytes text.new ≡ string_bytes text.old ++ text_member key.now value.now) }
{
    write!(text, ",\"{key}\":\"{value}\"")
}

/// A member that is a list which is there as text.
#[tactic(auto, unfolding(crate::specs::Members::list_member))]
pub fn push_items(text: &mut String, key: &str, items: &str) -> Result<(), AllocError>
    ensures { OnOk result (string_bytes text.new ≡ string_bytes text.old ++ list_member key.now items.now) }
{
    write!(text, ",\"{key}\":[{items}]")
}

/// A member that is a row of gear.
#[tactic(auto, unfolding(crate::specs::Members::list_member))]
pub fn push_row_of(text: &mut String, key: &str, row: &Row) -> Result<(), AllocError>
    ensures { OnOk result (string_bytes text.new ≡ string_bytes text.old ++ list_member key.now (json_row 0 row.now)) }
{
    write!(text, ",\"{key}\":[")?;
    push_row(text, row)?;
    text.push_str("]")
}

fn push_byte(text: &mut String, byte: u8) -> Result<(), AllocError>
    ensures { OnOk result (string_bytes text.new ≡ string_bytes text.old ++ json_byte byte) }
{
    match byte {
        b'"' => text.push_str("\\\""),
        b'\\' => text.push_str("\\\\"),
        b'&' => text.push_str("\\u0026"),
        b'<' => text.push_str("\\u003c"),
        b'>' => text.push_str("\\u003e"),
        b'\n' => text.push_str("\\n"),
        b'\t' => text.push_str("\\t"),
        32..=126 => text.push(char::from(byte)),
        _ => text.push_str("?"),
    }
}

/// A text from outside, with the marks of JSON and of a page in their place.
fn push_text(text: &mut String, bytes: &[u8]) -> Result<(), AllocError>
    ensures { OnOk result (string_bytes text.new ≡ string_bytes text.old ++ json_text bytes.now) }
{
    for byte in bytes {
        push_byte(text, *byte)?;
    }
    Ok(())
}

/// A member that is a text from outside.
#[tactic(auto, unfolding(crate::specs::Members::text_member))]
pub fn push_quoted(text: &mut String, key: &str, bytes: &[u8]) -> Result<(), AllocError>
    ensures { OnOk result (string_bytes text.new ≡ string_bytes text.old ++ text_member key.now (json_text bytes.now)) }
{
    write!(text, ",\"{key}\":\"")?;
    push_text(text, bytes)?;
    text.push_str("\"")
}
