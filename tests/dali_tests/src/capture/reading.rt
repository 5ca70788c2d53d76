//! How a text is read.

use dali_capture::{CaptureFault, Heard, Item, Mistake, Reason, read_capture};
use dali_console::Failed;
use dali_frame::Forward;
use std::process::Abort;

/// A forward frame that began and was over then.
pub fn forward(at: u64, until: u64, address_byte: u8, opcode_byte: u8) -> Item {
    Item {
        at,
        until,
        what: Heard::Forward(Forward {
            address_byte,
            opcode_byte,
        }),
    }
}

/// Anything else.
pub fn other(at: u64, until: u64, what: Heard) -> Item {
    Item { at, until, what }
}

/// Fails if the items of a text are not these. The wire of a dump is the one of this name.
pub fn tells_of<R: Abort + AllocGlobal>(
    rt: &R,
    wire: Option<&str>,
    is_inverted: bool,
    text: &str,
    wanted: &[Item],
) {
    let mut left = text.as_bytes();
    match read_capture(rt.alloc(), bytes_of(wire), is_inverted, &mut left) {
        Ok(items) => {
            assert_eq!(rt; items.len(), wanted.len());
            for (item, wanted) in items.iter().zip(wanted) {
                assert_eq!(rt; item, wanted);
            }
        }
        Err(fault) => panic!(rt; "refused: {fault}: {text}"),
    }
}

/// The same of a text that needs no word more.
pub fn tells<R: Abort + AllocGlobal>(rt: &R, text: &str, wanted: &[Item]) {
    tells_of(rt, None, false, text, wanted);
}

/// Fails if a text has another first mistake than this one, in this line.
pub fn is_bad_of<R: Abort + AllocGlobal>(
    rt: &R,
    wire: Option<&str>,
    text: &str,
    line: u64,
    reason: Reason,
) {
    let mut left = text.as_bytes();
    match read_capture(rt.alloc(), bytes_of(wire), false, &mut left) {
        Ok(_) => panic!(rt; "not refused: {text}"),
        Err(fault) => {
            assert_eq!(rt; fault, CaptureFault::Bad(Mistake { line, reason }));
            assert_eq!(rt; fault.status(), 1);
        }
    }
}

/// The same of a text that needs no word more.
pub fn is_bad<R: Abort + AllocGlobal>(rt: &R, text: &str, line: u64, reason: Reason) {
    is_bad_of(rt, None, text, line, reason);
}

fn bytes_of(wire: Option<&str>) -> Option<&[u8]> {
    match wire {
        Some(name) => Some(name.as_bytes()),
        None => None,
    }
}
