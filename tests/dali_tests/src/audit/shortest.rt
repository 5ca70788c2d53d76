//! Of each finding a shortest capture that has it, and the nearest one that has it not.
//!
//! A capture is words: `HHHH` is a forward frame, which begins 14,000 µs after what was heard before; `<HH` a byte and
//! `<--` a damaged answer, 7,000 µs after it; `--` is damaged, where a frame may begin; `+N` is a wait of so many µs
//! more, and `-N` of so many less.

use super::captures::Capture;
use dali_audit::{KINDS, Kind};
use dali_capture::Heard;
use dali_frame::Forward;
use std::process::Abort;
use std::test::Fail;

/// The number that a word spells in this base.
fn number(word: &str, base: u32) -> Result<u64, Fail> {
    Ok(u64::from_str_radix(word, base).ok().ok_or("a number")?)
}

fn hear_word(capture: &mut Capture, word: &str) -> Result<(), Fail> {
    if word == "--" {
        return capture.hear(14_000, 9_000, Heard::Damaged);
    }
    if word == "<--" {
        return capture.hear(7_000, 7_500, Heard::Damaged);
    }
    if let Some(byte) = word.strip_prefix("<") {
        return capture.hear(7_000, 7_500, Heard::Backward(number(byte, 16)? as u8));
    }
    if let Some(micros) = word.strip_prefix("+") {
        capture.wait(number(micros, 10)?);
        return Ok(());
    }
    if let Some(micros) = word.strip_prefix("-") {
        capture.hurry(number(micros, 10)?);
        return Ok(());
    }
    let frame = number(word, 16)?;
    capture.frame(Forward {
        address_byte: (frame >> 8) as u8,
        opcode_byte: (frame & 0xFF) as u8,
    })
}

/// Fails unless the capture of these words has this finding alone, or none.
fn tells<R: Abort + AllocGlobal>(rt: &R, words: &str, wanted: Option<Kind>) -> Result<(), Fail> {
    let mut capture = Capture::new(rt.alloc());
    for word in words.split(' ') {
        hear_word(&mut capture, word)?;
    }
    let audit = capture.audit(rt.alloc())?;
    let told = match audit.findings.as_slice() {
        [] => None,
        // Several gear that were programmed answer the query together.
        [first, second] if first.kind == Kind::DamagedAnswer && second.kind == Kind::SeveralProgrammed => {
            Some(second.kind)
        }
        [only] => Some(only.kind),
        _ => Some(Kind::DamagedFrame),
    };
    if told != wanted {
        assert_eq!(rt; words, "");
    }
    Ok(())
}

/// A finding, a capture that has it alone, and one that has none.
const ROWS: [(Kind, &str, &str); 22] = [
    (Kind::DamagedFrame, "A100 --", "A100 A100"),
    (Kind::DamagedAnswer, "BB00 <--", "A900 <--"),
    (Kind::UnaskedAnswer, "A100 <FF", "A900 <FF"),
    (Kind::NotInitialised, "A100 A900 <FF", "A900 <FF"),
    (Kind::SettlingTime, "A100 -1851 A100", "A100 -1850 A100"),
    (Kind::HalfPair, "A700 A100", "A700 A700"),
    (Kind::LatePair, "A700 +57667 A700", "A700 +57666 A700"),
    (
        Kind::EarlyFrame,
        "A700 A700 +75999 A100",
        "A700 A700 +76000 A100",
    ),
    (
        Kind::InitialisationOver,
        "A5FF A5FF +899986001 A900 A100",
        "A5FF A5FF +899986000 A900 A100",
    ),
    (
        Kind::NotQueried,
        "B701 B112 +90000 A100",
        "B701 B112 +90000 BB00 A100",
    ),
    (
        Kind::NotFound,
        "A5FF A5FF B112 B334 B556 A900 B701 BB00 A100",
        "A5FF A5FF B112 B334 B556 A900 <FF B701 BB00 A100",
    ),
    (
        Kind::SeveralProgrammed,
        "B112 B334 B556 A900 <-- B701 BB00 <--",
        "B112 B334 B556 A900 <-- B701 BB00 <01",
    ),
    (
        Kind::AddressTaken,
        "03C2 <12 B112 B334 B556 B703",
        "03C2 <12 B112 B334 B556 B701",
    ),
    (
        Kind::AddressMoved,
        "B112 B334 B556 B701 BB00 <01 B703",
        "B112 B334 B556 B701 BB00 B703",
    ),
    (
        Kind::TwoRandomAddresses,
        "03C2 <12 03C3 <34 03C4 <56 03C2 <12 03C3 <34 03C4 <57",
        "03C2 <12 03C3 <34 03C4 <56 03C2 <12 03C3 <34 03C4 <56",
    ),
    (
        Kind::TwoShortAddresses,
        "03C2 <12 03C3 <34 03C4 <56 05C2 <12 05C3 <34 05C4 <56",
        "03C2 <12 03C3 <34 03C4 <56 05C2 <12 05C3 <34 05C4 <57",
    ),
    (
        Kind::Redrawn,
        "A100 03C2 <12 A500 A500 A700 A700 +76000 A100",
        "A100 03C2 <12 A5FF A5FF A700 A700 +76000 A100",
    ),
    (Kind::NotAnAddress, "B700", "B7FF BB00"),
    (Kind::ResetOfAll, "FF20", "0320"),
    (Kind::SetForAll, "A301 FF80", "A3FF FF80"),
    (Kind::CutOff, "A100 A900", "A100 A900 A5FF A5FF A100"),
    (Kind::NotTerminated, "A5FF A5FF", "A5FF A5FF A100"),
];

#[test]
fn each_finding_has_a_shortest_capture(rt: HostRuntime) -> Result<(), Fail> {
    for (number, row) in ROWS.iter().enumerate() {
        let (kind, has, has_not) = *row;
        assert_eq!(rt; kind, KINDS[number]);
        tells(&rt, has, Some(kind))?;
        tells(&rt, has_not, None)?;
    }
    Ok(())
}
