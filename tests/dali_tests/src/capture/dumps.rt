//! Dumps: the head, times, changes, and each mistake.

use super::reading::{is_bad, is_bad_of, other, tells, tells_of};
use dali_capture::{Heard, Reason};
use std::process::Abort;
use std::test::Fail;

/// What sigrok-cli writes of one wire, but for the frame: a low of a half bit too long, which is damaged.
const DUMP: &'static str = "$date Sun Nov 29 03:50:00 2026 $end
$version libsigrok 0.5.2 $end
$comment
  Acquisition with 1/8 channels at 200 kHz
$end
$timescale 1 us $end
$scope module libsigrok $end
$var wire 1 ! D0 $end
$upscope $end
$enddefinitions $end
#0 1!
#5000 0!
#5600 1!
#9000
";

#[test]
fn a_dump_of_one_wire_is_read(rt: HostRuntime) -> Result<(), Fail> {
    tells(&rt, DUMP, &[other(5000, 5600, Heard::Damaged)]);
    tells_of(
        &rt,
        Some("D0"),
        false,
        DUMP,
        &[other(5000, 5600, Heard::Damaged)],
    );
    is_bad_of(&rt, Some("D1"), DUMP, 10, Reason::NoWire);
    Ok(())
}

#[test]
fn what_is_not_of_the_wire_is_passed_over(rt: HostRuntime) -> Result<(), Fail> {
    tells_of(
        &rt,
        Some("bus"),
        true,
        "$timescale 10us $end $var integer 32 # n [31:0] $end $var wire 1 a1 bus $end
$var real 64 r voltage $end $var reg 1 $ bus2 $end $var wire 1 a1 bus $end $enddefinitions $end
$dumpvars 0a1 x$ bxxxx # r1.25e-3 r $end #400 1$ b1 a1 s#0 r bx a1 za1 #460 B0 a1 1$ $dumpoff x$ xa1 $end
$dumpon 0a1 0$ $end $comment 1a1 #3 $end #800",
        &[other(4000, 4600, Heard::Damaged)],
    );
    Ok(())
}

#[test]
fn a_string_is_no_wire(rt: HostRuntime) -> Result<(), Fail> {
    let dump =
        "$timescale 1us $end $var string 1 s bus $end $var wire 1 w bus $end $var string 1 t note $end
$enddefinitions $end #0 1w stext s stext t #400 0w #1000 1w #1400 snext s #5000";
    tells(&rt, dump, &[]);
    tells_of(&rt, Some("bus"), false, dump, &[]);
    is_bad_of(&rt, Some("note"), dump, 2, Reason::NoWire);
    Ok(())
}

#[test]
fn each_time_scale_is_read(rt: HostRuntime) -> Result<(), Fail> {
    for (scale, head, rise, end) in [
        ("1us", "#5000", "#5600", "#9000"),
        ("10 us", "#500", "#560", "#900"),
        ("100\nus", "#50", "#56", "#90"),
        ("1 ns", "#5000999", "#5600000", "#9000000"),
        ("100 ns", "#50000", "#56000", "#90000"),
        ("1ps", "#5000000000", "#5600999999", "#9000000000"),
        ("1 fs", "#5000000000000", "#5600000000000", "#9000000000000"),
    ] {
        let mut text = String::new(rt.alloc());
        text.push_str("$timescale ")?;
        for word in [
            scale,
            " $end $var wire 1 ! D0 $end $enddefinitions $end #0 1! ",
            head,
            " 0! ",
            rise,
            " 1! ",
            end,
        ] {
            text.push_str(word)?;
        }
        tells(&rt, text.as_str(), &[other(5000, 5600, Heard::Damaged)]);
    }
    tells(
        &rt,
        "$timescale 1 ms $end $var wire 1 ! D0 $end #0 1! #5 0! #6 1! #9",
        &[other(5000, 6000, Heard::Damaged)],
    );
    tells(
        &rt,
        "$timescale 1 s $end $var wire 1 ! D0 $end #0 1! #5 0! #6 1! #9",
        &[other(5_000_000, 6_000_000, Heard::Damaged)],
    );
    for scale in [
        "2 us",
        "1",
        "us",
        "1000 us",
        "1 Us",
        "1u",
        "",
        "10 0us",
        "1us 1us 1",
    ] {
        let mut text = String::new(rt.alloc());
        text.push_str("$timescale ")?;
        text.push_str(scale)?;
        text.push_str(" $end $var wire 1 ! D0 $end #0 1!")?;
        if scale == "1us 1us 1" {
            tells(&rt, text.as_str(), &[]);
        } else {
            is_bad(&rt, text.as_str(), 1, Reason::BadTimescale);
        }
    }
    Ok(())
}

/// What stands in a dump of one wire where its head ends.
fn refused_behind_head<R: Abort + AllocGlobal>(
    rt: &R,
    text: &str,
    line: u64,
    reason: Reason,
) -> Result<(), Fail> {
    let mut whole = String::new(rt.alloc());
    whole.push_str("$timescale 1 us $end\n$var wire 1 ! D0 $end\n$enddefinitions $end\n")?;
    whole.push_str(text)?;
    is_bad(rt, whole.as_str(), line, reason);
    Ok(())
}

#[test]
fn a_mistake_behind_the_head_is_named(rt: HostRuntime) -> Result<(), Fail> {
    for word in [
        "2!", "0", "1", "x", "-", "#", "#x", "#-1", "#1.5", "!", "D0", "h1", "end",
    ] {
        let mut text = String::new(rt.alloc());
        text.push_str("#0 1!\n#7\n")?;
        text.push_str(word)?;
        text.push_str(" #8")?;
        refused_behind_head(&rt, text.as_str(), 6, Reason::BadWord)?;
    }
    refused_behind_head(&rt, "#8\n#7", 5, Reason::TimeBack)?;
    refused_behind_head(&rt, "#18446744073709551616", 4, Reason::TimeTooLarge)?;
    refused_behind_head(&rt, "$comment\n#8\n", 6, Reason::Torn)?;
    refused_behind_head(&rt, "#8 b1", 4, Reason::Torn)?;
    Ok(())
}

#[test]
fn a_mistake_of_the_head_is_named(rt: HostRuntime) -> Result<(), Fail> {
    for (text, line, reason) in [
        ("$enddefinitions $end", 1, Reason::NoWire),
        ("$timescale 1 us $end #5", 1, Reason::NoWire),
        (
            "$var wire 8 ! D0 $end\n$enddefinitions $end",
            2,
            Reason::NoWire,
        ),
        ("$var wire 1 ! D0 $end\n#5", 2, Reason::NoTimescale),
        ("$var $end", 1, Reason::BadVariable),
        ("$var wire $end", 1, Reason::BadVariable),
        ("$var wire 1 $end", 1, Reason::BadVariable),
        ("$var wire 1 ! $end", 1, Reason::BadVariable),
        ("$var wire 1 12345678 D0 $end", 1, Reason::LongIdentifier),
        (
            "$var wire 1 ! D0 $end\n$var wire 1 \" D1 $end",
            2,
            Reason::SeveralWires,
        ),
        (
            "$timescale 100 s $end $var wire 1 1234567 D0 $end\n#184467440737096",
            2,
            Reason::TimeTooLarge,
        ),
        ("$var wire 1 ! D0", 1, Reason::Torn),
    ] {
        is_bad(&rt, text, line, reason);
    }
    is_bad_of(
        &rt,
        Some("D0"),
        "$var wire 1 ! D0 $end\n$var wire 1 ! D0 $end\n\n$var wire 1 \" D0 $end",
        4,
        Reason::SeveralWires,
    );
    Ok(())
}
