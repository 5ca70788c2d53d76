//! Logs: each line, and each mistake.

use super::reading::{forward, is_bad, other, tells};
use dali_capture::{Heard, Reason};
use std::test::Fail;

#[test]
fn each_line_is_an_item(rt: HostRuntime) -> Result<(), Fail> {
    tells(
        &rt,
        "0 A500\n20000 a5FF\n55555 < 0b\n70000 < damaged\n90000 device\n",
        &[
            forward(0, 14_167, 0xA5, 0x00),
            forward(20_000, 34_167, 0xA5, 0xFF),
            other(55_555, 63_055, Heard::Backward(0x0B)),
            other(70_000, 77_500, Heard::Damaged),
            other(90_000, 110_833, Heard::Device),
        ],
    );
    Ok(())
}

#[test]
fn blanks_comments_and_the_end_of_a_line_tell_nothing(rt: HostRuntime) -> Result<(), Fail> {
    tells(&rt, "", &[]);
    tells(&rt, "\n \n\r\n#\n# $var 1 2 3\n#!\n", &[]);
    tells(
        &rt,
        "# from the bus\r\n\r\n  7\tFF20  \r\n\t7 < FF",
        &[
            forward(7, 14_174, 0xFF, 0x20),
            other(7, 7_507, Heard::Backward(0xFF)),
        ],
    );
    Ok(())
}

#[test]
fn a_bad_line_is_named(rt: HostRuntime) -> Result<(), Fail> {
    for line in [
        "5",
        "5 <",
        "A500",
        "5 A50",
        "5 A5000",
        "5 A50G",
        "5 < 0",
        "5 < 0G",
        "5 < 0B1",
        "5 < A500",
        "5 < device",
        "5 damaged",
        "5 A500 A500",
        "5 < 0B #",
        "5 <0B",
        "-5 A500",
        "+5 A500",
        "5.0 A500",
        "5µ A500",
        "5 Device",
        "5, A500",
        "< 0B",
        "x",
    ] {
        let mut text = String::new(rt.alloc());
        text.push_str("# a log\n4 A500\n")?;
        text.push_str(line)?;
        is_bad(&rt, text.as_str(), 3, Reason::BadLine);
        text.push_str("\n6 A500\n")?;
        is_bad(&rt, text.as_str(), 3, Reason::BadLine);
    }
    Ok(())
}

#[test]
fn times_have_a_limit_and_go_on(rt: HostRuntime) -> Result<(), Fail> {
    tells(
        &rt,
        "007 A500\n7 A500\n18446744073709537448 A500\n",
        &[
            forward(7, 14_174, 0xA5, 0x00),
            forward(7, 14_174, 0xA5, 0x00),
            forward(18_446_744_073_709_537_448, u64::MAX, 0xA5, 0x00),
        ],
    );
    is_bad(&rt, "8 A500\n7 A500\n", 2, Reason::TimeBack);
    is_bad(&rt, "8 A500\n\n7 A500\n", 3, Reason::TimeBack);
    is_bad(&rt, "18446744073709537449 A500\n", 1, Reason::TimeTooLarge);
    is_bad(&rt, "18446744073709551616 A500\n", 1, Reason::TimeTooLarge);
    Ok(())
}
