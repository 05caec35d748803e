//! The four formats of one report.

use lint_report::{Format, Report, Told, text_of};
use lint_rules::{Cause, Finding, Moment, Rule, Unit};
use std::alloc::AllocError;

const FIRST: Moment = Moment {
    frame: 3,
    line: 10,
    clock: 200,
    overscan: false,
    forced: false,
};

/// A finding in a line of source, and one of the file.
fn told() -> [Told<'static>; 2] {
    let code = Cause {
        unit: Unit::Console,
        address: 0x8010,
    };
    let file = Cause {
        unit: Unit::File,
        address: 0x7FDC,
    };
    [
        Told {
            finding: Finding::new(Rule::Brk, code, 0, FIRST),
            label: Some(("main", 4)),
            source: Some(("a b.s", 12)),
            advice: "",
        },
        Told {
            finding: Finding::new(Rule::Checksum, file, 0, FIRST),
            label: None,
            source: None,
            advice: "1234 and EDCB are right",
        },
    ]
}

#[test]
fn people_get_lines(rt: HostRuntime) -> Result<(), AllocError> {
    let told = told();
    let report = Report {
        cart: "game.sfc",
        frames: 60,
        told: &told,
        more: 0,
    };
    let text = text_of(rt.alloc(), Format::People, &report)?;
    let wanted =
        "a b.s:12: warning: BRK is executed: often the sign of a jump to the wrong place [brk]
    008010 main+04: once, in frame 3, line 10, dot 50
game.sfc: warning: the header's checksum or complement is wrong: 1234 and EDCB are right [checksum]
game.sfc: 2 warnings, 0 notes, in 60 frames
";
    assert_eq!(rt; text.as_slice(), wanted.as_bytes());
    Ok(())
}

/// Whether a text is in bytes.
fn has(bytes: &[u8], text: &str) -> bool {
    match std::str::from_utf8(bytes) {
        Ok(all) => all.contains(text),
        Err(_) => false,
    }
}

#[test]
fn machines_get_the_same(rt: HostRuntime) -> Result<(), AllocError> {
    let alloc = rt.alloc();
    let told = told();
    let report = Report {
        cart: "game.sfc",
        frames: 60,
        told: &told,
        more: 0,
    };
    let json = text_of(alloc, Format::Json, &report)?;
    assert!(rt; has(json.as_slice(), "\"address\": \"008010\""));
    assert!(rt; has(json.as_slice(), "\"line\": 12"));
    let sarif = text_of(alloc, Format::Sarif, &report)?;
    assert!(rt; has(sarif.as_slice(), "\"uri\": \"a%20b.s\""));
    assert!(rt; has(sarif.as_slice(), "\"byteOffset\": 32732"));
    let tap = text_of(alloc, Format::Tap, &report)?;
    assert!(rt;
        has(
            tap.as_slice(),
            "not ok 20 - brk\n# a b.s:12: 008010 main+04"
        )
    );
    assert!(rt; has(tap.as_slice(), "\nok 21 - cop\n"));
    Ok(())
}
