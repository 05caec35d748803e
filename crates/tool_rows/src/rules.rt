//! What no clause says: the names, and the table of findings. And rows by hand of definitions.

use lint_rules::{
    Cause, Depth, Echo, EndxPolls, Finding, Findings, MapPlace, Masks, Moment, Object, Plane,
    Polls, RULES, Rule, Screen, Scroll, Unit, Written, backdrop_rule, colour_of, edge_rule,
    flip_rule, map_rule, rule_named, speed_rule, status_rule, unset_rule, value_of,
};
use std::alloc::AllocError;

const EARLY: Moment = Moment {
    frame: 3,
    line: 10,
    clock: 200,
    overscan: false,
    forced: false,
};

const LATE: Moment = Moment {
    frame: 9,
    line: 224,
    clock: 1,
    overscan: false,
    forced: false,
};

#[test]
fn each_name_is_of_its_rule_alone(rt: HostRuntime) {
    for rule in &RULES {
        assert!(rt; rule_named(rule.name()) == Some(*rule));
        assert!(rt; !rule.text().is_empty());
    }
    assert!(rt; rule_named("vram").is_none());
}

#[test]
fn a_finding_counts_again(rt: HostRuntime) -> Result<(), AllocError> {
    let mut findings = Findings::new(rt.alloc());
    let cause = |address| Cause {
        unit: Unit::Console,
        address,
    };
    findings.add(Finding::new(Rule::Stp, cause(0x8010), 0, EARLY))?;
    findings.add(Finding::new(Rule::Brk, cause(0x8020), 0, EARLY))?;
    findings.add(Finding::new(Rule::Brk, cause(0x8000), 0, EARLY))?;
    findings.add(Finding::new(Rule::Brk, cause(0x8020), 0, LATE))?;
    findings.sort()?;
    let told = findings.list();
    assert_eq!(rt; told.len(), 3);
    assert_eq!(rt; told[0].cause.address, 0x8000);
    assert_eq!(rt; told[1].count, 2);
    assert_eq!(rt; told[1].first.frame, EARLY.frame);
    assert_eq!(rt; told[1].last.line, LATE.line);
    assert!(rt; told[2].rule == Rule::Stp);
    Ok(())
}

#[test]
fn a_loop_waits_for_the_busy_bit(rt: HostRuntime) {
    let mut polls = Polls::begin(0x8000, 0, 0x02);
    assert!(rt; !polls.add(0x8000, 50, 0x42));
    assert!(rt; !polls.add(0x8000, 100, 0xc2));
    assert!(rt; polls.add(0x8000, 300, 0x02));
    assert!(rt; !polls.add(0x8003, 350, 0x02));
    assert!(rt; !polls.add(0x8003, 551, 0xc2));
    assert!(rt; !polls.add(0x8003, 600, 0xc2));
}

#[test]
fn each_register_that_is_not_set_is_a_finding(rt: HostRuntime) -> Result<(), AllocError> {
    let mut findings = Findings::new(rt.alloc());
    let cause = Cause {
        unit: Unit::Console,
        address: 0x8010,
    };
    findings.add(Finding::new(Rule::RegistersUnset, cause, 0x2105, EARLY))?;
    findings.add(Finding::new(Rule::RegistersUnset, cause, 0x212c, EARLY))?;
    findings.add(Finding::new(Rule::RegistersUnset, cause, 0x2105, LATE))?;
    let told = findings.list();
    assert_eq!(rt; told.len(), 2);
    assert_eq!(rt; told[0].count, 2);
    Ok(())
}

#[test]
fn a_byte_counts_at_its_first_read(rt: HostRuntime) -> Result<(), AllocError> {
    let mut written = Written::nothing(rt.alloc(), 8)?;
    written.write(3);
    assert!(rt; !written.read(3));
    assert!(rt; written.read(7));
    assert!(rt; !written.read(7));
    assert!(rt; !written.read(8));
    assert!(rt; written.has(7) && !written.has(6));
    written.put(7, false);
    assert!(rt; written.read(7));
    Ok(())
}

/// Mode 1, with BG1 and the objects on the main screen.
const PLAIN: Screen = Screen {
    mode: 1,
    main: 0x11,
    sub: 0x04,
    select: 0,
    math: 0,
    settings: 0,
    masks: NO_MASKS,
};

const NO_MASKS: Masks = Masks {
    main: 0,
    sub: 0,
    first: 0,
    second: 0,
    third: 0,
};

/// Whether a picture depends on a register.
fn needs(screen: &Screen, register: u8) -> bool {
    unset_rule(screen, register, false) == Some(Rule::RegistersUnset)
        && unset_rule(screen, register, true).is_none()
}

#[test]
fn a_picture_depends_on_what_it_shows(rt: HostRuntime) {
    for register in &[
        0x01, 0x05, 0x06, 0x07, 0x0b, 0x0d, 0x0e, 0x2c, 0x2e, 0x30, 0x31, 0x33,
    ] {
        assert!(rt; needs(&PLAIN, *register));
    }
    for register in &[
        0x00, 0x02, 0x08, 0x09, 0x0c, 0x0f, 0x11, 0x1b, 0x23, 0x2d, 0x2f, 0x32,
    ] {
        assert!(rt; !needs(&PLAIN, *register));
    }
}

#[test]
fn the_sub_screen_counts_if_it_is_seen(rt: HostRuntime) {
    let mixed = Screen {
        select: 2,
        math: 1,
        ..PLAIN
    };
    assert!(rt; needs(&mixed, 0x09) && needs(&mixed, 0x0c) && needs(&mixed, 0x11));
    assert!(rt; needs(&mixed, 0x2d) && needs(&mixed, 0x32) && !needs(&mixed, 0x08));
    let unmixed = Screen {
        math: 0x80,
        ..mixed
    };
    assert!(rt; !needs(&unmixed, 0x2d) && !needs(&unmixed, 0x09));
    let fine = Screen {
        settings: 8,
        ..PLAIN
    };
    assert!(rt; needs(&fine, 0x2d) && needs(&fine, 0x2f) && needs(&fine, 0x09));
}

#[test]
fn a_window_has_its_registers(rt: HostRuntime) {
    let masked = |main, first| Screen {
        masks: Masks {
            main,
            first,
            ..NO_MASKS
        },
        ..PLAIN
    };
    let one = masked(1, 2);
    assert!(rt; needs(&one, 0x23) && needs(&one, 0x26) && needs(&one, 0x27));
    assert!(rt; !needs(&one, 0x28) && !needs(&one, 0x2a) && !needs(&one, 0x25));
    let both = masked(1, 0x0a);
    assert!(rt; needs(&both, 0x28) && needs(&both, 0x2a) && !needs(&both, 0x2b));
    assert!(rt; !needs(&masked(2, 0x22), 0x23) && !needs(&masked(1, 0x20), 0x26));
    let colours = Screen {
        select: 0x40,
        masks: Masks {
            third: 0x20,
            ..NO_MASKS
        },
        ..PLAIN
    };
    assert!(rt; needs(&colours, 0x25) && needs(&colours, 0x27) && !needs(&colours, 0x24));
    let unmixed = Screen {
        select: 0x10,
        ..colours
    };
    assert!(rt; !needs(&unmixed, 0x25));
    assert!(rt; needs(&Screen { math: 1, ..unmixed }, 0x25));
}

#[test]
fn a_pixel_has_its_words_and_colour(rt: HostRuntime) {
    let plane = Plane {
        depth: Depth::Four,
        broad: true,
        high: true,
        map: 0x7c00,
        wide: true,
        tall: true,
        tiles: 0x2000,
    };
    assert_eq!(rt; plane.map_word(17, 33), 0x7c41);
    assert_eq!(rt; plane.map_word(512, 512), 0x0800);
    assert_eq!(rt; plane.line_word(0x0102, 8, 9), 0x3131);
    assert_eq!(rt; plane.line_word(0xc102, 8, 9), 0x3026);
    assert_eq!(rt; value_of(&[0x0180, 0x8001, 0, 0xff00], 0), 0x89);
    assert_eq!(rt; value_of(&[0x0180, 0x8001, 0, 0xff00], 7), 0x86);
    assert_eq!(rt; colour_of(0, 2, Depth::Two, 0x1c00, 3), 95);
    assert_eq!(rt; colour_of(1, 2, Depth::Two, 0x1c00, 3), 31);
    let moved = Scroll { across: 5, down: 6 }.moved(4, 1, 0xc123, 0);
    assert!(rt; moved.across == 5 && moved.down == 0x123);
}

#[test]
fn a_mode_has_its_own_registers(rt: HostRuntime) {
    let seven = Screen { mode: 7, ..PLAIN };
    assert!(rt; needs(&seven, 0x1a) && needs(&seven, 0x20) && needs(&seven, 0x0d));
    assert!(rt; !needs(&seven, 0x07) && !needs(&seven, 0x0b) && !needs(&seven, 0x0f));
    let second = Screen {
        mode: 7,
        main: 2,
        settings: 64,
        ..PLAIN
    };
    assert!(rt; needs(&second, 0x1b));
    assert!(rt;
        !needs(
            &Screen {
                settings: 0,
                ..second
            },
            0x1b
        )
    );
    let columns = Screen { mode: 2, ..PLAIN };
    assert!(rt; needs(&columns, 0x09) && needs(&columns, 0x12) && !needs(&columns, 0x0c));
    let empty = Screen {
        main: 0x10,
        ..columns
    };
    assert!(rt; !needs(&empty, 0x09) && !needs(&empty, 0x06));
}

#[test]
fn a_backdrop_is_black_or_not(rt: HostRuntime) {
    let fine = Screen { mode: 5, ..PLAIN };
    assert!(rt; backdrop_rule(&fine, 1) == Some(Rule::BackdropInHighResolution));
    assert!(rt; backdrop_rule(&fine, 0x8000).is_none());
    assert!(rt; backdrop_rule(&PLAIN, 1).is_none());
}

/// A small object of size code 6, turned over, in the first row.
const TALL: Object = Object {
    size: 6,
    large: false,
    x: 0,
    y: 0,
    tile: 0,
    attributes: 0x80,
};

/// Whether an object breaks its rule in a picture of 224 rows.
fn is_flipped(object: Object) -> bool {
    flip_rule(object, 224) == Some(Rule::VerticalFlipOfHalves)
}

#[test]
fn an_object_that_is_seen_is_turned_over(rt: HostRuntime) {
    assert!(rt; is_flipped(TALL));
    assert!(rt;
        !is_flipped(Object {
            attributes: 0x40,
            ..TALL
        })
    );
    assert!(rt; !is_flipped(Object { size: 5, ..TALL }));
    assert!(rt; is_flipped(Object { size: 7, ..TALL }));
    assert!(rt;
        !is_flipped(Object {
            size: 7,
            large: true,
            ..TALL
        })
    );
    assert!(rt; is_flipped(Object { y: 223, ..TALL }) && !is_flipped(Object { y: 224, ..TALL }));
    assert!(rt; is_flipped(Object { y: 225, ..TALL }) && is_flipped(Object { y: 255, ..TALL }));
    assert!(rt; !is_flipped(Object { x: 256, ..TALL }) && is_flipped(Object { x: 497, ..TALL }));
    assert!(rt; !is_flipped(Object { x: 496, ..TALL }));
}

#[test]
fn blank_ends_near_an_edge(rt: HostRuntime) {
    let at = |clock, forced| Moment {
        clock,
        forced,
        ..EARLY
    };
    assert!(rt; edge_rule(0x0f, &at(24, true)) == Some(Rule::BlankNearEdge));
    assert!(rt; edge_rule(0x80, &at(1159, false)) == Some(Rule::BlankNearEdge));
    assert!(rt; edge_rule(0x80, &at(24, true)).is_none());
    assert!(rt;
        edge_rule(0x0f, &at(23, true)).is_none() && edge_rule(0x0f, &at(152, true)).is_none()
    );
    assert!(rt; edge_rule(0x80, &at(1160, false)).is_none());
    assert!(rt;
        edge_rule(
            0x80,
            &Moment {
                line: 225,
                ..at(24, false)
            }
        )
        .is_none()
    );
    assert!(rt; status_rule(0x3f) == Some(Rule::FieldAndRegionBits) && status_rule(0x3e).is_none());
}

#[test]
fn the_echo_buffer_goes_on_at_0000(rt: HostRuntime) {
    let echo = Echo {
        flags: 0xc0,
        start: 0xfc,
        delay: 0x11,
    };
    assert_eq!(rt; echo.size(), 2048);
    assert!(rt; echo.covers(0xfc00) && echo.covers(0xffff) && echo.covers(0x03ff));
    assert!(rt; !echo.covers(0xfbff) && !echo.covers(0x0400));
    assert!(rt; echo.rule(0) == Some(Rule::EchoOverMemory));
    assert!(rt;
        !Echo {
            flags: 0x20,
            ..echo
        }
        .covers(0)
    );
    let least = Echo {
        delay: 0xf0,
        ..echo
    };
    assert!(rt; least.covers(0xfc03) && !least.covers(0xfc04));
}

#[test]
fn a_loop_waits_for_endx_once(rt: HostRuntime) {
    let mut polls = EndxPolls {
        by: 0,
        last: 0,
        count: 0,
    };
    polls.add(0x0210, 10);
    polls.add(0x0210, 74);
    assert!(rt; polls.rule().is_none());
    polls.add(0x0210, 138);
    assert!(rt; polls.rule() == Some(Rule::WaitForEndx));
    polls.add(0x0210, 139);
    assert!(rt; polls.rule().is_none());
    polls.add(0x0210, 204);
    polls.add(0x0212, 205);
    polls.add(0x0212, 206);
    assert!(rt; polls.rule().is_none());
}

#[test]
fn a_map_byte_has_its_place_and_speed(rt: HostRuntime) {
    assert!(rt; map_rule(MapPlace::LoRom, 0x31, true) == Some(Rule::MapByte));
    assert!(rt; map_rule(MapPlace::LoRom, 0x31, false).is_none());
    assert!(rt; map_rule(MapPlace::LoRom, 0x30, true).is_none());
    assert!(rt; map_rule(MapPlace::HiRom, 0x20, true) == Some(Rule::MapByte));
    assert!(rt; speed_rule(0x21, 1) == Some(Rule::MapByte));
    assert!(rt; speed_rule(0x31, 1).is_none() && speed_rule(0x21, 2).is_none());
}
