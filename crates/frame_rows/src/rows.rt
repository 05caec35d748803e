//! Frames, save states, and what is refused.

use crate::door::{door, inputs};
use crate::played::{Played, Step};
use cart_map::CartRefused;
use frame_player::{BeginEnd, ConsoleInputs, FrameEnd, Frames};
use memory_player::Why;
use snes_defs::{Region, Side};
use std::alloc::Global;
use std::test::Fail;

const START: u16 = 0x1000;

const A: u16 = 0x0080;

const RED: u16 = 0x001f;

const GREEN: u16 = 0x00e0;

/// Takes steps on a new console. Returns the number of the first that gives something else.
fn first_wrong(alloc: Global, region: Region, steps: &[Step]) -> Result<Option<usize>, Fail> {
    let mut played = Played::begin(alloc, region).ok_or("no console")?;
    Ok(played.first_wrong(steps))
}

#[test]
fn start_opens_the_door(rt: HostRuntime) -> Result<(), Fail> {
    let steps = [
        Step::Dot(5, 0, Ok(RED)),
        // Five frames of NTSC have 2,662 samples: 5 * 357,368 * 5,632 stamps, and one of 3,780,000 for each sample.
        Step::Samples(2_662),
        Step::Dot(3, START, Ok(GREEN)),
        Step::Dot(3, 0, Ok(GREEN)),
    ];
    assert_eq!(rt; first_wrong(rt.alloc(), Region::Ntsc, &steps)?, None);
    Ok(())
}

#[test]
fn pal_has_longer_frames(rt: HostRuntime) -> Result<(), Fail> {
    let steps = [
        Step::Dot(5, 0, Ok(RED)),
        // Five frames of PAL: 5 * 425,568 * 102,400 stamps, and one of 68,100,384 for each sample.
        Step::Samples(3_199),
        Step::Dot(3, START, Ok(GREEN)),
    ];
    assert_eq!(rt; first_wrong(rt.alloc(), Region::Pal, &steps)?, None);
    Ok(())
}

#[test]
fn a_slot_takes_a_console_back(rt: HostRuntime) -> Result<(), Fail> {
    let steps = [
        Step::Dot(5, 0, Ok(RED)),
        Step::Keep(1, true),
        Step::Dot(3, START, Ok(GREEN)),
        Step::Back(1, true),
        Step::Dot(3, A, Ok(RED)),
        // The other slot holds the start: after two frames the screen is still black, or red.
        Step::Back(0, true),
        Step::Dot(20, START, Ok(GREEN)),
        Step::Keep(2, false),
        Step::Back(2, false),
        Step::Dot(1, 0, Err(FrameEnd::Frames)),
        Step::Back(1, true),
        Step::Dot(3, START, Ok(GREEN)),
    ];
    assert_eq!(rt; first_wrong(rt.alloc(), Region::Ntsc, &steps)?, None);
    Ok(())
}

#[test]
fn a_reset_shuts_the_door(rt: HostRuntime) -> Result<(), Fail> {
    let steps = [
        // There is nothing to reset before the first frame.
        Step::Reset(false),
        Step::Dot(3, START, Ok(GREEN)),
        Step::Reset(true),
        Step::Reset(false),
        Step::Keep(0, true),
        Step::Dot(3, 0, Ok(RED)),
        Step::Dot(3, START, Ok(GREEN)),
        // The slot holds the press too, and the console that has not taken it.
        Step::Back(0, true),
        Step::Reset(false),
        Step::Dot(3, 0, Ok(RED)),
    ];
    assert_eq!(rt; first_wrong(rt.alloc(), Region::Ntsc, &steps)?, None);
    Ok(())
}

#[test]
fn a_room_too_short_changes_nothing(rt: HostRuntime) -> Result<(), Fail> {
    let picture = Err(FrameEnd::TooShort(Side::Console));
    let samples = Err(FrameEnd::TooShort(Side::Sound));
    let steps = [
        Step::Into(0, 244_735, 2_560, picture),
        // The first two frames have 532 samples, the third has 533.
        Step::Into(0, 244_736, 2_127, samples),
        Step::Into(0, 244_736, 2_128, Ok(())),
        Step::Into(0, 244_736, 2_128, Ok(())),
        Step::Into(0, 244_736, 2_131, samples),
        Step::Dot(3, 0, Ok(RED)),
        Step::Samples(2_662),
    ];
    assert_eq!(rt; first_wrong(rt.alloc(), Region::Ntsc, &steps)?, None);
    Ok(())
}

/// Why a console is not made, if it isn't.
fn refused(alloc: Global, inputs: ConsoleInputs<'_>) -> Option<BeginEnd> {
    Frames::begin(alloc, inputs).err()
}

#[test]
fn a_bad_beginning_is_refused(rt: HostRuntime) -> Result<(), Fail> {
    let alloc = rt.alloc();
    let cart = door(alloc).ok().ok_or("no memory")?;
    let mut given = inputs(cart.as_slice(), Region::Ntsc);
    given.most = 0;
    let no_frames = refused(alloc, given);
    given.most = 36_001;
    let many_frames = refused(alloc, given);
    given.most = 1;
    given.slots = 65;
    let many_slots = refused(alloc, given);
    given.slots = 0;
    given.boot = &[0u8; 63];
    let short_boot = refused(alloc, given);
    given.cart = &[0u8; 10];
    let short_cart = refused(alloc, given);
    assert_eq!(rt;
        [no_frames, many_frames, many_slots, short_boot, short_cart],
        [
            Some(BeginEnd::Frames),
            Some(BeginEnd::Frames),
            Some(BeginEnd::Slots),
            Some(BeginEnd::Refused(Why::Boot)),
            Some(BeginEnd::Refused(Why::Cart(CartRefused::TooShort))),
        ]
    );
    Ok(())
}
