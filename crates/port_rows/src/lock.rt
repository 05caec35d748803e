// Tests of the log behind its lock: the cases of any wire, and one of its own, whose calls over a whole are those of
// the ports themselves.
use crate::cases::{a_byte_for_sound, calls_over_a_whole, refused_calls};
use crate::passes::{Call, first_wrong};
use port_log::{Late, Ports};
use snes_defs::{Region, Side};
use std::test::Fail;

#[test]
fn sound_reads_what_the_console_wrote(rt: HostRuntime) -> Result<(), Fail> {
    let (ports, whole) = Ports::open(rt.alloc(), Region::Ntsc)?;
    assert_eq!(rt; a_byte_for_sound(&ports, whole), None);
    Ok(())
}

#[test]
fn a_refused_call_is_that_of_the_log(rt: HostRuntime) -> Result<(), Fail> {
    let (ports, whole) = Ports::open(rt.alloc(), Region::Ntsc)?;
    assert_eq!(rt; refused_calls(&ports, whole), None);
    Ok(())
}

#[test]
fn calls_over_a_whole_are_those_of_the_log(rt: HostRuntime) -> Result<(), Fail> {
    let (ports, mut whole) = Ports::open(rt.alloc(), Region::Pal)?;
    assert_eq!(rt; calls_over_a_whole(&ports, &mut whole), None);
    Ok(())
}

#[test]
fn both_sides_hear_a_call_over_a_whole(rt: HostRuntime) -> Result<(), Fail> {
    let (ports, mut whole) = Ports::open(rt.alloc(), Region::Ntsc)?;
    let early = ports.read_whole(&mut whole, Side::Sound, 0, 3);
    let written = ports.write_whole(&mut whole, Side::Sound, 0, 3, 9, 118_125);
    let calls = [
        (Side::Console, Call::Known(118_125)),
        (Side::Console, Call::Clock(0)),
        (Side::Sound, Call::Known(0)),
        (Side::Sound, Call::Clock(118_125)),
        (Side::Console, Call::Read(0, 3, Ok(0))),
        (Side::Console, Call::Read(5632, 3, Ok(9))),
        (Side::Console, Call::Clear(5632, 8, Ok(()))),
        (Side::Console, Call::Read(5632, 3, Ok(0))),
    ];
    let (wrong, _, _) = first_wrong(&ports, whole, &calls);
    assert_eq!(rt;
        (early, written, wrong),
        (Err(Late::Behind { need: 0, other: 0 }), Ok(()), None)
    );
    Ok(())
}
