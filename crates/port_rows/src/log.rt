// Tests of the log alone, by rows: calls on a new log, each with its expected result.
ghost use Rattle.std.specs.Prelude.{◌≡◌};
ghost use Rattle.snes_defs.specs.declared.region.Region.TheVariants.{Ntsc};

use clock_ratio::least;
use port_log::{Late, PortLog};
use snes_defs::{Region, Side};
use std::alloc::Global;
use std::test::Fail;

/// A call on a log: the side that makes it and its stamp, then its arguments, and last its expected result.
#[derive(Clone, Copy)]
enum Call {
    /// A write to a port, of a byte, with the stamp of the side's next step.
    Write(Side, u64, u8, u8, u64, Result<(), Late>),
    /// A read of a port.
    Read(Side, u64, u8, Result<u8, Late>),
    /// A clear of the ports of a mask.
    Clear(Side, u64, u8, Result<(), Late>),
    /// An advance, which returns the other side's clock.
    Advance(Side, u64, u64),
}

/// Makes a call. Returns whether a side may make it now, and it has the expected result.
fn is_answered(log: &mut PortLog, region: Region, call: Call) -> bool
    requires { log.old.region ≡ region }
    ensures { log.new.region ≡ region }
{
    match call {
        Call::Write(side, at, port, byte, next, wanted) => {
            if port > 3 || at < log.clock(side) || next < at || next - at < least(region) {
                return false;
            }
            log.write(side, at, port, byte, next) == wanted
        }
        Call::Read(side, at, port, wanted) => {
            if port > 3 || at < log.clock(side) {
                return false;
            }
            log.read(side, at, port) == wanted
        }
        Call::Clear(side, at, mask, wanted) => {
            if mask < 1 || mask > 15 || at < log.clock(side) {
                return false;
            }
            log.clear(side, at, mask) == wanted
        }
        Call::Advance(side, at, wanted) => at >= log.clock(side) && log.advance(side, at) == wanted,
    }
}

/// Returns the number of the first call with a wrong result.
fn first_wrong(log: &mut PortLog, region: Region, calls: &[Call]) -> Option<usize>
    requires { log.old.region ≡ region }
{
    'calls: for (k, call) in calls.iter().enumerate() {
        if !is_answered(log, region, *call) {
            return Some(k);
        }
    }
    None
}

/// Returns the number of the first call on a new log with a wrong result.
fn first_wrong_of_new(
    alloc: Global,
    region: Region,
    calls: &[Call],
) -> Result<Option<usize>, Fail> {
    let mut log = PortLog::new(alloc, region)?;
    Ok(first_wrong(&mut log, region, calls))
}

#[test]
fn sound_hears_a_console_write_at_its_stamp_and_clears_what_it_has_heard(
    rt: HostRuntime,
) -> Result<(), Fail> {
    let calls = [
        Call::Advance(Side::Console, 1_330_560_000, 0),
        Call::Advance(Side::Sound, 1_330_560_000, 1_330_560_000),
        Call::Write(Side::Console, 1_330_560_000, 0, 7, 1_330_593_792, Ok(())),
        Call::Read(Side::Sound, 1_330_560_000, 0, Ok(7)),
        Call::Write(Side::Console, 1_330_593_792, 0, 9, 1_330_700_800, Ok(())),
        Call::Clear(Side::Sound, 1_330_560_000, 3, Ok(())),
        Call::Read(Side::Sound, 1_330_560_000, 0, Ok(0)),
        Call::Read(Side::Sound, 1_330_678_125, 0, Ok(9)),
    ];
    assert_eq!(rt; first_wrong_of_new(rt.alloc(), Region::Ntsc, &calls)?, None);
    Ok(())
}

#[test]
fn console_does_not_hear_a_sound_write_at_its_stamp(rt: HostRuntime) -> Result<(), Fail> {
    let calls = [
        Call::Advance(Side::Console, 1_330_560_000, 0),
        Call::Advance(Side::Sound, 1_330_560_000, 1_330_560_000),
        Call::Write(Side::Sound, 1_330_560_000, 0, 7, 1_330_678_125, Ok(())),
        Call::Read(Side::Console, 1_330_560_000, 0, Ok(0)),
    ];
    assert_eq!(rt; first_wrong_of_new(rt.alloc(), Region::Ntsc, &calls)?, None);
    Ok(())
}

#[test]
fn console_hears_a_sound_write_after_its_stamp(rt: HostRuntime) -> Result<(), Fail> {
    let calls = [
        Call::Write(Side::Sound, 0, 2, 4, 118_125, Ok(())),
        Call::Read(Side::Console, 0, 2, Ok(0)),
        Call::Advance(Side::Console, 5632, 118_125),
        Call::Read(Side::Console, 5632, 2, Ok(4)),
    ];
    assert_eq!(rt; first_wrong_of_new(rt.alloc(), Region::Ntsc, &calls)?, None);
    Ok(())
}

#[test]
fn sound_waits_for_the_console_clock_to_pass(rt: HostRuntime) -> Result<(), Fail> {
    let calls = [
        Call::Read(Side::Sound, 0, 0, Err(Late::Behind { need: 0, other: 0 })),
        Call::Advance(Side::Console, 33_792, 0),
        Call::Read(Side::Sound, 0, 0, Ok(0)),
    ];
    assert_eq!(rt; first_wrong_of_new(rt.alloc(), Region::Ntsc, &calls)?, None);
    Ok(())
}

#[test]
fn a_write_is_taken_up_to_the_end_of_the_window(rt: HostRuntime) -> Result<(), Fail> {
    let near = [Call::Write(Side::Console, 122_912_768, 0, 1, 122_946_560, Ok(()))];
    let late = Err(Late::Ahead {
        at: 122_918_400,
        other: 0,
    });
    let far = [Call::Write(Side::Console, 122_918_400, 0, 1, 122_952_192, late)];
    let wrong_near = first_wrong_of_new(rt.alloc(), Region::Ntsc, &near)?;
    let wrong_far = first_wrong_of_new(rt.alloc(), Region::Ntsc, &far)?;
    assert_eq!(rt; (wrong_near, wrong_far), (None, None));
    Ok(())
}

#[test]
fn the_window_of_pal_has_as_many_lines(rt: HostRuntime) -> Result<(), Fail> {
    let near = [Call::Write(Side::Console, 2_234_777_600, 0, 1, 2_235_392_000, Ok(()))];
    let late = Err(Late::Ahead {
        at: 2_234_880_000,
        other: 0,
    });
    let far = [Call::Write(Side::Console, 2_234_880_000, 0, 1, 2_235_494_400, late)];
    let wrong_near = first_wrong_of_new(rt.alloc(), Region::Pal, &near)?;
    let wrong_far = first_wrong_of_new(rt.alloc(), Region::Pal, &far)?;
    assert_eq!(rt; (wrong_near, wrong_far), (None, None));
    Ok(())
}

/// Returns the number of the first write that isn't taken, of 3,638 by the console to port 0, of the bytes 0 to 255
/// over and over.
fn first_refused_of_a_window(log: &mut PortLog) -> Option<u64>
    requires { log.old.region ≡ Ntsc }
    ensures { log.new.region ≡ Ntsc }
{
    'writes: for k in 0..3638u64 {
        let at = k * 33_792;
        let byte = (k % 256) as u8;
        let write = Call::Write(Side::Console, at, 0, byte, at + 33_792, Ok(()));
        if !is_answered(log, Region::Ntsc, write) {
            return Some(k);
        }
    }
    None
}

#[test]
fn a_full_window_of_writes_is_kept_and_the_next_waits_for_the_reader(
    rt: HostRuntime,
) -> Result<(), Fail> {
    let late = Err(Late::Ahead {
        at: 122_935_296,
        other: 0,
    });
    let next = [
        Call::Write(Side::Console, 122_935_296, 0, 54, 122_969_088, late),
        Call::Advance(Side::Sound, 67_584, 122_935_296),
        Call::Write(Side::Console, 122_935_296, 0, 54, 122_969_088, Ok(())),
        Call::Read(Side::Sound, 67_584, 0, Ok(2)),
        Call::Read(Side::Sound, 101_376, 0, Ok(3)),
    ];
    let mut log = PortLog::new(rt.alloc(), Region::Ntsc)?;
    let refused = first_refused_of_a_window(&mut log);
    let wrong = first_wrong(&mut log, Region::Ntsc, &next);
    assert_eq!(rt; (refused, wrong), (None, None));
    Ok(())
}
