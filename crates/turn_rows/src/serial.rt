ghost use Rattle.std.specs.Prelude.{◌≡◌, [], IfOk};
ghost use Rattle.side_law.specs.Tape.{IsBeat};

use serial_console::Serial;
use side_law::{Beat, Machine, Tape};
use snes_defs::{Act, Region, Side};
use std::alloc::Global;
use std::test::Fail;

/// Returns a tape of one beat.
fn tape(alloc: Global, region: Region, rise: u64, act: Act) -> Result<Tape, Fail>
    requires { IsBeat region (record { rise = rise; act = act }) }
    ensures starts { IfOk result (λ t. t.state.stamp ≡ 0) }
    ensures empty { IfOk result (λ t. t.waiting ≡ []) }
{
    let beats = vec![in alloc; Beat { rise, act }]?;
    Ok(Tape::new(alloc, region, beats)?)
}

/// Two turns of a console's beat and a sound side's, and the bytes that each side has emitted then.
#[test]
fn sound_reads_what_is_written_at_its_stamp(rt: HostRuntime) -> Result<(), Fail> {
    let console = tape(rt.alloc(), Region::Ntsc, 33_792, Act::Write(0, 7))?;
    let sound = tape(rt.alloc(), Region::Ntsc, 118_125, Act::Read(0))?;
    let mut serial = Serial::new(console, sound);
    assert_eq!(rt; serial.turn(), Side::Console);
    assert_eq!(rt; serial.turn(), Side::Sound);
    let mut bytes = [0; 4];
    let drained = serial.sound().drain(&mut bytes);
    let pending = serial.console().pending();
    assert_eq!(rt; (drained, bytes[0], pending), (1, 7, 0));
    Ok(())
}

#[test]
fn console_does_not_read_what_is_written_at_its_stamp(rt: HostRuntime) -> Result<(), Fail> {
    let console = tape(rt.alloc(), Region::Ntsc, 33_792, Act::Read(0))?;
    let sound = tape(rt.alloc(), Region::Ntsc, 118_125, Act::Write(0, 7))?;
    let mut serial = Serial::new(console, sound);
    assert_eq!(rt; serial.turn(), Side::Console);
    assert_eq!(rt; serial.turn(), Side::Sound);
    let mut bytes = [9; 4];
    let drained = serial.console().drain(&mut bytes);
    let pending = serial.sound().pending();
    assert_eq!(rt; (drained, bytes[0], pending), (1, 0, 0));
    Ok(())
}

#[test]
fn sound_reads_what_is_written_at_its_stamp_in_pal(rt: HostRuntime) -> Result<(), Fail> {
    let console = tape(rt.alloc(), Region::Pal, 614_400, Act::Write(0, 7))?;
    let sound = tape(rt.alloc(), Region::Pal, 2_128_137, Act::Read(0))?;
    let mut serial = Serial::new(console, sound);
    assert_eq!(rt; serial.turn(), Side::Console);
    assert_eq!(rt; serial.turn(), Side::Sound);
    let mut bytes = [0; 4];
    let drained = serial.sound().drain(&mut bytes);
    assert_eq!(rt; (drained, bytes[0]), (1, 7));
    Ok(())
}
