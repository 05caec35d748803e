//! Messages at the end of a trace, if a machine has stopped or waits for ever: a black picture doesn't show it.
//!
//! They go to standard error, so that standard output has the trace alone.

use crate::pair::Pair;
use audio_side::AudioSide;
use console_machine::ConsoleSide;
use cpu_tables::Access;
use std::io;

/// The address at which the boot ROM begins.
const BOOT_ROM: u16 = 0xffc0;

/// The opcode of STP.
const STP: u8 = 0xdb;

/// Returns where the 65C816 has stopped for good, if it has: an internal cycle is next, and the instruction is STP.
fn stopped_console(console: &ConsoleSide) -> Option<u32> {
    let regs = console.processor().regs();
    let at = u32::from(regs.pc) + 65_536 * u32::from(regs.pbr);
    if console.processor().next() == Access::Inner && console.bus().take(at) == STP {
        Some(at)
    } else {
        None
    }
}

/// Returns where the SPC700 has stopped for good, if it has.
fn stopped_sound(sound: &AudioSide) -> Option<u16> {
    if sound.processor().is_halted() {
        Some(sound.processor().regs().pc)
    } else {
        None
    }
}

/// Whether the sound side runs its boot ROM, which offers AA and BB and has not got CC in answer.
fn waits(sound: &AudioSide, to_sound: [u8; 4], to_console: [u8; 4]) -> bool {
    let [answer, ..] = to_sound;
    let [first, second, ..] = to_console;
    first == 0xaa && second == 0xbb && answer != 0xcc && sound.processor().regs().pc >= BOOT_ROM
}

/// Prints which processors have stopped for good, and whether the sound side still waits in its boot ROM.
pub fn tell_ends(rt: &impl Eprint, pair: &Pair) -> io::Result<()> {
    let (console, sound) = pair.machines();
    let (to_sound, to_console) = pair.ports();
    if let Some(at) = stopped_console(console) {
        eprintln!(rt; "trace: where it ends the console's processor has stopped: STP at {at:06X}")?;
    }
    if let Some(at) = stopped_sound(sound) {
        eprintln!(rt;
            "trace: where it ends the sound side's processor has stopped: SLEEP or STOP at {at:04X}"
        )?;
    }
    if waits(sound, to_sound, to_console) {
        let [answer, ..] = to_sound;
        eprintln!(rt;
            "trace: where it ends the sound side waits in its boot ROM: it shows AA and BB, and port 0 has {answer:02X}, not CC",
        )?;
    }
    Ok(())
}
