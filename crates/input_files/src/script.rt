ghost use Rattle.std.specs.Prelude.{◌≡◌, ℕ, Ok, Err, IfOk};
ghost use Rattle.input_files.specs.Script.{script_of};

use crate::reading::Reading;
use bstr::ByteSlice;
use snes_defs::Spans;
use std::alloc::Global;

/// Why a script was not read.
#[derive(Clone, Copy)]
pub enum ScriptEnd {
    /// The first invalid line, by its number from 1.
    Line(u32),
    /// The allocation of its spans and resets failed.
    NoMemory,
}

/// Reads a controller script.
///
/// Lines end with LF or CR LF, and the last end may be missing. The first line may be `version`, 2 or 3, and `ntsc`
/// or `pal`. The script is then of that version and region, otherwise of version 1 and NTSC. Version 3 chooses the
/// second profile, versions 1 and 2 the first. An empty line says nothing. In versions 2 and 3 a line `reset` begins
/// the next frame with a reset. Every other line is `COUNT PAD1 PAD2`: COUNT frames with these pads.
///
/// The first invalid line is reported by its number. Invalid is a line of none of these forms, or at which the
/// counts' sum passes 36,000. So is a reset at the sum 0, or a second one at the same sum.
#[tactic(auto, unfolding(crate::specs::Script::script_of))]
pub fn read_script(alloc: Global, file: &[u8]) -> Result<Spans, ScriptEnd>
    ensures script { IfOk result (λ script. script_of file.now ≡ Ok script) }
    ensures refused { (line : ℕ) → result ≡ Err (ScriptEnd.Line line) → script_of file.now ≡ Err line }
{
    let mut reading = Reading::new(alloc);
    let mut number = 1u32;
    for line in file.lines() {
        reading.take(number, line)?;
        number = number.saturating_add(1);
    }
    Ok(reading.script())
}
