// What the player of sound files reads from such a file.
ghost use Rattle.std.specs.Prelude.{◌≡◌, List, ℕ, None, length};
ghost use Rattle.spc_tables.specs.declared.regs.SpcRegs.{SpcRegs};
ghost use Rattle.audio_side.specs.HardwareState.{HardwareState};
ghost use Rattle.audio_side.specs.Kept.{kept_ram};
ghost use Rattle.state_file.specs.Bytes.{shown_below};
ghost use Rattle.spc_player.specs.SoundFile.{image_of, refusal_of};
ghost use Rattle.sound_file.specs.Bytes.{sound_bytes};

/// States that the reader of `play` accepts a sound file, and what it reads from it: the registers, RAM as the
/// processor sees it with the registers F1 to FF, and what the registers of the S-DSP show.
#[tactic(none)]
pub fn a_sound_file_is_read()
    ensures accepted { (regs : SpcRegs) (b : HardwareState) (ports : List ℕ) → length b.ram ≡ 65536 → refusal_of (sound_bytes regs b ports) ≡ None }
    ensures image { (regs : SpcRegs) (b : HardwareState) (ports : List ℕ) → length b.ram ≡ 65536
        → image_of (sound_bytes regs b ports) ≡ record { regs = regs; ram = kept_ram b ports; dsp = shown_below b.voices 128 } }
    ensures size { (regs : SpcRegs) (b : HardwareState) (ports : List ℕ) → length b.ram ≡ 65536 → length (sound_bytes regs b ports) ≡ 66048 }
{}
