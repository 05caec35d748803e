ghost use Rattle.std.specs.Prelude.{◌≡◌, ◌*◌, ℕ, List};
ghost use Rattle.spc_tables.specs.declared.regs.SpcRegs.{SpcRegs};
ghost use Rattle.audio_side.specs.HardwareState.{HardwareState};
ghost use Rattle.spc_player.specs.Play.{output, play_start};
ghost use Rattle.sound_laws.specs.PlaysOn.{GivesBack, StaysBlind, period, file_of, goes_on};

/// States that a sound file plays what its job's sound side emits from where it was taken on, step by step.
///
/// The law has these conditions. The job is NTSC without resets. The file was taken at the start of an instruction in a
/// cycle that 983,040 divides, and gives back the hardware. From there on nobody writes to the ports, no sample reads
/// RAM that the processor doesn't see, and F1 neither shows nor hides the boot ROM.
#[tactic(none)]
pub fn a_file_plays_on()
    ensures { (regs : SpcRegs) (b : HardwareState) (dsp table ports : List ℕ) (times : ℕ)
        → GivesBack b dsp table ports → StaysBlind b.boot_seen (goes_on regs b (period * times) ports)
        → (steps : ℕ) → output (play_start (file_of regs b dsp ports) table) steps ≡ output (goes_on regs b (period * times) ports) steps }
{}
