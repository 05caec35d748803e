// What a sound file keeps of a sound side.
ghost use Rattle.std.specs.Prelude.{◌≡◌, ◌<◌, IfSome, length};
ghost use Rattle.spc700.specs.Instruction.{between};
ghost use Rattle.spc700.specs.Stands.{Stands, begins_with};
ghost use Rattle.sdsp_voice.specs.Registers.{read};
ghost use Rattle.audio_side.specs.Kept.{control_of, kept_ram, ports_kept, seen_ram, timers_kept, under_boot, weight_of};

use crate::hardware::Hardware;
use crate::side::AudioSide;
use spc700::SpcRegs;

/// The weight if the bit is set, else 0.
fn weight(on: bool, weight: u8) -> u8
    ensures { result ≡ weight_of on weight }
{
    if on { weight } else { 0 }
}

/// F1.
#[tactic(auto, unfolding(crate::specs::Kept::control_of))]
fn control(hardware: &Hardware) -> u8
    ensures { result ≡ control_of hardware.now }
{
    weight(hardware.boot_seen, 128)
        + weight(hardware.timer2.on, 4)
        + weight(hardware.timer1.on, 2)
        + weight(hardware.timer0.on, 1)
}

/// Puts the boot ROM over the last 64 bytes of RAM.
#[tactic(auto, using(crate::proofs::BootOver::no_byte, crate::proofs::BootOver::one_more_byte))]
fn put_boot(boot: &[u8; 64], into: &mut [u8])
    requires { length into.old ≡ 65536 }
    ensures value { into.new ≡ under_boot into.old boot.now 64 }
    ensures size { length into.new ≡ 65536 }
{
    'bytes: for n in 0..64 {
        into[0xFFC0 + n] = boot[n];
    }
}

/// RAM as the processor sees it.
#[tactic(auto, unfolding(crate::specs::Kept::seen_ram))]
fn copy_seen(hardware: &Hardware, into: &mut [u8])
    requires { length into.old ≡ 65536 }
    ensures { into.new ≡ seen_ram hardware.now }
{
    into.copy_from_slice(hardware.ram.as_slice());
    if hardware.boot_seen {
        put_boot(&hardware.boot, into);
    }
}

/// The bytes of the ports.
#[tactic(auto, unfolding(crate::specs::Kept::ports_kept))]
fn keep_ports(ports: [u8; 4], into: &mut [u8])
    requires { length into.old ≡ 65536 }
    ensures { into.new ≡ ports_kept into.old ports }
{
    into[0xF4] = ports[0];
    into[0xF5] = ports[1];
    into[0xF6] = ports[2];
    into[0xF7] = ports[3];
}

/// The targets and the counters.
#[tactic(auto, unfolding(crate::specs::Kept::timers_kept))]
fn keep_timers(hardware: &Hardware, into: &mut [u8])
    requires { length into.old ≡ 65536 }
    ensures { into.new ≡ timers_kept hardware.now into.old }
{
    into[0xFA] = hardware.timer0.target;
    into[0xFB] = hardware.timer1.target;
    into[0xFC] = hardware.timer2.target;
    into[0xFD] = hardware.timer0.counter;
    into[0xFE] = hardware.timer1.counter;
    into[0xFF] = hardware.timer2.counter;
}

impl AudioSide {
    /// The registers with which the next instruction begins, if the last one has ended.
    pub fn begins(&self) -> Option<SpcRegs>
        ensures now { result ≡ begins_with self.now.processor }
        ensures standing { IfSome result (λ regs. Stands self.now.processor (between regs)) }
    {
        self.parts.spc.begins()
    }

    /// Copies the RAM of a sound file into `into`. It is the bytes of RAM, with the boot ROM in its place if it is
    /// seen. Under F1, F2, F4 to F7 and FA to FF it has what those registers hold. `ports` are the incoming bytes.
    #[tactic(auto, unfolding(crate::specs::Kept::kept_ram))]
    pub fn keep_ram(&self, ports: [u8; 4], into: &mut [u8])
        requires { length into.old ≡ 65536 }
        ensures { into.new ≡ kept_ram self.now.hardware ports }
    {
        let hardware = &self.parts.hardware;
        copy_seen(hardware, into);
        into[0xF1] = control(hardware);
        into[0xF2] = hardware.address;
        keep_ports(ports, into);
        keep_timers(hardware, into);
    }

    /// The 65,536 bytes of RAM, those under the boot ROM and under the registers F0 to FF too.
    pub fn ram(&self) -> &[u8]
        ensures bytes { result.now ≡ self.now.hardware.ram }
        ensures size { length result.now ≡ 65536 }
    {
        self.parts.hardware.ram.as_slice()
    }

    /// The byte that a register of the S-DSP shows.
    pub fn dsp(&self, register: u8) -> u8
        requires { register < 128 }
        ensures { result ≡ read self.now.hardware.voices register }
    {
        self.parts.hardware.voices.read(register)
    }
}
