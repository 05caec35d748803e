//! The sound side as a machine: the SPC700 with its memory, boot ROM, timers, ports and the S-DSP.
//!
//! Builds on `spc700`, `sdsp_voice` and `sdsp_echo`, and implements `side_law`'s trait `Machine`. One step is one
//! cycle of the processor, or a reset that takes one cycle. Each step is exactly that of `specs/Sound.antt`. After
//! the access of a cycle the timers tick. The last of every 32 cycles makes a sample and emits its four bytes. If a
//! step reads a port, the caller passes it the incoming byte. The other side's bytes are not part of this machine.
//! `advance.rt` runs many steps in one call, with the ports behind the machine as a value of the trait `Ports`.
#![tactic(auto)]

mod advance;
mod apart;
mod clock;
mod from_parts;
mod hardware;
mod instructions;
mod kept;
mod parts;
mod port_runs;
mod side;
mod step;
mod timer;

pub use side::AudioSide;
