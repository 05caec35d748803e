//! What the rules have to know of the sound side's past, and each of its steps as they see it.

use audio_side::AudioSide;
use lint_moments::Now;
use lint_rules::{
    Cause, Echo, EndxPolls, Finding, Findings, Rule, Unit, Written, key_off_rule, key_on_rule,
    selector_rule,
};
use spc_tables::SpcAccess;
use std::alloc::{AllocError, Global};

/// The bytes of sound RAM, and the address at which the boot ROM lies over it.
const RAM: usize = 65_536;

const BOOT: u16 = 0xffc0;

/// The register of the S-DSP that says which voices have ended.
const ENDX: u8 = 0x7c;

/// What is kept of the sound side's past.
#[derive(Drop)]
pub struct SoundWatch {
    /// The cycles of the SPC700.
    cycle: u64,
    /// The byte of F2: the register of the DSP that F3 accesses.
    selector: u8,
    /// The cycle in which KON was last written with a bit set.
    on: Option<u64>,
    /// The byte of KOFF, and the cycle in which it was written.
    off: u8,
    off_since: u64,
    /// Whether the boot ROM is seen.
    boot_seen: bool,
    /// Which bytes of sound RAM the SPC700 has written, and which it wrote last with another byte than 0.
    written: Written,
    filled: Written,
    /// The echo buffer.
    echo: Echo,
    polls: EndxPolls,
}

/// Adds a finding, if a rule was broken by an instruction of the SPC700.
fn tell(
    findings: &mut Findings,
    rule: Option<Rule>,
    sound: &AudioSide,
    detail: u16,
    now: &Now,
) -> Result<(), AllocError> {
    match rule {
        Some(rule) => {
            let cause = Cause {
                unit: Unit::Sound,
                address: u32::from(sound.processor().regs().pc),
            };
            let detail = u32::from(detail);
            findings.add(Finding::new(rule, cause, detail, now.moment()))
        }
        None => Ok(()),
    }
}

/// Whether an address is that of a register, F0 to FF.
fn is_register(at: u16) -> bool {
    0xf0 <= at && at <= 0xff
}

impl SoundWatch {
    /// Returns the state before the first step.
    pub fn new(alloc: Global) -> Result<SoundWatch, AllocError> {
        let written = Written::nothing(alloc, RAM)?;
        let filled = Written::nothing(alloc, RAM)?;
        Ok(SoundWatch {
            cycle: 0,
            selector: 0,
            on: None,
            off: 0,
            off_since: 0,
            boot_seen: true,
            written,
            filled,
            echo: Echo {
                flags: 0xe0,
                start: 0,
                delay: 0,
            },
            polls: EndxPolls {
                by: 0,
                last: 0,
                count: 0,
            },
        })
    }

    /// Forgets what a reset sets back.
    pub fn reset(&mut self) {
        self.boot_seen = true;
        self.echo.flags = 0xe0;
    }

    /// Whether a byte of sound RAM lies at an address, and neither a register nor the boot ROM.
    fn is_ram(&self, at: u16) -> bool {
        !is_register(at) && !(self.boot_seen && BOOT <= at)
    }

    /// Returns the rule that a write of KON breaks.
    fn write_on(&mut self, byte: u8) -> Option<Rule> {
        let rule = key_on_rule(self.on, self.cycle);
        if byte != 0 {
            self.on = Some(self.cycle);
        }
        rule
    }

    /// Returns the rule that a write of KOFF breaks.
    fn write_off(&mut self, byte: u8) -> Option<Rule> {
        let rule = key_off_rule(self.off, self.off_since, byte, self.cycle);
        self.off = byte;
        self.off_since = self.cycle;
        rule
    }

    /// Returns the first byte of the echo buffer that the program has filled, if there is one.
    fn filled_in_echo(&self) -> Option<u16> {
        let first = 256 * u16::from(self.echo.start);
        for behind in 0..self.echo.size() {
            let at = first.wrapping_add(behind);
            if self.filled.has(usize::from(at)) && self.echo.covers(at) {
                return Some(at);
            }
        }
        None
    }

    /// Takes note of the echo buffer that a write to the DSP made, and checks what lies there, if the buffer is another one.
    fn move_echo(
        &mut self,
        findings: &mut Findings,
        sound: &AudioSide,
        byte: u8,
        now: &Now,
    ) -> Result<(), AllocError> {
        let before = self.echo;
        match self.selector {
            // FLG, of which bit 5 counts; ESA; EDL.
            0x6c => self.echo.flags = byte / 32 % 2 * 32,
            0x6d => self.echo.start = byte,
            0x7d => self.echo.delay = byte % 16,
            _ => return Ok(()),
        }
        if self.echo == before || self.echo.flags != 0 {
            return Ok(());
        }
        match self.filled_in_echo() {
            Some(at) => tell(findings, self.echo.rule(at), sound, at, now),
            None => Ok(()),
        }
    }

    /// Sees a write of F3.
    fn write_dsp(
        &mut self,
        findings: &mut Findings,
        sound: &AudioSide,
        byte: u8,
        now: &Now,
    ) -> Result<(), AllocError> {
        let rule = match self.selector {
            0x4c => self.write_on(byte),
            0x5c => self.write_off(byte),
            register => selector_rule(register),
        };
        tell(findings, rule, sound, u16::from(self.selector), now)?;
        self.move_echo(findings, sound, byte, now)
    }

    /// Sees a write to a register or to RAM.
    fn write(
        &mut self,
        findings: &mut Findings,
        sound: &AudioSide,
        at: u16,
        byte: u8,
        now: &Now,
    ) -> Result<(), AllocError> {
        match at {
            0xf1 => self.boot_seen = 128 <= byte,
            0xf2 => self.selector = byte,
            0xf3 => return self.write_dsp(findings, sound, byte, now),
            _ => {}
        }
        if is_register(at) {
            return Ok(());
        }
        self.written.write(usize::from(at));
        // The pointer of the boot ROM is of no use after it.
        let is_pointer = at < 2 && self.boot_seen && BOOT <= sound.processor().regs().pc;
        let is_filled = byte != 0 && !is_pointer;
        self.filled.put(usize::from(at), is_filled);
        if !is_filled {
            return Ok(());
        }
        tell(findings, self.echo.rule(at), sound, at, now)
    }

    /// Returns the rule that a read of RAM breaks. What the S-DSP writes to the echo buffer counts as written.
    fn read_ram(&mut self, at: u16) -> Option<Rule> {
        if self.is_ram(at) && self.written.read(usize::from(at)) && !self.echo.covers(at) {
            Some(Rule::AramBeforeWrite)
        } else {
            None
        }
    }

    /// Returns the rule that the fetch of a byte of an instruction breaks.
    fn execute(&self, at: u16) -> Option<Rule> {
        if self.is_ram(at) {
            self.echo.rule(at)
        } else {
            None
        }
    }

    /// Returns the rule that a read of F3 breaks.
    fn read_dsp(&mut self, by: u16) -> Option<Rule> {
        if self.selector != ENDX {
            return None;
        }
        self.polls.add(by, self.cycle);
        self.polls.rule()
    }

    /// Sees the next step of the sound side.
    pub fn see(
        &mut self,
        findings: &mut Findings,
        sound: &AudioSide,
        now: &Now,
    ) -> Result<(), AllocError> {
        self.cycle = self.cycle.saturating_add(1);
        match sound.processor().next() {
            SpcAccess::Write(at, byte) => self.write(findings, sound, at, byte, now),
            SpcAccess::Read(0xf3) => {
                let rule = self.read_dsp(sound.processor().regs().pc);
                tell(findings, rule, sound, u16::from(ENDX), now)
            }
            SpcAccess::Read(at) => {
                let rule = self.read_ram(at);
                tell(findings, rule, sound, at, now)
            }
            SpcAccess::Fetch(at) => {
                let rule = self.read_ram(at);
                tell(findings, rule, sound, at, now)?;
                tell(findings, self.execute(at), sound, at, now)
            }
            SpcAccess::Inner => Ok(()),
        }
    }
}
