// The bytes of an instruction in the memory, and the bus once it is told of an instruction.
ghost use Rattle.std.specs.Prelude.{◌≡◌, ◌+◌, ◌/◌, ◌%◌, ◌<◌, ◌≤◌, ◌^◌, IfSome, slice_index};
ghost use Rattle.beam.specs.Places.{clocks_left};
ghost use Rattle.console_bus.specs.Memory.{IsMemoryAt, IsStretch, stored};
ghost use Rattle.console_bus.specs.Places.{on_bus};
ghost use Rattle.console_steps.specs.AtOnce.{gone_on};
ghost use Rattle.cpu_modes.specs.Addresses.{join, second};
ghost use Rattle.whole_instructions.specs.Fetching.{HasCode, past};

use console_bus::{Bus, MemoryAccess};
use cpu_modes::{Reach, code_address, second_address};
use cpu_tables::Regs;

/// The number of the last byte of a page of the memory, from 0.
const LAST_OF_PAGE: u32 = 8191;

/// The bytes of an instruction in the memory.
#[derive(Clone, Copy)]
pub(crate) struct Code {
    /// The byte of the memory with the opcode. The three after it lie in the same page.
    pub(crate) at: usize,
    /// The master clocks of a fetch.
    pub(crate) clocks: u16,
}

impl Code {
    /// Returns the bytes of the instruction that begins with these registers. None if four bytes don't lie in one page
    /// of the memory.
    #[tactic(auto, using(crate::proofs::Fetches::has_code))]
    #[inline(always)]
    pub(crate) fn of(regs: &Regs, bus: &Bus) -> Option<Code>
        ensures code { IfSome result (λ code. HasCode bus.now regs.now code.at code.clocks) }
    {
        if regs.pc % 8192 > 8188 {
            return None;
        }
        let access = bus.stretch_at(code_address(regs))?;
        Some(Code {
            at: access.at,
            clocks: access.clocks,
        })
    }

    /// Returns the opcode.
    #[tactic(auto, using(crate::proofs::Fetches::inside_first))]
    #[inline(always)]
    pub(crate) fn opcode(self, regs: &Regs, bus: &Bus) -> u8
        requires { HasCode bus.now regs.now self.at self.clocks }
        ensures { result ≡ slice_index bus.now.memory self.at }
    {
        let _regs = regs;
        bus.load(self.at)
    }

    /// Returns the byte after the opcode.
    #[tactic(auto, using(crate::proofs::Fetches::inside))]
    #[inline(always)]
    pub(crate) fn first(self, regs: &Regs, bus: &Bus) -> u8
        requires { HasCode bus.now regs.now self.at self.clocks }
        ensures { result ≡ slice_index bus.now.memory (self.at + 1) }
    {
        let _regs = regs;
        bus.load(self.at + 1)
    }

    /// Returns the second byte after the opcode.
    #[tactic(auto, using(crate::proofs::Fetches::inside))]
    #[inline(always)]
    pub(crate) fn second(self, regs: &Regs, bus: &Bus) -> u8
        requires { HasCode bus.now regs.now self.at self.clocks }
        ensures { result ≡ slice_index bus.now.memory (self.at + 2) }
    {
        let _regs = regs;
        bus.load(self.at + 2)
    }

    /// Returns the third byte after the opcode.
    #[tactic(auto, using(crate::proofs::Fetches::inside))]
    #[inline(always)]
    pub(crate) fn third(self, regs: &Regs, bus: &Bus) -> u8
        requires { HasCode bus.now regs.now self.at self.clocks }
        ensures { result ≡ slice_index bus.now.memory (self.at + 3) }
    {
        let _regs = regs;
        bus.load(self.at + 3)
    }

    /// Returns a byte after the opcode by its number, 0 for the opcode itself.
    #[tactic(auto, using(crate::proofs::Fetches::inside))]
    #[inline(always)]
    pub(crate) fn operand(self, regs: &Regs, bus: &Bus, number: u16) -> u8
        requires code { HasCode bus.now regs.now self.at self.clocks }
        requires number { number ≤ 3 }
        ensures { result ≡ slice_index bus.now.memory (self.at + number) }
    {
        let _regs = regs;
        bus.load(self.at + number as usize)
    }

    /// Returns the word of the two bytes after the opcode.
    #[inline(always)]
    pub(crate) fn word(self, regs: &Regs, bus: &Bus) -> u16
        requires { HasCode bus.now regs.now self.at self.clocks }
        ensures { result ≡ join (slice_index bus.now.memory (self.at + 1)) (slice_index bus.now.memory (self.at + 2)) }
    {
        joined(self.first(regs, bus), self.second(regs, bus))
    }
}

/// Returns the word of a low byte and a high byte.
#[inline(always)]
pub(crate) fn joined(low: u8, high: u8) -> u16
    ensures { result ≡ join low high }
{
    low as u16 % 256 + 256 * high as u16
}

/// Ends an instruction of so many bytes: the program counter passes them, and the bus is told of its clocks and of the
/// byte last on it.
#[inline(always)]
pub(crate) fn pass(regs: &mut Regs, bus: &mut Bus, bytes: u16, last: u8, clocks: u16)
    requires { clocks < clocks_left bus.old.beam }
    ensures registers { regs.new ≡ past regs.old bytes }
    ensures told { bus.new ≡ gone_on (on_bus bus.old last) clocks }
{
    regs.pc = regs.pc.wrapping_add(bytes);
    bus.put(last);
    bus.go_on(clocks);
}

/// Returns the access of the low byte of data, or of its only one. None if the address isn't memory.
#[tactic(auto, using(crate::proofs::Fetches::first_byte))]
#[inline(always)]
pub(crate) fn low_access(bus: &Bus, to: u32) -> Option<MemoryAccess>
    requires { to < 2 ^ 24 }
    ensures stretch { IfSome result (λ access. IsStretch bus.now.board bus.now.io.fast to access.at access.clocks) }
    ensures memory { IfSome result (λ access. IsMemoryAt bus.now.board bus.now.io.fast to access.at access.clocks) }
    ensures few { IfSome result (λ access. access.clocks < 256) }
    ensures inside { IfSome result (λ access. access.at < 131072 + bus.now.board.ram + bus.now.board.rom) }
    ensures below { IfSome result (λ access. access.at < 2 ^ 33) }
{
    bus.stretch_at(to)
}

/// Returns the access of the high byte of data whose low byte is accessed so. None if that is the last byte of a page,
/// or the high byte isn't at the next address.
#[tactic(auto, using(crate::proofs::Fetches::next_byte))]
#[inline(always)]
pub(crate) fn high_access(
    bus: &Bus,
    reach: Reach,
    to: u32,
    low: MemoryAccess,
) -> Option<MemoryAccess>
    requires address { to < 2 ^ 24 }
    requires stretch { IsStretch bus.now.board bus.now.io.fast to low.at low.clocks }
    requires below { low.at < 2 ^ 33 }
    ensures memory { IfSome result
        (λ access. IsMemoryAt bus.now.board bus.now.io.fast (second reach to) access.at access.clocks) }
    ensures clocks { IfSome result (λ access. access.clocks ≡ low.clocks) }
    ensures inside { IfSome result (λ access. access.at < 131072 + bus.now.board.ram + bus.now.board.rom) }
{
    let _bus = bus;
    if to % 8192 == LAST_OF_PAGE || second_address(reach, to) != to + 1 {
        return None;
    }
    Some(MemoryAccess {
        at: low.at + 1,
        clocks: low.clocks,
    })
}

/// Returns registers whose program counter has passed so many bytes.
#[inline(always)]
pub(crate) fn passed(regs: &Regs, bytes: u16) -> Regs
    ensures { result ≡ past regs.now bytes }
{
    let mut after = *regs;
    after.pc = after.pc.wrapping_add(bytes);
    after
}

/// Returns the low byte of a word.
#[inline(always)]
pub(crate) fn low_byte(word: u16) -> u8
    ensures { result ≡ word % 256 }
{
    (word % 256) as u8
}

/// Returns the high byte of a word.
#[inline(always)]
pub(crate) fn high_byte(word: u16) -> u8
    ensures { result ≡ word / 256 % 256 }
{
    (word / 256 % 256) as u8
}

/// Writes a byte of the memory.
#[tactic(auto, using(crate::proofs::Looks::stored_keeps))]
#[inline(always)]
pub(crate) fn write(bus: &mut Bus, at: usize, v: u8)
    requires { at < 131072 + bus.old.board.ram + bus.old.board.rom }
    ensures written { bus.new ≡ stored bus.old at v }
    ensures beam { bus.new.beam ≡ bus.old.beam }
    ensures board { bus.new.board ≡ bus.old.board }
{
    bus.store(at, v);
}
