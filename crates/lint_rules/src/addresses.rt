//! Addresses of the processor, its stack, and instructions that a program rarely means.

ghost use Rattle.std.specs.Prelude.{◌≡◌};
ghost use Rattle.lint_rules.specs.Places.{is_memory, address_broken, opcode_broken, stack_broken};

use crate::rule::Rule;

/// What lies at an address of the processor.
#[derive(Clone, Copy)]
pub enum At {
    /// A byte of work RAM.
    Wram,
    /// A byte of the cartridge's ROM.
    Rom,
    /// A byte of the cartridge's RAM.
    Ram,
    /// A register.
    Register,
    /// Nothing.
    Nothing,
}

/// An access of the processor.
#[derive(Clone, Copy)]
pub enum Access {
    /// A byte of an instruction.
    Fetch,
    /// A read of data.
    Read,
    /// A write.
    Write,
}

/// Whether a memory lies there.
fn is_memory(at: At) -> bool
    ensures { result ≡ is_memory at }
{
    match at {
        At::Wram | At::Rom | At::Ram => true,
        At::Register | At::Nothing => false,
    }
}

/// Returns the rule that an access breaks by what lies at its address.
///
/// Source: fullsnes, "SNES Memory Map".
pub fn address_rule(access: Access, at: At) -> Option<Rule>
    ensures { result ≡ address_broken access at }
{
    match access {
        Access::Fetch => {
            if is_memory(at) {
                None
            } else {
                Some(Rule::RunsOutsideMemory)
            }
        }
        Access::Read => match at {
            At::Nothing => Some(Rule::OpenBus),
            _ => None,
        },
        Access::Write => match at {
            At::Nothing => Some(Rule::WriteToNothing),
            At::Rom => Some(Rule::WriteToRom),
            _ => None,
        },
    }
}

/// Returns the rule of an instruction that a program rarely means.
pub fn opcode_rule(opcode: u8) -> Option<Rule>
    ensures { result ≡ opcode_broken opcode }
{
    match opcode {
        0x00 => Some(Rule::Brk),
        0x02 => Some(Rule::Cop),
        0x42 => Some(Rule::Wdm),
        0xdb => Some(Rule::Stp),
        _ => None,
    }
}

/// Returns the rule that a stack pointer breaks: the stack is in bank 00, where work RAM ends at 1FFF.
pub fn stack_rule(pointer: u16) -> Option<Rule>
    ensures { result ≡ stack_broken pointer }
{
    if 0x2000 <= pointer {
        Some(Rule::StackOutsideWram)
    } else {
        None
    }
}
