ghost use Rattle.std.specs.Prelude.{◌≡◌, ◌+◌, ◌≤◌, length};

use processor_laws::flat::run;
use spc700::{Spc, SpcAccess, SpcRegs};
use std::process::Abort;
use std::test::Fail;

/// A program that sets up timer 0, waits for its counter, and copies two of its reads into ports.
static TIMER_PROGRAM: [u8; 21] = [
    0x8F, 0x01, 0xFA, // MOV FA,#01: the target
    0x8F, 0x81, 0xF1, // MOV F1,#81: on
    0x8D, 0x13, // MOV Y,#13
    0xFE, 0xFE, // DBNZ Y, to itself
    0x00, // NOP
    0xE4, 0xFD, 0xC4, 0xF4, // MOV A,FD, MOV F4,A
    0xE4, 0xFD, 0xC4, 0xF5, // MOV A,FD, MOV F5,A
    0x2F, 0xFE, // BRA to itself
];

/// Puts bytes into the memory.
fn load(memory: &mut [u8], at: usize, bytes: &[u8])
    requires { at + length bytes.now ≤ length memory.old }
{
    for (i, byte) in bytes.iter().enumerate() {
        memory[at + i] = *byte;
    }
}

/// Returns registers at 0200, with a stack pointer.
fn registers(a: u8, x: u8, y: u8, psw: u8) -> SpcRegs {
    SpcRegs {
        a,
        x,
        y,
        sp: 0xEF,
        pc: 0x0200,
        psw,
    }
}

#[test]
fn division_gives_quotient_and_remainder(rt: HostRuntime) -> Result<(), Fail> {
    let mut bytes = vec![in rt.alloc(); 0u8; 65536]?;
    let memory = bytes.as_mut_slice();
    memory[0x0200] = 0x9E; // DIV YA,X
    let mut spc = Spc::at(registers(7, 2, 0, 0x4A));
    run(&mut spc, memory, 12);
    let expected = SpcRegs {
        a: 3,
        y: 1,
        pc: 0x0201,
        psw: 0,
        ..registers(7, 2, 0, 0x4A)
    };
    assert_eq!(rt; spc.regs(), expected, "V and H are clear");
    Ok(())
}

#[test]
fn product_of_the_largest_bytes(rt: HostRuntime) -> Result<(), Fail> {
    let mut bytes = vec![in rt.alloc(); 0u8; 65536]?;
    let memory = bytes.as_mut_slice();
    memory[0x0200] = 0xCF; // MUL YA
    let mut spc = Spc::at(registers(0xFF, 0, 0xFF, 0x02));
    run(&mut spc, memory, 9);
    let expected = SpcRegs {
        a: 0x01,
        y: 0xFE,
        pc: 0x0201,
        psw: 0x80,
        ..registers(0xFF, 0, 0xFF, 0x02)
    };
    assert_eq!(rt; spc.regs(), expected, "N is set and Z is clear");
    Ok(())
}

/// Makes the given number of accesses, and asserts which one is next. `then` names the moment.
fn expect_next<R: Abort>(
    rt: &R,
    spc: &mut Spc,
    memory: &mut [u8],
    accesses: u64,
    next: SpcAccess,
    then: &str,
)
    requires { length memory.old ≡ 65536 }
{
    run(spc, memory, accesses);
    assert_eq!(rt; spc.next(), next, "{then}");
}

#[test]
fn timer_program_reads_the_counter_at_its_cycles(rt: HostRuntime) -> Result<(), Fail> {
    let mut bytes = vec![in rt.alloc(); 0u8; 65536]?;
    let memory = bytes.as_mut_slice();
    load(memory, 0xFFC0, &TIMER_PROGRAM);
    let mut spc = Spc::new(0xFFC0);
    let timer_on = SpcAccess::Write(0x00F1, 0x81);
    let counter_read = SpcAccess::Read(0x00FD);
    expect_next(&rt, &mut spc, memory, 9, timer_on, "cycle 9");
    expect_next(&rt, &mut spc, memory, 119, counter_read, "cycle 128");
    memory[0x00FD] = 1;
    let one_copied = SpcAccess::Write(0x00F4, 1);
    expect_next(&rt, &mut spc, memory, 4, one_copied, "cycle 132");
    memory[0x00FD] = 0;
    expect_next(&rt, &mut spc, memory, 3, counter_read, "cycle 135");
    let zero_copied = SpcAccess::Write(0x00F5, 0);
    expect_next(&rt, &mut spc, memory, 4, zero_copied, "cycle 139");
    Ok(())
}
