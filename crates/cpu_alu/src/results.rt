// The result of every operation: the registers after it, and the operand that it writes or pushes.
ghost use Rattle.std.specs.Prelude.{◌≡◌, ◌+◌, ◌%◌};
ghost use Rattle.cpu_tables.specs.Status.{index_size};
ghost use Rattle.cpu_alu.specs.Changes.{
  clear_bits,
  decrement,
  increment,
  set_bits,
  shift_left,
  shift_right,
  rotate_left,
  rotate_right,
};
ghost use Rattle.cpu_alu.specs.Results.{
  apply_of,
  changed,
  changed_by_a,
  is_accumulator,
  is_immediate,
  operand_written,
  registers_after,
};

use crate::changes::{
    Changed, bits_cleared, bits_set, change_operand, decremented, incremented, rotated_left,
    rotated_right, shifted_left, shifted_right, with_changed,
};
use crate::flow::{
    after_reset, block_moved, branched, far_place, interrupted, jumped, returned_from_interrupt,
};
use crate::registers::{
    a_wide_loaded, bank_loaded, bytes_swapped, d_loaded, flag_set, flags_cleared, flags_set,
    modes_exchanged, pushed_status, stack_set, status_set,
};
use crate::sums::{add, bits_tested, compared, subtract};
use crate::width::{
    a_loaded, accumulator_value, index_numbers, memory_numbers, x_loaded, y_loaded,
};
use cpu_tables::{CARRY, DECIMAL, IRQ_DISABLE, Mode, OVERFLOW, Op, Regs, Row};

/// Returns the registers after an instruction, and the operand that it writes or pushes (0 if there is none). The head
/// of the crate says what `regs` and `word` are.
#[inline(always)]
pub fn apply(row: Row, regs: Regs, word: u16) -> (Regs, u16)
    ensures registers { result.0 ≡ (apply_of row regs word).0 }
    ensures operand { result.1 ≡ (apply_of row regs word).1 }
{
    (
        registers_after(row, regs, word),
        operand_written(row, regs, word),
    )
}

/// Returns the registers after an instruction.
#[inline(always)]
pub fn registers_after(row: Row, regs: Regs, word: u16) -> Regs
    ensures { result ≡ registers_after row.op row.mode regs word }
{
    let mut after = regs;
    finish(&mut after, row, word);
    after
}

/// Ends an instruction: the registers become those after it. One copy serves all ends of instructions. It writes the
/// registers in place, and of them only those that the operation changes.
#[tactic(auto, unfolding(crate::specs::Results::registers_after))]
#[inline(never)]
pub fn finish(regs: &mut Regs, row: Row, word: u16)
    ensures { regs.new ≡ registers_after row.op row.mode regs.old word }
{
    let on_a = is_accumulator(row.mode);
    match row.op {
        // Sums, comparisons, logic.
        Op::Adc => add(regs, word),
        Op::Sbc => subtract(regs, word),
        Op::Cmp => *regs = compared(memory_numbers(*regs), regs.a, *regs, word),
        Op::Cpx => *regs = compared(index_numbers(*regs), regs.x, *regs, word),
        Op::Cpy => *regs = compared(index_numbers(*regs), regs.y, *regs, word),
        Op::Bit => *regs = bits_tested(is_immediate(row.mode), *regs, word),
        Op::Ora => *regs = a_loaded(*regs, (regs.a | word) as u32),
        Op::And => *regs = a_loaded(*regs, (regs.a & word) as u32),
        Op::Eor => *regs = a_loaded(*regs, (regs.a ^ word) as u32),
        // Changes of A or memory.
        Op::Asl => *regs = with_changed(on_a, *regs, asl(row.mode, *regs, word)),
        Op::Lsr => *regs = with_changed(on_a, *regs, lsr(row.mode, *regs, word)),
        Op::Rol => *regs = with_changed(on_a, *regs, rol(row.mode, *regs, word)),
        Op::Ror => *regs = with_changed(on_a, *regs, ror(row.mode, *regs, word)),
        Op::Inc => *regs = with_changed(on_a, *regs, inc(row.mode, *regs, word)),
        Op::Dec => *regs = with_changed(on_a, *regs, dec(row.mode, *regs, word)),
        Op::Tsb => *regs = with_changed(false, *regs, tsb(*regs, word)),
        Op::Trb => *regs = with_changed(false, *regs, trb(*regs, word)),
        // Steps of the indexes.
        Op::Inx => *regs = x_loaded(*regs, regs.x as u32 + 1),
        Op::Iny => *regs = y_loaded(*regs, regs.y as u32 + 1),
        Op::Dex => *regs = x_loaded(*regs, regs.x as u32 + 65535),
        Op::Dey => *regs = y_loaded(*regs, regs.y as u32 + 65535),
        // Loads and pulls.
        Op::Lda => *regs = a_loaded(*regs, word as u32),
        Op::Ldx => *regs = x_loaded(*regs, word as u32),
        Op::Ldy => *regs = y_loaded(*regs, word as u32),
        Op::Pla => *regs = a_loaded(*regs, word as u32),
        Op::Plx => *regs = x_loaded(*regs, word as u32),
        Op::Ply => *regs = y_loaded(*regs, word as u32),
        Op::Plb => *regs = bank_loaded(*regs, word),
        Op::Pld => *regs = d_loaded(*regs, word),
        Op::Plp => *regs = status_set(*regs, (word % 256) as u8),
        // Stores and pushes.
        Op::Sta => {}
        Op::Stx => {}
        Op::Sty => {}
        Op::Stz => {}
        Op::Pha => {}
        Op::Phx => {}
        Op::Phy => {}
        Op::Phb => {}
        Op::Phd => {}
        Op::Phk => {}
        Op::Php => {}
        Op::Pea => {}
        Op::Pei => {}
        Op::Per => {}
        // Transfers.
        Op::Tax => *regs = x_loaded(*regs, regs.a as u32),
        Op::Tay => *regs = y_loaded(*regs, regs.a as u32),
        Op::Tsx => *regs = x_loaded(*regs, regs.s as u32),
        Op::Txy => *regs = y_loaded(*regs, regs.x as u32),
        Op::Tyx => *regs = x_loaded(*regs, regs.y as u32),
        Op::Txa => *regs = a_loaded(*regs, regs.x as u32),
        Op::Tya => *regs = a_loaded(*regs, regs.y as u32),
        Op::Txs => *regs = stack_set(*regs, regs.x),
        Op::Tcs => *regs = stack_set(*regs, regs.a),
        Op::Tcd => *regs = d_loaded(*regs, regs.a),
        Op::Tdc => *regs = a_wide_loaded(*regs, regs.d),
        Op::Tsc => *regs = a_wide_loaded(*regs, regs.s),
        Op::Xba => *regs = bytes_swapped(*regs),
        // Flags.
        Op::Clc => *regs = flag_set(*regs, CARRY, false),
        Op::Sec => *regs = flag_set(*regs, CARRY, true),
        Op::Cli => *regs = flag_set(*regs, IRQ_DISABLE, false),
        Op::Sei => *regs = flag_set(*regs, IRQ_DISABLE, true),
        Op::Cld => *regs = flag_set(*regs, DECIMAL, false),
        Op::Sed => *regs = flag_set(*regs, DECIMAL, true),
        Op::Clv => *regs = flag_set(*regs, OVERFLOW, false),
        Op::Rep => *regs = flags_cleared(*regs, word),
        Op::Sep => *regs = flags_set(*regs, word),
        Op::Xce => *regs = modes_exchanged(*regs),
        // Branches, jumps, calls, returns.
        Op::Bpl => *regs = branched(Op::Bpl, *regs, word),
        Op::Bmi => *regs = branched(Op::Bmi, *regs, word),
        Op::Bvc => *regs = branched(Op::Bvc, *regs, word),
        Op::Bvs => *regs = branched(Op::Bvs, *regs, word),
        Op::Bcc => *regs = branched(Op::Bcc, *regs, word),
        Op::Bcs => *regs = branched(Op::Bcs, *regs, word),
        Op::Bne => *regs = branched(Op::Bne, *regs, word),
        Op::Beq => *regs = branched(Op::Beq, *regs, word),
        Op::Bra => *regs = branched(Op::Bra, *regs, word),
        Op::Brl => *regs = jumped(*regs, far_place(regs.pc, word)),
        Op::Jmp => *regs = jumped(*regs, word),
        Op::Jsr => *regs = jumped(*regs, word),
        Op::Jsl => *regs = jumped(*regs, word),
        Op::Rts => *regs = jumped(*regs, place_after(word)),
        Op::Rtl => *regs = jumped(*regs, place_after(word)),
        Op::Rti => *regs = returned_from_interrupt(*regs, word),
        // Interrupts and the reset.
        Op::Brk => *regs = interrupted(*regs, word),
        Op::Cop => *regs = interrupted(*regs, word),
        Op::Nmi => *regs = interrupted(*regs, word),
        Op::Irq => *regs = interrupted(*regs, word),
        Op::Reset => *regs = after_reset(word),
        // Block moves, and what changes no register.
        Op::Mvn => *regs = block_moved(1, *regs),
        Op::Mvp => *regs = block_moved(65535, *regs),
        Op::Nop => {}
        Op::Wdm => {}
        Op::Wai => {}
        Op::Stp => {}
    }
}

/// Ends an instruction that reads data. It does what `finish` does, and is built into a caller that knows the operation.
#[tactic(auto, unfolding(crate::specs::Results::registers_after))]
#[inline(always)]
pub fn finish_load(regs: &mut Regs, row: Row, word: u16)
    ensures { regs.new ≡ registers_after row.op row.mode regs.old word }
{
    match row.op {
        Op::Adc => add(regs, word),
        Op::Sbc => subtract(regs, word),
        Op::Cmp => *regs = compared(memory_numbers(*regs), regs.a, *regs, word),
        Op::Cpx => *regs = compared(index_numbers(*regs), regs.x, *regs, word),
        Op::Cpy => *regs = compared(index_numbers(*regs), regs.y, *regs, word),
        Op::Bit => *regs = bits_tested(is_immediate(row.mode), *regs, word),
        Op::Ora => *regs = a_loaded(*regs, (regs.a | word) as u32),
        Op::And => *regs = a_loaded(*regs, (regs.a & word) as u32),
        Op::Eor => *regs = a_loaded(*regs, (regs.a ^ word) as u32),
        Op::Lda => *regs = a_loaded(*regs, word as u32),
        Op::Ldx => *regs = x_loaded(*regs, word as u32),
        Op::Ldy => *regs = y_loaded(*regs, word as u32),
        Op::Pla => *regs = a_loaded(*regs, word as u32),
        Op::Plx => *regs = x_loaded(*regs, word as u32),
        Op::Ply => *regs = y_loaded(*regs, word as u32),
        _ => finish(regs, row, word),
    }
}

/// Ends an instruction that changes A or the memory, as `finish_load` ends one that reads.
#[tactic(auto, unfolding(crate::specs::Results::registers_after))]
#[inline(always)]
pub fn finish_change(regs: &mut Regs, row: Row, word: u16)
    ensures { regs.new ≡ registers_after row.op row.mode regs.old word }
{
    let on_a = is_accumulator(row.mode);
    match row.op {
        Op::Asl => *regs = with_changed(on_a, *regs, asl(row.mode, *regs, word)),
        Op::Lsr => *regs = with_changed(on_a, *regs, lsr(row.mode, *regs, word)),
        Op::Rol => *regs = with_changed(on_a, *regs, rol(row.mode, *regs, word)),
        Op::Ror => *regs = with_changed(on_a, *regs, ror(row.mode, *regs, word)),
        Op::Inc => *regs = with_changed(on_a, *regs, inc(row.mode, *regs, word)),
        Op::Dec => *regs = with_changed(on_a, *regs, dec(row.mode, *regs, word)),
        _ => finish(regs, row, word),
    }
}

/// Ends an instruction that makes only internal cycles, as `finish_load` ends one that reads.
#[tactic(auto, unfolding(crate::specs::Results::registers_after))]
#[inline(always)]
pub fn finish_internal(regs: &mut Regs, row: Row, word: u16)
    ensures { regs.new ≡ registers_after row.op row.mode regs.old word }
{
    match row.op {
        Op::Inx => *regs = x_loaded(*regs, regs.x as u32 + 1),
        Op::Iny => *regs = y_loaded(*regs, regs.y as u32 + 1),
        Op::Dex => *regs = x_loaded(*regs, regs.x as u32 + 65535),
        Op::Dey => *regs = y_loaded(*regs, regs.y as u32 + 65535),
        Op::Tax => *regs = x_loaded(*regs, regs.a as u32),
        Op::Tay => *regs = y_loaded(*regs, regs.a as u32),
        Op::Txa => *regs = a_loaded(*regs, regs.x as u32),
        Op::Tya => *regs = a_loaded(*regs, regs.y as u32),
        Op::Clc => *regs = flag_set(*regs, CARRY, false),
        Op::Sec => *regs = flag_set(*regs, CARRY, true),
        Op::Nop => {}
        _ => finish(regs, row, word),
    }
}

/// Returns the operand that an instruction writes or pushes, or 0 if there is none.
#[tactic(auto, unfolding(crate::specs::Results::operand_written))]
#[inline(always)]
pub fn operand_written(row: Row, regs: Regs, word: u16) -> u16
    ensures { result ≡ operand_written row.op row.mode regs word }
{
    match row.op {
        Op::Sta => accumulator_value(regs) as u16,
        Op::Stx => x_value(regs),
        Op::Sty => y_value(regs),
        Op::Stz => 0,
        Op::Pha => accumulator_value(regs) as u16,
        Op::Phx => x_value(regs),
        Op::Phy => y_value(regs),
        Op::Phb => regs.dbr as u16,
        Op::Phd => regs.d,
        Op::Phk => regs.pbr as u16,
        Op::Php => pushed_status(Op::Php, regs) as u16,
        Op::Pea => word,
        Op::Pei => word,
        Op::Per => far_place(regs.pc, word),
        Op::Asl => asl(row.mode, regs, word).value,
        Op::Lsr => lsr(row.mode, regs, word).value,
        Op::Rol => rol(row.mode, regs, word).value,
        Op::Ror => ror(row.mode, regs, word).value,
        Op::Inc => inc(row.mode, regs, word).value,
        Op::Dec => dec(row.mode, regs, word).value,
        Op::Tsb => tsb(regs, word).value,
        Op::Trb => trb(regs, word).value,
        Op::Mvn => word % 256,
        Op::Mvp => word % 256,
        _ => 0,
    }
}

/// Whether the operand of a mode is A.
#[inline(always)]
fn is_accumulator(mode: Mode) -> bool
    ensures { result ≡ is_accumulator mode }
{
    matches!(mode, Mode::Accumulator)
}

/// Whether the operand of a mode follows the opcode.
#[inline(always)]
fn is_immediate(mode: Mode) -> bool
    ensures { result ≡ is_immediate mode }
{
    matches!(mode, Mode::Immediate)
}

/// X at its width.
#[inline(always)]
fn x_value(regs: Regs) -> u16
    ensures { result ≡ regs.x % index_size regs }
{
    (regs.x as u32 % index_numbers(regs)) as u16
}

/// Y at its width.
#[inline(always)]
fn y_value(regs: Regs) -> u16
    ensures { result ≡ regs.y % index_size regs }
{
    (regs.y as u32 % index_numbers(regs)) as u16
}

/// The place after a pulled one, in its bank.
#[inline(always)]
fn place_after(word: u16) -> u16
    ensures { result ≡ (word + 1) % 65536 }
{
    ((word as u32 + 1) % 65536) as u16
}

/// ASL at A or at what was read.
#[inline(always)]
fn asl(mode: Mode, regs: Regs, word: u16) -> Changed
    ensures { result ≡ changed shift_left mode regs word }
{
    let operand = change_operand(is_accumulator(mode), regs, word);
    shifted_left(memory_numbers(regs), regs.p, operand)
}

/// LSR at A or at what was read.
#[inline(always)]
fn lsr(mode: Mode, regs: Regs, word: u16) -> Changed
    ensures { result ≡ changed shift_right mode regs word }
{
    let operand = change_operand(is_accumulator(mode), regs, word);
    shifted_right(memory_numbers(regs), regs.p, operand)
}

/// ROL at A or at what was read.
#[inline(always)]
fn rol(mode: Mode, regs: Regs, word: u16) -> Changed
    ensures { result ≡ changed rotate_left mode regs word }
{
    let operand = change_operand(is_accumulator(mode), regs, word);
    rotated_left(memory_numbers(regs), regs.p, operand)
}

/// ROR at A or at what was read.
#[inline(always)]
fn ror(mode: Mode, regs: Regs, word: u16) -> Changed
    ensures { result ≡ changed rotate_right mode regs word }
{
    let operand = change_operand(is_accumulator(mode), regs, word);
    rotated_right(memory_numbers(regs), regs.p, operand)
}

/// INC at A or at what was read.
#[inline(always)]
fn inc(mode: Mode, regs: Regs, word: u16) -> Changed
    ensures { result ≡ changed increment mode regs word }
{
    let operand = change_operand(is_accumulator(mode), regs, word);
    incremented(memory_numbers(regs), regs.p, operand)
}

/// DEC at A or at what was read.
#[inline(always)]
fn dec(mode: Mode, regs: Regs, word: u16) -> Changed
    ensures { result ≡ changed decrement mode regs word }
{
    let operand = change_operand(is_accumulator(mode), regs, word);
    decremented(memory_numbers(regs), regs.p, operand)
}

/// TSB, by the bits of A.
#[inline(always)]
fn tsb(regs: Regs, word: u16) -> Changed
    ensures { result ≡ changed_by_a set_bits regs word }
{
    let operand = (word as u32 % memory_numbers(regs)) as u16;
    bits_set(accumulator_value(regs) as u16, regs.p, operand)
}

/// TRB, by the bits of A.
#[inline(always)]
fn trb(regs: Regs, word: u16) -> Changed
    ensures { result ≡ changed_by_a clear_bits regs word }
{
    let operand = (word as u32 % memory_numbers(regs)) as u16;
    bits_cleared(accumulator_value(regs) as u16, regs.p, operand)
}
