// The operations that have data, each with its width.
ghost use Rattle.std.specs.Prelude.{◌≡◌, ℕ};
ghost use Rattle.cpu_tables.specs.declared.operation.Op.{Op};
ghost use Rattle.cpu_tables.specs.declared.mode.Mode.{Mode};
ghost use Rattle.cpu_tables.specs.declared.regs.Regs.{Regs};
ghost use Rattle.cpu_alu.specs.Flow.{branch};
ghost use Rattle.cpu_alu.specs.Results.{registers_after};
ghost use Rattle.cpu_modes.specs.Uses.{use_of};
ghost use Rattle.cpu_modes.specs.declared.uses.Use.{Use};
ghost use Rattle.cpu_modes.specs.declared.uses.Width.{Width};

use cpu_modes::Width;
use cpu_tables::Op;

/// An operation that reads data.
pub(crate) trait Load {
    const OP: Op;

    const WIDTH: Width;

    ghost OP: { Op };

    ghost WIDTH: { Width };

    ghost reads: { use_of OP ≡ Use.Load WIDTH };
}

/// An operation that writes data.
pub(crate) trait Store {
    const OP: Op;

    const WIDTH: Width;

    ghost OP: { Op };

    ghost WIDTH: { Width };

    ghost writes: { use_of OP ≡ Use.Store WIDTH };
}

/// An operation that reads data, changes it and writes it back.
pub(crate) trait Change {
    const OP: Op;

    ghost OP: { Op };

    ghost changes: { use_of OP ≡ Use.Change Width.Memory };
}

/// A branch by one byte.
pub(crate) trait Branch {
    const OP: Op;

    ghost OP: { Op };

    ghost branches: { use_of OP ≡ Use.Branch };

    ghost goes: { (mode : Mode) (r : Regs) (offset : ℕ) → registers_after OP mode r offset ≡ branch OP r offset };
}

/// Add with carry.
pub(crate) struct Adc;

impl Load for Adc {
    ghost use Rattle.whole_instructions.specs.Uses.{adc_reads};

    const OP: Op = Op::Adc;

    const WIDTH: Width = Width::Memory;

    ghost OP = { Op.Adc };

    ghost WIDTH = { Width.Memory };

    ghost reads = { adc_reads };
}

/// And.
pub(crate) struct And;

impl Load for And {
    ghost use Rattle.whole_instructions.specs.Uses.{and_reads};

    const OP: Op = Op::And;

    const WIDTH: Width = Width::Memory;

    ghost OP = { Op.And };

    ghost WIDTH = { Width.Memory };

    ghost reads = { and_reads };
}

/// Test bits.
pub(crate) struct Bit;

impl Load for Bit {
    ghost use Rattle.whole_instructions.specs.Uses.{bit_reads};

    const OP: Op = Op::Bit;

    const WIDTH: Width = Width::Memory;

    ghost OP = { Op.Bit };

    ghost WIDTH = { Width.Memory };

    ghost reads = { bit_reads };
}

/// Compare A.
pub(crate) struct Cmp;

impl Load for Cmp {
    ghost use Rattle.whole_instructions.specs.Uses.{cmp_reads};

    const OP: Op = Op::Cmp;

    const WIDTH: Width = Width::Memory;

    ghost OP = { Op.Cmp };

    ghost WIDTH = { Width.Memory };

    ghost reads = { cmp_reads };
}

/// Exclusive or.
pub(crate) struct Eor;

impl Load for Eor {
    ghost use Rattle.whole_instructions.specs.Uses.{eor_reads};

    const OP: Op = Op::Eor;

    const WIDTH: Width = Width::Memory;

    ghost OP = { Op.Eor };

    ghost WIDTH = { Width.Memory };

    ghost reads = { eor_reads };
}

/// Load A.
pub(crate) struct Lda;

impl Load for Lda {
    ghost use Rattle.whole_instructions.specs.Uses.{lda_reads};

    const OP: Op = Op::Lda;

    const WIDTH: Width = Width::Memory;

    ghost OP = { Op.Lda };

    ghost WIDTH = { Width.Memory };

    ghost reads = { lda_reads };
}

/// Or.
pub(crate) struct Ora;

impl Load for Ora {
    ghost use Rattle.whole_instructions.specs.Uses.{ora_reads};

    const OP: Op = Op::Ora;

    const WIDTH: Width = Width::Memory;

    ghost OP = { Op.Ora };

    ghost WIDTH = { Width.Memory };

    ghost reads = { ora_reads };
}

/// Subtract with borrow.
pub(crate) struct Sbc;

impl Load for Sbc {
    ghost use Rattle.whole_instructions.specs.Uses.{sbc_reads};

    const OP: Op = Op::Sbc;

    const WIDTH: Width = Width::Memory;

    ghost OP = { Op.Sbc };

    ghost WIDTH = { Width.Memory };

    ghost reads = { sbc_reads };
}

/// Compare X.
pub(crate) struct Cpx;

impl Load for Cpx {
    ghost use Rattle.whole_instructions.specs.Uses.{cpx_reads};

    const OP: Op = Op::Cpx;

    const WIDTH: Width = Width::Index;

    ghost OP = { Op.Cpx };

    ghost WIDTH = { Width.Index };

    ghost reads = { cpx_reads };
}

/// Compare Y.
pub(crate) struct Cpy;

impl Load for Cpy {
    ghost use Rattle.whole_instructions.specs.Uses.{cpy_reads};

    const OP: Op = Op::Cpy;

    const WIDTH: Width = Width::Index;

    ghost OP = { Op.Cpy };

    ghost WIDTH = { Width.Index };

    ghost reads = { cpy_reads };
}

/// Load X.
pub(crate) struct Ldx;

impl Load for Ldx {
    ghost use Rattle.whole_instructions.specs.Uses.{ldx_reads};

    const OP: Op = Op::Ldx;

    const WIDTH: Width = Width::Index;

    ghost OP = { Op.Ldx };

    ghost WIDTH = { Width.Index };

    ghost reads = { ldx_reads };
}

/// Load Y.
pub(crate) struct Ldy;

impl Load for Ldy {
    ghost use Rattle.whole_instructions.specs.Uses.{ldy_reads};

    const OP: Op = Op::Ldy;

    const WIDTH: Width = Width::Index;

    ghost OP = { Op.Ldy };

    ghost WIDTH = { Width.Index };

    ghost reads = { ldy_reads };
}

/// Store A.
pub(crate) struct Sta;

impl Store for Sta {
    ghost use Rattle.whole_instructions.specs.Uses.{sta_writes};

    const OP: Op = Op::Sta;

    const WIDTH: Width = Width::Memory;

    ghost OP = { Op.Sta };

    ghost WIDTH = { Width.Memory };

    ghost writes = { sta_writes };
}

/// Store zero.
pub(crate) struct Stz;

impl Store for Stz {
    ghost use Rattle.whole_instructions.specs.Uses.{stz_writes};

    const OP: Op = Op::Stz;

    const WIDTH: Width = Width::Memory;

    ghost OP = { Op.Stz };

    ghost WIDTH = { Width.Memory };

    ghost writes = { stz_writes };
}

/// Store X.
pub(crate) struct Stx;

impl Store for Stx {
    ghost use Rattle.whole_instructions.specs.Uses.{stx_writes};

    const OP: Op = Op::Stx;

    const WIDTH: Width = Width::Index;

    ghost OP = { Op.Stx };

    ghost WIDTH = { Width.Index };

    ghost writes = { stx_writes };
}

/// Store Y.
pub(crate) struct Sty;

impl Store for Sty {
    ghost use Rattle.whole_instructions.specs.Uses.{sty_writes};

    const OP: Op = Op::Sty;

    const WIDTH: Width = Width::Index;

    ghost OP = { Op.Sty };

    ghost WIDTH = { Width.Index };

    ghost writes = { sty_writes };
}

/// Shift left.
pub(crate) struct Asl;

impl Change for Asl {
    ghost use Rattle.whole_instructions.specs.Uses.{asl_changes};

    const OP: Op = Op::Asl;

    ghost OP = { Op.Asl };

    ghost changes = { asl_changes };
}

/// Shift right.
pub(crate) struct Lsr;

impl Change for Lsr {
    ghost use Rattle.whole_instructions.specs.Uses.{lsr_changes};

    const OP: Op = Op::Lsr;

    ghost OP = { Op.Lsr };

    ghost changes = { lsr_changes };
}

/// Rotate left.
pub(crate) struct Rol;

impl Change for Rol {
    ghost use Rattle.whole_instructions.specs.Uses.{rol_changes};

    const OP: Op = Op::Rol;

    ghost OP = { Op.Rol };

    ghost changes = { rol_changes };
}

/// Rotate right.
pub(crate) struct Ror;

impl Change for Ror {
    ghost use Rattle.whole_instructions.specs.Uses.{ror_changes};

    const OP: Op = Op::Ror;

    ghost OP = { Op.Ror };

    ghost changes = { ror_changes };
}

/// Increment.
pub(crate) struct Inc;

impl Change for Inc {
    ghost use Rattle.whole_instructions.specs.Uses.{inc_changes};

    const OP: Op = Op::Inc;

    ghost OP = { Op.Inc };

    ghost changes = { inc_changes };
}

/// Decrement.
pub(crate) struct Dec;

impl Change for Dec {
    ghost use Rattle.whole_instructions.specs.Uses.{dec_changes};

    const OP: Op = Op::Dec;

    ghost OP = { Op.Dec };

    ghost changes = { dec_changes };
}

/// Test and set bits.
pub(crate) struct Tsb;

impl Change for Tsb {
    ghost use Rattle.whole_instructions.specs.Uses.{tsb_changes};

    const OP: Op = Op::Tsb;

    ghost OP = { Op.Tsb };

    ghost changes = { tsb_changes };
}

/// Test and reset bits.
pub(crate) struct Trb;

impl Change for Trb {
    ghost use Rattle.whole_instructions.specs.Uses.{trb_changes};

    const OP: Op = Op::Trb;

    ghost OP = { Op.Trb };

    ghost changes = { trb_changes };
}

/// Branch if carry is clear.
pub(crate) struct Bcc;

impl Branch for Bcc {
    ghost use Rattle.whole_instructions.specs.Uses.{bcc_branches, bcc_goes};

    const OP: Op = Op::Bcc;

    ghost OP = { Op.Bcc };

    ghost branches = { bcc_branches };

    ghost goes = { bcc_goes };
}

/// Branch if carry is set.
pub(crate) struct Bcs;

impl Branch for Bcs {
    ghost use Rattle.whole_instructions.specs.Uses.{bcs_branches, bcs_goes};

    const OP: Op = Op::Bcs;

    ghost OP = { Op.Bcs };

    ghost branches = { bcs_branches };

    ghost goes = { bcs_goes };
}

/// Branch if the result was zero.
pub(crate) struct Beq;

impl Branch for Beq {
    ghost use Rattle.whole_instructions.specs.Uses.{beq_branches, beq_goes};

    const OP: Op = Op::Beq;

    ghost OP = { Op.Beq };

    ghost branches = { beq_branches };

    ghost goes = { beq_goes };
}

/// Branch if the result was not zero.
pub(crate) struct Bne;

impl Branch for Bne {
    ghost use Rattle.whole_instructions.specs.Uses.{bne_branches, bne_goes};

    const OP: Op = Op::Bne;

    ghost OP = { Op.Bne };

    ghost branches = { bne_branches };

    ghost goes = { bne_goes };
}

/// Branch if the result was negative.
pub(crate) struct Bmi;

impl Branch for Bmi {
    ghost use Rattle.whole_instructions.specs.Uses.{bmi_branches, bmi_goes};

    const OP: Op = Op::Bmi;

    ghost OP = { Op.Bmi };

    ghost branches = { bmi_branches };

    ghost goes = { bmi_goes };
}

/// Branch if the result was not negative.
pub(crate) struct Bpl;

impl Branch for Bpl {
    ghost use Rattle.whole_instructions.specs.Uses.{bpl_branches, bpl_goes};

    const OP: Op = Op::Bpl;

    ghost OP = { Op.Bpl };

    ghost branches = { bpl_branches };

    ghost goes = { bpl_goes };
}

/// Branch if overflow is clear.
pub(crate) struct Bvc;

impl Branch for Bvc {
    ghost use Rattle.whole_instructions.specs.Uses.{bvc_branches, bvc_goes};

    const OP: Op = Op::Bvc;

    ghost OP = { Op.Bvc };

    ghost branches = { bvc_branches };

    ghost goes = { bvc_goes };
}

/// Branch if overflow is set.
pub(crate) struct Bvs;

impl Branch for Bvs {
    ghost use Rattle.whole_instructions.specs.Uses.{bvs_branches, bvs_goes};

    const OP: Op = Op::Bvs;

    ghost OP = { Op.Bvs };

    ghost branches = { bvs_branches };

    ghost goes = { bvs_goes };
}

/// Branch always.
pub(crate) struct Bra;

impl Branch for Bra {
    ghost use Rattle.whole_instructions.specs.Uses.{bra_branches, bra_goes};

    const OP: Op = Op::Bra;

    ghost OP = { Op.Bra };

    ghost branches = { bra_branches };

    ghost goes = { bra_goes };
}
