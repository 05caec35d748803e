ghost use Rattle.std.specs.Prelude.{◌≡◌, ℕ, IfSome, IsTrue};
ghost use Rattle.spc_tables.specs.declared.access.SpcAccess.TheVariants.{Inner};

use spc_modes::micro::Micro;
use spc_modes::next::next;
use spc_modes::place::Place;
use spc_tables::{SpcAccess, SpcMode, SpcOp, SpcRegs, SpcRow};

/// An SPC700 between two accesses.
#[derive(Clone, Copy)]
pub struct Spc {
    pub(crate) micro: Micro,
}

impl Spc {
    ghost use Rattle.spc700.specs.Instruction.{
      SpcState,
      at_reset,
      between,
      moved_on,
      next_of,
      registers_of,
    };
    ghost use Rattle.spc_modes.specs.Plan.{gets_byte, is_inner, is_write};
    ghost use Rattle.spc700.specs.Stands.{Advances, Stands, access_of, begins_with};

    /// A processor after a reset, whose vector at FFFE holds `pc`: all other registers are 0.
    pub fn new(pc: u16) -> Spc
        ensures { Stands result (at_reset pc) }
    {
        Spc::at(SpcRegs {
            a: 0,
            x: 0,
            y: 0,
            sp: 0,
            pc,
            psw: 0,
        })
    }

    /// A processor before an opcode fetch, with these registers.
    pub fn at(regs: SpcRegs) -> Spc
        ensures { Stands result (between regs) }
    {
        Spc {
            micro: Micro {
                start: regs,
                here: regs,
                row: SpcRow {
                    op: SpcOp::Nop,
                    mode: SpcMode::Implied,
                },
                place: Place::Between,
                base: 0,
                byte: 0,
            },
        }
    }

    /// The next access.
    #[inline(always)]
    pub fn next(&self) -> SpcAccess
        ensures now { result ≡ access_of self.now }
        ensures standing { (s : SpcState) → Stands self.now s → result ≡ next_of s }
    {
        next(&self.micro)
    }

    /// Whether the processor has halted: only internal cycles follow, which leave it as it is.
    #[tactic(auto, using(crate::proofs::Moves::halted_stays))]
    #[inline(always)]
    pub fn is_halted(&self) -> bool
        ensures inner { IsTrue result → access_of self.now ≡ Inner }
        ensures stays { IsTrue result → (s : SpcState) (byte : ℕ) → Stands self.now s → Stands self.now (moved_on s byte) }
    {
        match self.micro.place {
            Place::Halted => true,
            _ => false,
        }
    }

    /// Moves past the next access, which got `got`.
    #[inline(always)]
    fn advance_by(&mut self, got: u8)
        requires { IsTrue (gets_byte (access_of self.old)) }
        ensures { Advances self.old self.new got }
    {
        self.micro.took(got);
    }

    /// Moves past the next access, a write.
    #[inline(always)]
    fn advance_written(&mut self)
        requires { IsTrue (is_write (access_of self.old)) }
        ensures { Advances self.old self.new 0 }
    {
        self.micro.wrote();
    }

    /// Moves past the next access, an internal cycle.
    #[inline(always)]
    fn advance_idle(&mut self)
        requires { IsTrue (is_inner (access_of self.old)) }
        ensures { Advances self.old self.new 0 }
    {
        self.micro.idle();
    }

    /// Moves past the next access, a fetch or a read, which got `byte`.
    #[inline(always)]
    pub fn took(&mut self, byte: u8)
        requires { IsTrue (gets_byte (access_of self.old)) }
        ensures { (s : SpcState) → Stands self.old s → Stands self.new (moved_on s byte) }
    {
        self.advance_by(byte);
    }

    /// Moves past the next access, a write.
    #[inline(always)]
    pub fn wrote(&mut self)
        requires { IsTrue (is_write (access_of self.old)) }
        ensures { (s : SpcState) → Stands self.old s → Stands self.new (moved_on s 0) }
    {
        self.advance_written();
    }

    /// Moves past the next access, an internal cycle.
    #[inline(always)]
    pub fn idle(&mut self)
        requires { IsTrue (is_inner (access_of self.old)) }
        ensures { (s : SpcState) → Stands self.old s → Stands self.new (moved_on s 0) }
    {
        self.advance_idle();
    }

    /// The registers with which the next instruction begins, if the last one has ended. The processor is then before
    /// an opcode fetch. Within an instruction there are none.
    pub fn begins(&self) -> Option<SpcRegs>
        ensures now { result ≡ begins_with self.now }
        ensures standing { IfSome result (λ regs. Stands self.now (between regs)) }
    {
        match self.micro.place {
            Place::Between => Some(self.micro.here),
            _ => None,
        }
    }

    /// The registers at the start of the present instruction, or after the last one if that has ended.
    #[inline(always)]
    pub fn regs(&self) -> SpcRegs
        ensures { (s : SpcState) → Stands self.now s → result ≡ registers_of s }
    {
        match self.micro.place {
            Place::Between => self.micro.here,
            _ => self.micro.start,
        }
    }
}
