// The processor, stopped before an access: its next access, and the calls that complete it.
ghost use Rattle.std.specs.Prelude.{◌≡◌, ◌<◌, ◌^◌, ◌||◌, IfSome, IsTrue, MatchBool, None, Some, false, true};
ghost use Rattle.cpu_modes.specs.Plan.{address_of, first_access};
ghost use Rattle.cpu_modes.specs.Remaining.{remaining};
ghost use Rattle.cpu65816.specs.Instruction.{ahead};

use crate::likeness::{leave_the_same, starts_alike};
use crate::settling::settle;
use cpu_modes::{Micro, Place};
use cpu_tables::{Access, Mode, Op, Regs, Row};

/// A 65C816 between two accesses.
#[derive(Clone, Copy)]
pub struct Cpu {
    micro: Micro,
    kept: bool,
    nmi_level: bool,
    irq_level: bool,
    ghost ready: { micro.access ≡ first_access (ahead kept irq_level (remaining micro)) },
    ghost within: { address_of micro.access < 16777216 },
}

impl Cpu {
    ghost use Rattle.cpu_modes.specs.Plan.{ends, finished, gets_byte, is_inner, is_write};
    ghost use Rattle.cpu_modes.specs.Remaining.{Keeps};
    ghost use Rattle.cpu65816.specs.Instruction.{CpuState, at_reset, between_instructions, chosen, kept_after, left_of, moved_on, next_of, plan_of, registers_of, row_of_signal, signalled};
    ghost use Rattle.cpu_tables.specs.declared.operation.Op.TheVariants.{Reset};
    ghost use Rattle.cpu65816.specs.Stands.{Stands, TakesUp, access_of};

    /// Returns a processor after a reset.
    pub fn new() -> Cpu
        ensures { Stands result at_reset }
    {
        let registers = Regs {
            a: 0,
            x: 0,
            y: 0,
            s: 0x01FF,
            d: 0,
            pc: 0,
            pbr: 0,
            dbr: 0,
            p: 0x34,
            e: true,
        };
        let mut micro = Micro::ended(
            registers,
            Row {
                op: Op::Reset,
                mode: Mode::Stack,
            },
        );
        micro.enter();
        settle(&mut micro, false, false, false);
        Cpu {
            micro,
            kept: false,
            nmi_level: false,
            irq_level: false,
        }
    }

    /// Returns a processor before the first access of an instruction, with registers of the caller's.
    pub fn between(registers: Regs) -> Cpu
        ensures { Stands result (between_instructions registers) }
    {
        let mut micro = Micro::ended(
            registers,
            Row {
                op: Op::Reset,
                mode: Mode::Stack,
            },
        );
        settle(&mut micro, true, false, false);
        Cpu {
            micro,
            kept: false,
            nmi_level: false,
            irq_level: false,
        }
    }

    /// Returns the next access.
    #[inline(always)]
    pub fn next(&self) -> Access
        ensures now { result ≡ access_of self.now }
        ensures within { address_of result < 2 ^ 24 }
        ensures standing { (s : CpuState) → Stands self.now s → result ≡ next_of s }
    {
        self.micro.access
    }

    /// Whether an instruction that waits for an interrupt has one, disabled or not.
    #[inline(always)]
    fn is_awake(&self) -> bool
        ensures { result ≡ (self.now.kept || self.now.irq_level) }
    {
        self.kept || self.irq_level
    }

    /// Begins an interrupt. The last instruction has ended, and the next access is an internal cycle.
    fn begin_interrupt(&mut self)
        requires ended { finished (self.old.kept || self.old.irq_level) (remaining self.old.micro) ≡ Some self.old.micro.here }
        requires inner { IsTrue (is_inner (access_of self.old)) }
        ensures { TakesUp self.old self.new }
    {
        self.micro.start = self.micro.here;
        let op = if self.kept { Op::Nmi } else { Op::Irq };
        self.kept = false;
        self.micro.row = Row {
            op,
            mode: Mode::Stack,
        };
        self.micro.enter();
    }

    /// Begins the interrupt that an internal cycle belongs to, if the last instruction has ended.
    #[inline(always)]
    fn take_up(&mut self)
        requires { IsTrue (is_inner (access_of self.old)) }
        ensures { TakesUp self.old self.new }
    {
        if self.micro.has_ended(self.is_awake()) {
            self.begin_interrupt();
        }
    }

    /// Completes the next access, a fetch or a read, with the byte that it got.
    #[inline(always)]
    pub fn took(&mut self, byte: u8)
        requires { IsTrue (gets_byte (access_of self.old)) }
        ensures { (s : CpuState) → Stands self.old s → Stands self.new (moved_on s byte) }
    {
        let has_ended = self.micro.took(byte);
        settle(&mut self.micro, has_ended, self.kept, self.irq_level);
    }

    /// Returns the place of the next access in its instruction's order.
    #[inline(always)]
    pub fn place(&self) -> Place
        ensures { result ≡ self.now.micro.place }
    {
        self.micro.place
    }

    /// Completes the next access, a fetch or a read, with the byte that it got, for a caller that knows the place. It
    /// does what `took` does.
    #[inline(always)]
    pub fn took_at(&mut self, place: Place, byte: u8)
        requires known { self.old.micro.place ≡ place }
        requires gets { IsTrue (gets_byte (access_of self.old)) }
        ensures { (s : CpuState) → Stands self.old s → Stands self.new (moved_on s byte) }
    {
        let has_ended = self.micro.took_at(place, byte);
        settle(&mut self.micro, has_ended, self.kept, self.irq_level);
    }

    /// Completes the next access, a write.
    #[inline(always)]
    pub fn wrote(&mut self)
        requires { IsTrue (is_write (access_of self.old)) }
        ensures { (s : CpuState) → Stands self.old s → Stands self.new (moved_on s 0) }
    {
        let has_ended = self.micro.wrote();
        settle(&mut self.micro, has_ended, self.kept, self.irq_level);
    }

    /// Completes the next access, a write, for a caller that knows the place. It does what `wrote` does.
    #[inline(always)]
    pub fn wrote_at(&mut self, place: Place)
        requires known { self.old.micro.place ≡ place }
        requires writes { IsTrue (is_write (access_of self.old)) }
        ensures { (s : CpuState) → Stands self.old s → Stands self.new (moved_on s 0) }
    {
        let has_ended = self.micro.wrote_at(place);
        settle(&mut self.micro, has_ended, self.kept, self.irq_level);
    }

    /// Completes the next access, an internal cycle.
    #[inline(always)]
    pub fn idle(&mut self)
        requires { IsTrue (is_inner (access_of self.old)) }
        ensures { (s : CpuState) → Stands self.old s → Stands self.new (moved_on s 0) }
    {
        self.take_up();
        let has_ended = self.micro.idle();
        settle(&mut self.micro, has_ended, self.kept, self.irq_level);
    }

    /// Completes the next access, an internal cycle, out of line. It does what `idle` does.
    #[inline(never)]
    fn idle_between(&mut self)
        requires { IsTrue (is_inner (access_of self.old)) }
        ensures { (s : CpuState) → Stands self.old s → Stands self.new (moved_on s 0) }
    {
        self.idle();
    }

    /// Completes the next access, an internal cycle, for a caller that knows the place. It does what `idle` does. What
    /// begins between two instructions is out of line.
    #[inline(always)]
    pub fn idle_at(&mut self, place: Place)
        requires known { self.old.micro.place ≡ place }
        requires inner { IsTrue (is_inner (access_of self.old)) }
        ensures { (s : CpuState) → Stands self.old s → Stands self.new (moved_on s 0) }
    {
        if self.micro.has_ended_at(place, self.is_awake()) {
            self.idle_between();
            return;
        }
        let has_ended = self.micro.idle_at(place);
        settle(&mut self.micro, has_ended, self.kept, self.irq_level);
    }

    /// Sets the levels of the NMI and IRQ lines.
    #[inline(always)]
    pub fn signal(&mut self, nmi: bool, irq: bool)
        ensures { (s : CpuState) → Stands self.old s → Stands self.new (signalled s nmi irq) }
    {
        if nmi == self.nmi_level && irq == self.irq_level {
            return;
        }
        if nmi && !self.nmi_level {
            self.kept = true;
        }
        self.nmi_level = nmi;
        self.irq_level = irq;
        let is_between = self.micro.has_ended(true);
        settle(&mut self.micro, is_between, self.kept, self.irq_level);
    }

    /// Returns the levels of the NMI and IRQ lines, as they were last given.
    #[inline(always)]
    pub fn levels(&self) -> (bool, bool)
        ensures nmi { result.0 ≡ self.now.nmi_level }
        ensures irq { result.1 ≡ self.now.irq_level }
    {
        (self.nmi_level, self.irq_level)
    }

    /// Whether the instruction has ended, or waits for an interrupt.
    #[inline(always)]
    pub fn is_between(&self) -> bool
        ensures { MatchBool result
            (finished true (remaining self.now.micro) ≡ Some self.now.micro.here)
            (finished true (remaining self.now.micro) ≡ None) }
    {
        self.micro.has_ended(true)
    }

    /// Whether another processor stands for every state that this one stands for. It can be true between two
    /// instructions and while both wait for an interrupt; otherwise it is false.
    #[tactic(auto, using(crate::proofs::Alike::stands_alike))]
    #[inline(always)]
    pub fn is_like(&self, other: &Cpu) -> bool
        ensures { IsTrue result → (s : CpuState) → Stands self.now s → Stands other.now s }
    {
        if !leave_the_same(&self.micro, &other.micro) {
            return false;
        }
        if !starts_alike(&self.micro, &other.micro) {
            return false;
        }
        self.kept == other.kept
            && self.nmi_level == other.nmi_level
            && self.irq_level == other.irq_level
    }

    /// Returns the micro-state if the instruction has ended and the interrupt lines bring no interrupt: no edge of the
    /// NMI line is kept, and the IRQ line is low.
    #[inline(always)]
    pub fn rested(&self) -> Option<Micro>
        ensures micro { IfSome result (λ micro. micro ≡ self.now.micro) }
        ensures ended { IfSome result (λ micro. finished false (remaining self.now.micro) ≡ Some self.now.micro.here) }
        ensures no_edge { IfSome result (λ micro. self.now.kept ≡ false) }
        ensures no_irq { IfSome result (λ micro. self.now.irq_level ≡ false) }
    {
        if self.kept || self.irq_level || !self.micro.has_ended(false) {
            return None;
        }
        Some(self.micro)
    }

    /// Takes up a micro-state to which whole accesses have led. `has_ended` says whether its instruction has ended. Then
    /// its place, its access and all that tells of the accesses before count for nothing.
    #[inline(always)]
    pub fn go_on_from(&mut self, micro: Micro, has_ended: bool)
        requires keeps { has_ended ≡ false → Keeps false micro }
        ensures ended { IsTrue has_ended → (s : CpuState) → left_of s ≡ ends micro.here → s.kept ≡ self.old.kept
            → s.nmi_level ≡ self.old.nmi_level → s.irq_level ≡ self.old.irq_level → Stands self.new s }
        ensures running { has_ended ≡ false → (s : CpuState) → left_of s ≡ remaining micro → s.start ≡ micro.start
            → s.kept ≡ self.old.kept → s.nmi_level ≡ self.old.nmi_level → s.irq_level ≡ self.old.irq_level
            → Stands self.new s }
    {
        self.micro = micro;
        if has_ended {
            self.micro.place = Place::Ended;
        }
        settle(&mut self.micro, has_ended, self.kept, self.irq_level);
    }

    /// Returns the registers at the start of the current instruction.
    #[tactic(auto, using(crate::proofs::Moves::still_running))]
    #[inline(always)]
    pub fn regs(&self) -> Regs
        ensures { (s : CpuState) → Stands self.now s → result ≡ registers_of s }
    {
        if self.micro.has_ended(self.is_awake()) {
            self.micro.here
        } else {
            self.micro.start
        }
    }
}
