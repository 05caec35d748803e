ghost use Rattle.std.specs.Prelude.{◌≡◌, false};
ghost use Rattle.std.specs.Option.{IsSomeAnd};
ghost use Rattle.cpu_tables.specs.declared.mode.Mode.TheVariants.{Stack};
ghost use Rattle.cpu_tables.specs.declared.operation.Op.TheVariants.{Irq, Nmi};
ghost use Rattle.cpu_tables.specs.declared.regs.Regs.{Regs};
ghost use Rattle.cpu_modes.specs.Addresses.{code};
ghost use Rattle.cpu_modes.specs.Orders.{instruction, order};
ghost use Rattle.processor_laws.specs.Interrupts.{KeepsFrame, brought_back};
ghost use Rattle.processor_laws.specs.Outcomes.{IsPossible, Memory, Outcome, outcome};

/// Law of NMI and RTI in native mode: the program continues where it was, with its flags. An interrupt by the line that
/// can't be masked comes first, then anything that leads to an RTI, opcode 40. The stack must be there as the interrupt
/// left it.
pub fn return_brings_back_from_nmi()
    ensures { (r : Regs) (m : Memory) (taken : Outcome) (there : Regs) (then_ : Memory)
        → IsPossible r → r.e ≡ false → outcome (order (record { op = Nmi; mode = Stack }) r) m ≡ Some taken
        → KeepsFrame taken there then_ → then_ (code there) ≡ 0x40
        → IsSomeAnd (outcome (instruction there) then_) (λ back. back.registers ≡ brought_back r there) }
{}

/// Law of IRQ and RTI in native mode: the program continues where it was, with its flags. An interrupt by the line that
/// can be masked comes first, then anything that leads to an RTI, opcode 40. The stack must be there as the interrupt
/// left it.
pub fn return_brings_back_from_irq()
    ensures { (r : Regs) (m : Memory) (taken : Outcome) (there : Regs) (then_ : Memory)
        → IsPossible r → r.e ≡ false → outcome (order (record { op = Irq; mode = Stack }) r) m ≡ Some taken
        → KeepsFrame taken there then_ → then_ (code there) ≡ 0x40
        → IsSomeAnd (outcome (instruction there) then_) (λ back. back.registers ≡ brought_back r there) }
{}
