ghost use Rattle.std.specs.Prelude.{◌≡◌};
ghost use Rattle.std.specs.Option.{IsSomeAnd};
ghost use Rattle.cpu_tables.specs.declared.regs.Regs.{Regs};
ghost use Rattle.cpu_modes.specs.Addresses.{code};
ghost use Rattle.cpu_modes.specs.Orders.{instruction};
ghost use Rattle.processor_laws.specs.Outcomes.{IsPossible, Memory, Outcome, outcome};
ghost use Rattle.processor_laws.specs.Calls.{GoesOnAfter, KeepsFarStack, KeepsStack};

/// Law of JSR and RTS: the program continues after the JSR. A JSR, opcode 20, comes first, then anything that leads to
/// an RTS, opcode 60. That must be in the same bank, with the stack as after the call.
pub fn return_goes_on_after_call()
    ensures { (r : Regs) (m : Memory) (called : Outcome) (there : Regs) (then_ : Memory)
        → IsPossible r → m (code r) ≡ 0x20 → outcome (instruction r) m ≡ Some called
        → KeepsStack called there then_ → there.pbr ≡ r.pbr → then_ (code there) ≡ 0x60
        → IsSomeAnd (outcome (instruction there) then_) (λ back. GoesOnAfter 3 r back.registers) }
{}

/// Law of JSL and RTL: the program continues after the JSL, in its bank. A JSL, opcode 22, comes first, then anything
/// that leads to an RTL, opcode 6B. That may be in any bank, with the stack as after the call.
pub fn far_return_goes_on_after_far_call()
    ensures { (r : Regs) (m : Memory) (called : Outcome) (there : Regs) (then_ : Memory)
        → IsPossible r → m (code r) ≡ 0x22 → outcome (instruction r) m ≡ Some called
        → KeepsFarStack called there then_ → then_ (code there) ≡ 0x6B
        → IsSomeAnd (outcome (instruction there) then_) (λ back. GoesOnAfter 4 r back.registers) }
{}
