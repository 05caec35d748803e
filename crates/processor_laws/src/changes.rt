ghost use Rattle.std.specs.Prelude.{◌≡◌, true, reverse};
ghost use Rattle.cpu_tables.specs.declared.mode.Mode.{Mode};
ghost use Rattle.cpu_tables.specs.declared.operation.Op.{Op};
ghost use Rattle.cpu_tables.specs.declared.regs.Regs.{Regs};
ghost use Rattle.cpu_modes.specs.Orders.{order};
ghost use Rattle.processor_laws.specs.Changes.{changes, is_memory, places_read, places_written};
ghost use Rattle.processor_laws.specs.Outcomes.{Memory};

/// Law of an instruction that changes memory: it writes just the places that it read, the last one first.
pub fn change_writes_the_places_read()
    ensures { (op : Op) (mode : Mode) (r : Regs) (m : Memory)
        → changes op ≡ true → is_memory mode ≡ true
        → places_written (order (record { op = op; mode = mode }) r) m
        ≡ reverse (places_read (order (record { op = op; mode = mode }) r) m) }
{}
