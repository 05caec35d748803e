// The next access of a processor whose instruction has ended or waits, by its interrupt lines.
ghost use Rattle.std.specs.Prelude.{◌≡◌, ◌<◌, Some, true};
ghost use Rattle.cpu_modes.specs.Plan.{address_of, finished, first_access};
ghost use Rattle.cpu_modes.specs.Remaining.{Keeps, remaining};
ghost use Rattle.cpu65816.specs.Instruction.{ahead};

use cpu_modes::{Micro, code_address};
use cpu_tables::{Access, IRQ_DISABLE};
use status_bits::is_set;

/// The first access after an instruction that has ended or waits: an interrupt and a wait begin with
/// an internal cycle, the next instruction with the fetch of its opcode.
#[inline(always)]
#[tactic(auto, unfolding(cpu_modes::specs::Uses::use_of))]
fn following(micro: &Micro, kept: bool, irq_level: bool) -> Access
    requires { finished true (remaining micro.now) ≡ Some micro.now.here }
    ensures exact { result ≡ first_access (ahead kept irq_level (remaining micro.now)) }
    ensures within { address_of result < 16777216 }
{
    if kept {
        Access::Inner
    } else if irq_level {
        if is_set(micro.here.p, IRQ_DISABLE) {
            Access::Fetch(code_address(&micro.here))
        } else {
            Access::Inner
        }
    } else if micro.has_ended(false) {
        Access::Fetch(code_address(&micro.here))
    } else {
        Access::Inner
    }
}

/// Keeps the next access, also if the instruction has ended or waits.
#[inline(always)]
pub(crate) fn settle(micro: &mut Micro, has_ended: bool, kept: bool, irq_level: bool)
    requires { Keeps has_ended micro.old }
    ensures ready { micro.new.access ≡ first_access (ahead kept irq_level (remaining micro.new)) }
    ensures within { address_of micro.new.access < 16777216 }
    ensures left { remaining micro.new ≡ remaining micro.old }
    ensures start { micro.new.start ≡ micro.old.start }
    ensures here { micro.new.here ≡ micro.old.here }
{
    if has_ended {
        micro.access = following(micro, kept, irq_level);
    }
}
