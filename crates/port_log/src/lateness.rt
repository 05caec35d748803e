// Refusals of the log as refusals of a call over a pass, and back.
ghost use Rattle.std.specs.Prelude.{◌≡◌};
ghost use Rattle.port_log.specs.PassCalls.{IfHeld};
ghost use Rattle.port_log.specs.Lateness.{over_pass_of, IsAsOfLog};

use crate::late::Late;
use port_wire::PassLate;

/// Returns a refusal of the log as a refusal of a call over a pass.
#[inline(always)]
pub fn over_pass(late: Late) -> PassLate
    ensures { result ≡ over_pass_of late }
{
    match late {
        Late::Behind { need, other } => PassLate::Behind { need, other },
        Late::Ahead { at, other } => PassLate::Ahead { at, other },
    }
}

/// Returns the result of a call over a pass, which was not held, as a result of the log.
#[inline(always)]
pub fn as_of_log<T>(answer: Result<T, PassLate>) -> Result<T, Late>
    requires { IfHeld answer (λ _. ⊥) }
    ensures { IsAsOfLog answer result }
{
    match answer {
        Ok(x) => Ok(x),
        Err(PassLate::Behind { need, other }) => Err(Late::Behind { need, other }),
        Err(PassLate::Ahead { at, other }) => Err(Late::Ahead { at, other }),
        Err(PassLate::Held { .. }) => unreachable!(),
    }
}
