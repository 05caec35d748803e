//! Products and quotients, which a console needs time for.

ghost use Rattle.std.specs.Prelude.{◌≡◌};
ghost use Rattle.lint_rules.specs.Units.{is_computing, arithmetic_broken, arithmetic_at};

use crate::rule::Rule;

/// What the arithmetic unit was asked for last.
#[derive(Clone, Copy)]
pub struct Asked {
    /// Whether it was a quotient (4206), and not a product (4203).
    pub quotient: bool,
    /// The number of the processor's cycle that asked for it.
    pub cycle: u64,
}

/// Whether a console still computes what was asked for, in a later cycle of the processor: 8 cycles lie between for a product,
/// 16 for a quotient.
fn is_computing(asked: Asked, cycle: u64) -> bool
    ensures { result ≡ is_computing asked cycle }
{
    let passed = cycle.saturating_sub(asked.cycle);
    if asked.quotient {
        passed <= 16
    } else {
        passed <= 8
    }
}

/// Returns the rule that an access breaks while the unit computes.
fn busy_rule(quotient: bool, register: u16, writes: bool) -> Option<Rule>
    ensures { result ≡ arithmetic_broken quotient register writes }
{
    match register {
        0x4203 | 0x4206 if writes => Some(Rule::ArithmeticAgain),
        0x4214 | 0x4215 if !writes && quotient => Some(Rule::QuotientEarly),
        0x4216 | 0x4217 if !writes && quotient => Some(Rule::QuotientEarly),
        0x4216 | 0x4217 if !writes => Some(Rule::ProductEarly),
        _ => None,
    }
}

/// Returns the rule that an access to a register breaks in a cycle of the processor, given what was asked for before.
///
/// Source: fullsnes, "SNES Maths Multiply/Divide".
pub fn arithmetic_rule(
    asked: Option<Asked>,
    cycle: u64,
    register: u16,
    writes: bool,
) -> Option<Rule>
    ensures { result ≡ arithmetic_at asked cycle register writes }
{
    match asked {
        Some(asked) => {
            if is_computing(asked, cycle) {
                busy_rule(asked.quotient, register, writes)
            } else {
                None
            }
        }
        None => None,
    }
}
