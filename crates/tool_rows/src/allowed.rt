//! What no clause says: what may be broken, and where.

use anyhow::Result;
use lint_rules::{Cause, Finding, Findings, Moment, Rule, Unit};
use lint_watch::{Allowed, Sources, remaining};

const FIRST: Moment = Moment {
    frame: 3,
    line: 10,
    clock: 200,
    overscan: false,
    forced: false,
};

/// A finding of an instruction at this address.
fn at(rule: Rule, address: u32) -> Finding {
    let unit = Unit::Console;
    Finding::new(rule, Cause { unit, address }, 0, FIRST)
}

#[test]
fn a_place_is_an_address_or_a_label(rt: HostRuntime) -> Result<()> {
    let alloc = rt.alloc();
    let sources = Sources::read(alloc, "labels", "al 008000 .start\nal 008100 .loader\n")?;
    let mut allowed = Allowed::nothing(alloc);
    allowed.allow_rules("cop, wdm")?;
    allowed.allow_file(alloc, "allowed", "# slow\nbrk 008012\nbrk loader # here\n")?;
    let mut findings = Findings::new(alloc);
    findings.add(at(Rule::Brk, 0x8010))?;
    findings.add(at(Rule::Brk, 0x8012))?;
    findings.add(at(Rule::Brk, 0x8104))?;
    findings.add(at(Rule::Cop, 0x8010))?;
    findings.add(at(Rule::Stp, 0x8012))?;
    let left = remaining(alloc, &findings, &allowed, &sources)?;
    assert_eq!(rt; left.len(), 2);
    assert_eq!(rt; left[0].cause.address, 0x8010);
    assert!(rt; left[1].rule == Rule::Stp);
    Ok(())
}

#[test]
fn what_is_no_rule_is_refused(rt: HostRuntime) {
    let alloc = rt.alloc();
    let mut allowed = Allowed::nothing(alloc);
    assert!(rt; allowed.allow_rules("brk,nothing").is_err());
    assert!(rt;
        allowed
            .allow_file(alloc, "allowed", "brk start more\n")
            .is_err()
    );
    assert!(rt; allowed.allow_file(alloc, "allowed", "\n  # none\n").is_ok());
}
