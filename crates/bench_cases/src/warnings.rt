//! What a case says of the warnings of `lint`: that there are none, and what may be broken all the same.

use crate::fields::Fields;
use bench_checks::NoWarnings;
use lint_rules::{Rule, rule_named};
use std::alloc::Global;

/// Whether a case expects no warnings.
fn expects_none(fields: &mut Fields<'_>) -> bool {
    match fields.text_in("warnings") {
        Some("none") => true,
        Some(_) => {
            fields.refuse("warnings is not \"none\"");
            false
        }
        None => false,
    }
}

/// The rules that a case allows everywhere.
fn rules_in(alloc: Global, fields: &mut Fields<'_>) -> Vec<Rule> {
    let names = fields.texts(alloc, "allow");
    let mut rules = Vec::new(alloc);
    for name in names.as_slice() {
        match rule_named(*name) {
            Some(rule) => fields.push(&mut rules, rule),
            None => {
                fields.refuse(format_args!("allow has {name}, which is no rule of lint"));
            }
        }
    }
    rules
}

/// What may be broken in the run of a case, if it expects no warnings.
pub fn no_warnings_in(alloc: Global, fields: &mut Fields<'_>) -> Option<NoWarnings> {
    if expects_none(fields) {
        return Some(NoWarnings {
            allow: rules_in(alloc, fields),
            allowed: fields.text(alloc, "allowed"),
        });
    }
    for key in ["allow", "allowed"] {
        if fields.has(key) {
            fields.refuse(format_args!("{key} goes with warnings = \"none\""));
        }
    }
    None
}
