ghost use Rattle.std.specs.Prelude.{MatchOption};
ghost use Rattle.snes_commands.specs.Wish.{IsNothing};
ghost use Rattle.snes_program.specs.Commands.{asked_by, asked};

use plan_drive::PlanPlayer;
use run_drive::{StatePlayer, TurnPlayer};
use run_io::{Argv, Fault, Mistake, Word};
use snes_commands::{
    Check, Demo, Dump, Help, Make, Play, Rewind, Run, SoundFile, SumsRun, Version, explain_form,
};

/// Returns the mistake in the arguments after this name, if there is one. The commands are listed as in `call_named`.
#[tactic(auto, unfolding(crate::specs::Commands::asked_by))]
fn explain_named<'a, P: PlanPlayer + TurnPlayer + StatePlayer, Z: StatePlayer>(
    name: &'a str,
    words: &'a [Word],
) -> Option<Mistake<'a>>
    ensures { MatchOption result (¬ IsNothing (asked_by P.emits P.leaves Z.leaves name.now words.now)) (λ mistake. IsNothing (asked_by P.emits P.leaves Z.leaves name.now words.now)) }
{
    if name == "run" {
        return explain_form::<Run<P>>(words);
    }
    if name == "serial" {
        return explain_form::<Run<P>>(words);
    }
    if name == "lockless" {
        return explain_form::<Run<P>>(words);
    }
    if name == "play" {
        return explain_form::<Play>(words);
    }
    if name == "make" {
        return explain_form::<Make>(words);
    }
    if name == "demo" {
        return explain_form::<Demo<P>>(words);
    }
    if name == "rewind" {
        return explain_form::<Rewind<P>>(words);
    }
    if name == "sums" {
        return explain_form::<SumsRun<P>>(words);
    }
    if name == "check" {
        return explain_form::<Check<P>>(words);
    }
    if name == "dump" {
        return explain_form::<Dump<P>>(words);
    }
    if name == "spc" {
        return explain_form::<SoundFile<Z>>(words);
    }
    if name == "--help" {
        return explain_form::<Help>(words);
    }
    if name == "-h" {
        return explain_form::<Help>(words);
    }
    if name == "--version" {
        return explain_form::<Version>(words);
    }
    Some(Mistake::of(Fault::NotACommand, "", name))
}

/// Returns the mistake in a command line: there is one if and only if `snes` returns `Usage`.
pub fn explain<P: PlanPlayer + TurnPlayer + StatePlayer, Z: StatePlayer>(
    words: &Argv,
) -> Option<Mistake<'_>>
    ensures { MatchOption result (¬ IsNothing (asked P.emits P.leaves Z.leaves words.now)) (λ mistake. IsNothing (asked P.emits P.leaves Z.leaves words.now)) }
{
    match words.all().split_first() {
        Some((name, words)) => explain_named::<P, Z>(name.text(), words),
        None => Some(Mistake::of(Fault::NoCommand, "", "")),
    }
}
