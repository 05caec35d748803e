// The run of a job by two workers.
ghost use Rattle.std.specs.Prelude.{◌≡◌, ◌≤◌, [], IfOk, IfErr, OnOk};
ghost use Rattle.snes_defs.specs.declared.cart.Job.{Job};
ghost use Rattle.run_drive.specs.Played.{PlayedWhole, PlayedFirst};
ghost use Rattle.run_laws.specs.TurnBound.{most_turns};
ghost use Rattle.job_player.specs.Start.{Emits, CanTurn};

use crate::console::Console;
use port_log::{Ports, Whole};
use port_wire::Gate;
use run_drive::{Player, Sink, TurnPlayer};
use snes_defs::{Job, NoMemory, Side};
use std::alloc::Global;
use std::thread::Threads;
use turn_drive::run_turns;
use word_log::Words;

/// The console of a job at its start, and the ports between its sides, by either wire.
#[derive(Drop)]
pub struct Turning {
    start: Console,
    ports: Ports,
    whole: Whole,
    words: Words,
    word_whole: word_log::Whole,
}

/// What carries the entries of both sides between two workers. What a run emits is the same.
#[derive(Clone, Copy)]
pub enum Carrier {
    /// One log behind a lock.
    Lock,
    /// Words without a lock.
    Words,
}

/// Runs a job's console on two workers, each of which reports to the gate as it starts a turn. Returns how many turns
/// it made: no more than the frames of the job have.
pub fn play_by_turns<R: Threads, G: Gate, K: Sink>(
    turning: Turning,
    rt: &R,
    carrier: Carrier,
    gate: &G,
    sink: &mut K,
) -> Result<u64, Side>
    requires at_start { (job : Job) × CanTurn turning job }
    requires no_video { K.holds sink.old Side.Console [] }
    requires no_sound { K.holds sink.old Side.Sound [] }
    ensures whole { OnOk result ((job : Job) → CanTurn turning job → PlayedWhole (Emits job) (K.holds sink.new)) }
    ensures first { (job : Job) → CanTurn turning job → PlayedFirst (Emits job) (K.holds sink.new) }
    ensures bounded { IfOk result (λ turns. (job : Job) → CanTurn turning job
        → turns ≤ most_turns job.region job.frames) }
    ensures failed { IfErr result (K.failed sink.old sink.new) }
    ensures only { K.only_takes sink.old sink.new }
{
    let Turning {
        start,
        ports,
        whole,
        words,
        word_whole,
    } = turning;
    let Console {
        console,
        sound,
        end,
        mut buffer,
    } = start;
    match carrier {
        Carrier::Lock => run_turns(
            rt,
            &ports,
            whole,
            console,
            sound,
            gate,
            end,
            buffer.as_mut_slice(),
            sink,
        ),
        Carrier::Words => run_turns(
            rt,
            &words,
            word_whole,
            console,
            sound,
            gate,
            end,
            buffer.as_mut_slice(),
            sink,
        ),
    }
}

impl TurnPlayer for Console {
    type Turning = Turning;

    ghost turns = { λ turning job. CanTurn turning job };

    fn ready_turns(alloc: Global, job: &Job) -> Result<Turning, NoMemory> {
        let start = Console::ready(alloc, job)?;
        let (ports, whole) = Ports::open(alloc, job.region)?;
        let (words, word_whole) = Words::open(alloc, job.region)?;
        Ok(Turning {
            start,
            ports,
            whole,
            words,
            word_whole,
        })
    }

    fn play_turns<R: Threads, K: Sink>(
        turning: Turning,
        rt: &R,
        gate: &dyn Gate,
        sink: &mut K,
    ) -> Result<(), Side> {
        match play_by_turns(turning, rt, Carrier::Lock, &gate, sink) {
            Ok(_) => Ok(()),
            Err(side) => Err(side),
        }
    }

    fn play_words<R: Threads, K: Sink>(
        turning: Turning,
        rt: &R,
        gate: &dyn Gate,
        sink: &mut K,
    ) -> Result<(), Side> {
        match play_by_turns(turning, rt, Carrier::Words, &gate, sink) {
            Ok(_) => Ok(()),
            Err(side) => Err(side),
        }
    }
}
