//! Runs cases, several at once, and returns what is known of each in the order of the file.
//!
//! The main thread reads the files of the cases, and deals what each run needs to the workers in turn. A worker has
//! machines of its own. It reads and writes no file, and shares nothing with another.

ghost use Rattle.std.specs.Prelude.{◌<◌};

use crate::cases::{Ready, Task, Wanted, judge_task, ready_case};
use anyhow::Result;
use bench_checks::{Case, End, Verdict};
use std::alloc::{AllocError, Global};
use std::rt::Files;
use std::thread;
use std::thread::Threads;

/// The most workers.
const MOST_WORKERS: u32 = 64;

/// The cases of a wave for each worker, if there are several: a report comes after each wave.
const WAVE: usize = 8;

/// Who runs the cases.
#[derive(Clone, Copy)]
pub struct Crew {
    /// How many cases run at once: 1 or more.
    workers: usize,
    /// Whether standard error shows which cases run.
    shows: bool,
    /// How many cases there are in all.
    all: usize,
}

/// What the run of a case needs, and the place of the case in the wave.
#[derive(Drop)]
struct Dealt {
    place: usize,
    task: Task,
}

/// A verdict, and the place of its case in the wave.
#[derive(Drop)]
struct Judged {
    place: usize,
    verdict: Verdict,
}

impl Crew {
    /// Returns a crew of so many workers.
    pub fn new(workers: u32, shows: bool, all: usize) -> Crew {
        Crew {
            workers: workers.max(1).min(MOST_WORKERS) as usize,
            shows,
            all,
        }
    }

    /// How many cases are run before they are reported.
    pub fn wave(&self) -> usize
        ensures { 0 < result }
    {
        if self.workers > 1 {
            self.workers.saturating_mul(WAVE).max(1)
        } else {
            1
        }
    }

    /// Shows which cases run, on a line that is written over. `before` is how many have ended.
    fn show<R: Eprint>(&self, rt: &R, before: usize, wave: &[Case]) {
        if !self.shows {
            return;
        }
        let all = self.all;
        let first = before.saturating_add(1);
        let last = before.saturating_add(wave.len());
        let _ = match wave {
            [case] => eprint!(rt; "\r\x1b[K{first} of {all}: {}", case.name.as_str()),
            _ => eprint!(rt; "\r\x1b[K{first} to {last} of {all}"),
        };
    }

    /// Clears what `show` showed.
    fn hide<R: Eprint>(&self, rt: &R) {
        if self.shows {
            let _ = eprint!(rt; "\r\x1b[K");
        }
    }
}

/// Runs a case that is dealt to a worker. The pictures and the sound of one that is as expected are dropped.
fn judge(alloc: Global, keeps: bool, case: &Case, task: &mut Task) -> Result<Verdict, AllocError> {
    let mut verdict = judge_task(alloc, keeps, case, task)?;
    if verdict.end() == End::Passed {
        verdict.forget();
    }
    Ok(verdict)
}

/// Runs a case that is dealt to a worker, and adds the verdict on it.
fn add_judged(
    alloc: Global,
    keeps: bool,
    wave: &[Case],
    dealt: &mut Dealt,
    done: &mut Vec<Judged>,
) -> Result<(), AllocError> {
    let place = dealt.place;
    let Some(case) = wave.get(place) else {
        return Ok(());
    };
    let verdict = judge(alloc, keeps, case, &mut dealt.task)?;
    Ok(done.push(Judged { place, verdict })?)
}

/// Runs the cases that are dealt to a worker.
fn work(
    alloc: Global,
    keeps: bool,
    wave: &[Case],
    hand: Vec<Dealt>,
) -> Result<Vec<Judged>, AllocError> {
    let mut done = Vec::new(alloc);
    for dealt in hand {
        let mut dealt = dealt;
        add_judged(alloc, keeps, wave, &mut dealt, &mut done)?;
    }
    Ok(done)
}

/// So many hands, in which nothing is yet.
fn empty_hands(alloc: Global, count: usize) -> Result<Vec<Vec<Dealt>>, AllocError> {
    let mut hands = Vec::new(alloc);
    for _ in 0..count {
        hands.push(Vec::new(alloc))?;
    }
    Ok(hands)
}

/// The verdict on a case. A case without one can't have been run.
fn verdict_in(alloc: Global, slot: Option<Verdict>) -> Result<Verdict, AllocError> {
    match slot {
        Some(verdict) => Ok(verdict),
        None => Verdict::fault(alloc, String::from_str(alloc, "no worker has run it")?),
    }
}

/// The verdicts, in the order of the cases.
fn in_order(alloc: Global, found: Vec<Option<Verdict>>) -> Result<Vec<Verdict>, AllocError> {
    let mut verdicts = Vec::new(alloc);
    for slot in found {
        verdicts.push(verdict_in(alloc, slot)?)?;
    }
    Ok(verdicts)
}

/// Puts the verdicts of a worker to the places of their cases.
fn put_list(found: &mut [Option<Verdict>], list: Vec<Judged>) {
    for judged in list {
        let Judged { place, verdict } = judged;
        if let Some(slot) = found.get_mut(place) {
            *slot = Some(verdict);
        }
    }
}

/// Puts the verdicts of the workers to the places of their cases.
fn put_in(
    found: &mut [Option<Verdict>],
    lists: Vec<Result<Vec<Judged>, AllocError>>,
) -> Result<(), AllocError> {
    for list in lists {
        put_list(found, list?);
    }
    Ok(())
}

/// Gives what the run of a case needs to the worker whose turn it is.
fn hand_out(hands: &mut [Vec<Dealt>], dealt: Dealt) -> Result<(), AllocError> {
    let workers = hands.len().max(1);
    match hands.get_mut(dealt.place % workers) {
        Some(hand) => Ok(hand.push(dealt)?),
        None => Ok(()),
    }
}

/// Deals what the run of the case at a place needs to a worker. If it has ended without a run, its verdict is noted.
fn deal(
    ready: Ready,
    place: usize,
    hands: &mut [Vec<Dealt>],
    found: &mut Vec<Option<Verdict>>,
) -> Result<(), AllocError> {
    match ready {
        Ready::Ended(verdict) => Ok(found.push(Some(verdict))?),
        Ready::Runs(task) => {
            hand_out(hands, Dealt { place, task })?;
            Ok(found.push(None)?)
        }
    }
}

/// Reads the cases of a wave, and deals what their runs need to so many workers.
fn deal_wave<R: Files + Print + AllocGlobal>(
    rt: &R,
    wanted: &Wanted<'_>,
    wave: &[Case],
    hands: &mut [Vec<Dealt>],
    found: &mut Vec<Option<Verdict>>,
) -> Result<()> {
    for (place, case) in wave.iter().enumerate() {
        let ready = ready_case(rt, wanted, case)?;
        deal(ready, place, hands, found)?;
    }
    Ok(())
}

/// Deals the cases of a wave to so many workers, and lets them run. Returns what each has judged. A case that has ended
/// without a run has its verdict in `found`, and any other one nothing.
fn run_wave<R: Files + Print + AllocGlobal + Threads + Sync>(
    rt: &R,
    wanted: &Wanted<'_>,
    workers: usize,
    wave: &[Case],
    found: &mut Vec<Option<Verdict>>,
) -> Result<Vec<Result<Vec<Judged>, AllocError>>> {
    let (alloc, keeps) = (rt.alloc(), wanted.keeps);
    let mut hands = empty_hands(alloc, workers)?;
    deal_wave(rt, wanted, wave, hands.as_mut_slice(), found)?;
    Ok(thread::map_vec(rt, hands, &|hand| work(alloc, keeps, wave, hand))?)
}

/// Judges the cases of a wave into `found`, at the places of the cases.
fn judge_into<R: Files + Print + AllocGlobal + Threads + Sync>(
    rt: &R,
    wanted: &Wanted<'_>,
    workers: usize,
    wave: &[Case],
    found: &mut Vec<Option<Verdict>>,
) -> Result<()> {
    let lists = run_wave(rt, wanted, workers, wave, found)?;
    Ok(put_in(found.as_mut_slice(), lists)?)
}

/// Judges the cases of a wave. The verdicts are in the order of the cases. `before` is how many cases are before it.
pub fn judge_wave<R: Files + Print + Eprint + AllocGlobal + Threads + Sync>(
    rt: &R,
    wanted: &Wanted<'_>,
    crew: Crew,
    before: usize,
    wave: &[Case],
) -> Result<Vec<Verdict>> {
    crew.show(rt, before, wave);
    let workers = crew.workers.min(wave.len()).max(1);
    let mut found = Vec::new(rt.alloc());
    judge_into(rt, wanted, workers, wave, &mut found)?;
    crew.hide(rt);
    Ok(in_order(rt.alloc(), found)?)
}
