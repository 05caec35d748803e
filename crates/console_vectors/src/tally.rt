use crate::case::Case;
use crate::marks::Marks;
use crate::play::play;
use crate::record::Record;
use crate::steps::record_steps;
use crate::turns::play_on_two;
use job_player::Carrier;
use port_wire::Gate;
use snes_defs::Job;
use std::alloc::Global;
use std::io;
use std::rt::Files;
use std::thread::Threads;
use turn_watch::{Counts, Watch};

/// The counts of the workers of all jobs so far, over one wire.
#[derive(Drop)]
pub struct Workers {
    /// The turns of all jobs.
    pub turns: Counts,
    /// The number of jobs in which every turn had two threads.
    pub on_two_threads: u64,
    /// The number of jobs in which both legs of a turn overlapped, or that had fewer than four turns.
    pub overlapping: u64,
}

impl Workers {
    fn none() -> Workers {
        Workers {
            turns: Counts::none(),
            on_two_threads: 0,
            overlapping: 0,
        }
    }

    /// Counts a further job.
    fn count(&mut self, counts: Counts) {
        self.turns = self.turns.and(counts);
        if counts.all_on_two_threads() {
            self.on_two_threads = self.on_two_threads.saturating_add(1);
        }
        if counts.overlaps() {
            self.overlapping = self.overlapping.saturating_add(1);
        }
    }
}

/// The results of the jobs so far.
#[derive(Drop)]
pub struct Tally {
    /// The number of jobs.
    pub jobs: u64,
    /// The number of jobs that differ by the serial console.
    pub different: u64,
    /// The number of jobs that differ by turns over the log behind its lock.
    pub different_by_turns: u64,
    /// The number of jobs that differ by turns over words without a lock.
    pub different_without_lock: u64,
    /// The counts of two workers over the log behind its lock.
    pub locked: Workers,
    /// The counts of two workers over words without a lock.
    pub lockless: Workers,
    /// The number of hashes of first steps.
    pub beginnings: usize,
    /// The number of hashes of first steps that differ.
    pub beginnings_different: usize,
}

impl Tally {
    /// Returns the results of no jobs.
    pub fn new() -> Tally {
        Tally {
            jobs: 0,
            different: 0,
            different_by_turns: 0,
            different_without_lock: 0,
            locked: Workers::none(),
            lockless: Workers::none(),
            beginnings: 0,
            beginnings_different: 0,
        }
    }
}

/// Plays a job by the serial console, and returns whether each frame agrees with the marks.
fn agrees_with(alloc: Global, job: &Job, marks: &mut Marks) -> Option<bool> {
    play(alloc, job, marks)?;
    Some(marks.agree())
}

/// Whether each frame of a case's job agrees by the serial console; `None` if it can't be played.
fn agrees(alloc: Global, case: &Case, job: &Job) -> Option<bool> {
    let mut marks = case.marks(alloc)?;
    agrees_with(alloc, job, &mut marks)
}

/// Records a job's first steps, and returns the number of their hashes, and how many agree.
fn count_steps(
    alloc: Global,
    job: &Job,
    console: &mut Record,
    sound: &mut Record,
) -> Option<(usize, usize)> {
    record_steps(alloc, job, console, sound)?;
    let (of_console, console_agree) = console.count();
    let (of_sound, sound_agree) = sound.count();
    Some((
        of_console.saturating_add(of_sound),
        console_agree.saturating_add(sound_agree),
    ))
}

/// Returns the number of hashes of the first steps of a case's job, and how many agree.
fn steps_that_agree(alloc: Global, case: &Case, job: &Job) -> Option<(usize, usize)> {
    let (mut console, mut sound) = case.records(alloc)?;
    count_steps(alloc, job, &mut console, &mut sound)
}

/// Compares the first steps of a case's job, and names it if one of their hashes differs.
fn compare_steps<R: AllocGlobal + Print>(
    rt: &R,
    case: &Case,
    job: &Job,
    tally: &mut Tally,
) -> io::Result<()> {
    let number = tally.jobs;
    let Some((beginnings, agree)) = steps_that_agree(rt.alloc(), case, job) else {
        return println!(rt; "job {number} makes too few steps");
    };
    tally.beginnings = tally.beginnings.saturating_add(beginnings);
    if agree != beginnings {
        let different = beginnings.saturating_sub(agree);
        tally.beginnings_different = tally.beginnings_different.saturating_add(different);
        println!(rt; "job {number} has other steps")?;
    }
    Ok(())
}

/// The result of a job by turns.
#[derive(Clone, Copy)]
struct ByTurns {
    agrees: bool,
    /// Whether the turns were numbered as they should be, and few enough.
    numbered: bool,
    counts: Counts,
}

/// Returns the result of a job that made these turns, if it was played. It may make no more than `most`.
fn turns_told(counts: Counts, turns: Option<u64>, most: u64, marks: &Marks) -> Option<ByTurns> {
    let turns = turns?;
    Some(ByTurns {
        agrees: marks.agree(),
        numbered: counts.turns == turns && turns <= most,
        counts,
    })
}

/// Runs a case's job by turns over a wire; `None` if it can't be played. The watch is the gate too.
fn by_turns<R: AllocGlobal + Threads + Files>(
    rt: &R,
    watch: &Watch<'_, R>,
    gate: &dyn Gate,
    case: &Case,
    job: &Job,
    carrier: Carrier,
) -> Option<ByTurns> {
    let mut marks = case.marks(rt.alloc())?;
    watch.begin();
    let turns = play_on_two(rt, job, carrier, gate, &mut marks);
    turns_told(watch.counts(), turns, case.turns, &marks)
}

/// The results of a job each way.
#[derive(Clone, Copy)]
struct Found {
    /// Whether it agrees by the serial console.
    agrees: bool,
    /// The result over the log behind its lock.
    locked: ByTurns,
    /// The result over words without a lock.
    lockless: ByTurns,
}

/// Plays a case's job each way; `None` if it can't be played.
fn play_each_way<R: AllocGlobal + Threads + Files>(
    rt: &R,
    watch: &Watch<'_, R>,
    gate: &dyn Gate,
    case: &Case,
    job: &Job,
) -> Option<Found> {
    Some(Found {
        agrees: agrees(rt.alloc(), case, job)?,
        locked: by_turns(rt, watch, gate, case, job, Carrier::Lock)?,
        lockless: by_turns(rt, watch, gate, case, job, Carrier::Words)?,
    })
}

/// Counts a job that differs one way, and names it.
fn tell_difference<R: Print>(rt: &R, job: u64, how: &str, different: &mut u64) -> io::Result<()> {
    *different = different.saturating_add(1);
    println!(rt; "job {job} differs{how}")
}

/// Counts each way in which a job differs, and names them.
fn tell_differences<R: Print>(rt: &R, found: Found, tally: &mut Tally) -> io::Result<()> {
    let job = tally.jobs;
    if !found.agrees {
        tell_difference(rt, job, "", &mut tally.different)?;
    }
    if !found.locked.agrees {
        tell_difference(rt, job, " by turns", &mut tally.different_by_turns)?;
    }
    if !found.lockless.agrees {
        tell_difference(
            rt,
            job,
            " without a lock",
            &mut tally.different_without_lock,
        )?;
    }
    if !found.locked.numbered || !found.lockless.numbered {
        println!(rt; "job {job} has other turns")?;
    }
    Ok(())
}

/// Compares a case's job each way, and names what is wrong.
fn compare_job<R: AllocGlobal + Threads + Files + Print>(
    rt: &R,
    watch: &Watch<'_, R>,
    gate: &dyn Gate,
    case: &Case,
    job: &Job,
    tally: &mut Tally,
) -> io::Result<()> {
    let Some(found) = play_each_way(rt, watch, gate, case, job) else {
        return name_no_job(rt, tally.jobs);
    };
    tell_differences(rt, found, tally)?;
    tally.locked.count(found.locked.counts);
    tally.lockless.count(found.lockless.counts);
    compare_steps(rt, case, job, tally)
}

/// Prints that a job is not valid, or can't be played.
fn name_no_job(rt: &impl Print, number: u64) -> io::Result<()> {
    println!(rt; "job {number} is none")
}

/// Compares the job of a case each way, counts it, and names what is wrong.
pub fn compare<R: AllocGlobal + Threads + Files + Print>(
    rt: &R,
    watch: &Watch<'_, R>,
    gate: &dyn Gate,
    case: &Case,
    tally: &mut Tally,
) -> io::Result<()> {
    tally.jobs = tally.jobs.saturating_add(1);
    match case.job(rt.alloc()) {
        Some(job) => compare_job(rt, watch, gate, case, &job, tally),
        None => name_no_job(rt, tally.jobs),
    }
}
