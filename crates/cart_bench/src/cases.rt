//! Reads a case, runs it, and returns the verdict on it.
//!
//! What a run needs is read first (`ready_case`), so that a worker that runs it (`judge_task`) touches no file. A run that
//! reads a golden film or makes golden sums is made at once.

use crate::golden::{Recorder, golden_of};
use crate::inputs::{Input, Reader, input_of};
use crate::judging::{Compared, Judging};
use crate::labels::{number_of, symbols_of};
use crate::pictures::read_pngs;
use crate::played::{Awaited, Played};
use crate::warnings::judge_warnings;
use crate::watching::{Watching, watching_of};
use anyhow::{Context, Error, Result, bail};
use bench_checks::{Case, Verdict};
use film_formats::{FRAME_BYTES, Piece, read_piece};
use frame_sums::SumsFile;
use snes_defs::{Job, Region};
use std::alloc::{AllocError, Global};
use std::fs;
use std::io::Read;
use std::rt::Files;
use symbol_files::Symbols;

/// How a case is judged.
#[derive(Clone, Copy)]
pub struct Wanted<'a> {
    /// The folder of the bench file: empty, or with a slash at its end.
    pub folder: &'a str,
    /// Whether pictures and samples are kept for a page.
    pub keeps: bool,
    /// Whether golden sums are made, and not compared.
    pub updates: bool,
}

/// A golden film, and its current picture.
#[derive(Drop)]
struct Film<F: Read + Drop> {
    name: String,
    file: F,
    picture: Vec<u8>,
}

impl<F: Read + Drop> Film<F> {
    /// Reads the picture of the next frame.
    fn next(&mut self, frame: u32) -> Result<()> {
        let name = self.name.as_str();
        if self.picture.is_empty() {
            return Ok(());
        }
        match read_piece(&mut self.file, self.picture.as_mut_slice()).context(format_args!(
            "cannot read {name}"
        ))? {
            Piece::Whole => Ok(()),
            _ => bail!("{name} refused: it has no whole frame {frame}"),
        }
    }
}

/// Opens the golden film of a case, if it names one.
fn film_of<R: Files + Print>(reader: &Reader<'_, R>, case: &Case) -> Result<Option<Film<R::File>>> {
    let Some(name) = &case.film else {
        return Ok(None);
    };
    let picture = vec![in reader.alloc; 0u8; FRAME_BYTES]?;
    let name = reader.path_of(name.as_str())?;
    let file = fs::open(reader.rt, name.as_str()).context(format_args!("cannot read {name}"))?;
    Ok(Some(Film {
        name,
        file,
        picture,
    }))
}

/// Finds where each memory check of a case looks.
fn find_places(case: &Case, symbols: Option<&Symbols>, places: &mut Vec<u32>) -> Result<()> {
    for check in case.memory_checks.as_slice() {
        places.push(number_of(symbols, &check.place)?)?;
    }
    Ok(())
}

/// Finds the addresses that a case waits for.
fn find_awaited(case: &Case, symbols: Option<&Symbols>, awaited: &mut Vec<Awaited>) -> Result<()> {
    for reach in case.reaches.as_slice() {
        let address = number_of(symbols, &reach.address)?;
        awaited.push(Awaited {
            address,
            reached: None,
        })?;
    }
    Ok(())
}

/// What the run of a case needs: it is read, and no file is touched any more.
#[derive(Drop)]
pub struct Task {
    job: Job,
    compared: Compared,
    awaited: Vec<Awaited>,
    /// What the watch needs, if no warnings are expected.
    watching: Option<Watching>,
}

/// A case that has been read.
#[derive(Drop)]
pub enum Ready {
    /// It is to be run.
    Runs(Task),
    /// It has ended, or there is nothing to run.
    Ended(Verdict),
}

/// Reads the golden sums of a case, if they are compared.
fn read_sums<R: Files + Print>(
    reader: &mut Reader<'_, R>,
    wanted: &Wanted<'_>,
    case: &Case,
) -> Result<Option<SumsFile>> {
    if wanted.updates {
        return Ok(None);
    }
    match &case.sums {
        Some(name) => Ok(Some(golden_of(reader, name.as_str())?)),
        None => Ok(None),
    }
}

/// Finds what the labels of a case stand for.
fn find_labels(case: &Case, symbols: Option<&Symbols>, task: &mut Task) -> Result<()> {
    find_places(case, symbols, &mut task.compared.places)?;
    find_awaited(case, symbols, &mut task.awaited)
}

/// Reads into a task what its run needs beside the job and the symbol file. `size` is that of the cartridge's file.
fn read_beside<R: Files + Print>(
    reader: &mut Reader<'_, R>,
    wanted: &Wanted<'_>,
    case: &Case,
    size: usize,
    symbols: Option<&Symbols>,
    task: &mut Task,
) -> Result<()> {
    task.compared.golden = read_sums(reader, wanted, case)?;
    read_pngs(reader, case, &mut task.compared.pngs)?;
    find_labels(case, symbols, task)?;
    task.watching = watching_of(reader, case, size)?;
    Ok(())
}

/// Reads into a task what its run needs beside the job. Who owns the task drops it after a fault.
fn read_task<R: Files + Print>(
    reader: &mut Reader<'_, R>,
    wanted: &Wanted<'_>,
    case: &Case,
    size: usize,
    task: &mut Task,
) -> Result<()> {
    let symbols = symbols_of(reader, case)?;
    read_beside(reader, wanted, case, size, symbols.as_ref(), task)
}

/// Reads what the run of a case needs. `size` is that of the cartridge's file.
fn task_of<R: Files + Print>(
    reader: &mut Reader<'_, R>,
    wanted: &Wanted<'_>,
    case: &Case,
    job: Job,
    size: usize,
) -> Result<Task> {
    let mut task = Task {
        job,
        compared: Compared::new(reader.alloc),
        awaited: Vec::new(reader.alloc),
        watching: None,
    };
    read_task(reader, wanted, case, size, &mut task)?;
    Ok(task)
}

/// Runs the frames of a case, and judges them.
fn judge_frames(
    played: &mut Played,
    frames: u32,
    awaited: &mut [Awaited],
    judging: &mut Judging<'_>,
) -> Result<()> {
    for frame in 0..frames {
        played.next_frame(awaited)?;
        judging.judge_frame(frame, played, None)?;
    }
    judging.end(awaited)
}

/// Runs the job of a case, and judges its frames.
fn judge_job(
    alloc: Global,
    job: &Job,
    awaited: &mut [Awaited],
    judging: &mut Judging<'_>,
) -> Result<()> {
    let mut played = Played::new(alloc, job)?;
    judge_frames(&mut played, job.frames, awaited, judging)
}

/// Runs the job of a case and judges its frames, and once more under the watch if no warnings are expected.
fn judge_runs(
    alloc: Global,
    job: &Job,
    watching: &Option<Watching>,
    awaited: &mut [Awaited],
    judging: &mut Judging<'_>,
) -> Result<()> {
    judge_job(alloc, job, awaited, judging)?;
    judge_warnings(alloc, watching, job, judging)
}

/// Runs a case that has been read, and judges it into a verdict.
fn run_task(
    alloc: Global,
    keeps: bool,
    case: &Case,
    task: &mut Task,
    verdict: &mut Verdict,
) -> Result<()> {
    let mut judging = Judging::new(alloc, case, keeps, &task.compared, verdict);
    let awaited = task.awaited.as_mut_slice();
    judge_runs(alloc, &task.job, &task.watching, awaited, &mut judging)
}

/// What makes the golden sums of a case, if they are made.
fn recorder_of(
    alloc: Global,
    wanted: &Wanted<'_>,
    case: &Case,
    region: Region,
) -> Result<Option<Recorder>> {
    if !wanted.updates || case.sums.is_none() {
        return Ok(None);
    }
    match Recorder::new(alloc, region, case.frames) {
        Ok(recorder) => Ok(Some(recorder)),
        Err(_) => bail!("no memory"),
    }
}

/// What a run has beside its machines: its golden film, and what makes its golden sums.
#[derive(Drop)]
struct Beside<F: Read + Drop> {
    film: Option<Film<F>>,
    recorder: Option<Recorder>,
}

impl<F: Read + Drop> Beside<F> {
    /// Takes the next frame, and judges it.
    fn judge_frame(
        &mut self,
        frame: u32,
        played: &Played,
        judging: &mut Judging<'_>,
    ) -> Result<()> {
        if let Some(sums) = &mut self.recorder {
            let emitted = played.emitted();
            sums.take(emitted.picture.as_slice(), emitted.sound.as_slice());
        }
        match &mut self.film {
            Some(film) => {
                film.next(frame)?;
                judging.judge_frame(frame, played, Some(film.picture.as_slice()))
            }
            None => judging.judge_frame(frame, played, None),
        }
    }

    /// Runs the frames of a case, and judges them.
    fn judge_frames(
        &mut self,
        played: &mut Played,
        frames: u32,
        awaited: &mut [Awaited],
        judging: &mut Judging<'_>,
    ) -> Result<()> {
        for frame in 0..frames {
            played.next_frame(awaited)?;
            self.judge_frame(frame, played, judging)?;
        }
        judging.end(awaited)
    }

    /// Runs the job of a case, and judges its frames.
    fn judge_job(
        &mut self,
        alloc: Global,
        job: &Job,
        awaited: &mut [Awaited],
        judging: &mut Judging<'_>,
    ) -> Result<()> {
        let mut played = Played::new(alloc, job)?;
        self.judge_frames(&mut played, job.frames, awaited, judging)
    }
}

/// What the run of a case has beside its machines.
fn beside_of<R: Files + Print>(
    reader: &Reader<'_, R>,
    wanted: &Wanted<'_>,
    case: &Case,
    region: Region,
) -> Result<Beside<R::File>> {
    let film = film_of(reader, case)?;
    let recorder = recorder_of(reader.alloc, wanted, case, region)?;
    Ok(Beside { film, recorder })
}

/// Runs a case beside its golden film, or to make its golden sums, and judges it. Returns what made the sums, too.
fn run_beside<R: Files + Print>(
    reader: &Reader<'_, R>,
    wanted: &Wanted<'_>,
    case: &Case,
    job: &Job,
    awaited: &mut [Awaited],
    judging: &mut Judging<'_>,
) -> Result<Option<Recorder>> {
    let mut beside = beside_of(reader, wanted, case, job.region)?;
    beside.judge_job(reader.alloc, job, awaited, judging)?;
    Ok(beside.recorder)
}

/// Writes the golden sums of a case that made them, and notes it.
fn write_sums<R: Files + Print>(
    reader: &mut Reader<'_, R>,
    case: &Case,
    sums: Recorder,
    judging: &mut Judging<'_>,
) -> Result<()> {
    let Some(name) = &case.sums else {
        return Ok(());
    };
    let path = reader.path_of(name.as_str())?;
    sums.write(reader, path.as_str())?;
    judging.note(format!(in reader.alloc; "wrote {path}")?)
}

/// Runs a case beside its golden film, or to make its golden sums, and judges it.
fn judge_with_files<R: Files + Print>(
    reader: &mut Reader<'_, R>,
    wanted: &Wanted<'_>,
    case: &Case,
    job: &Job,
    awaited: &mut [Awaited],
    judging: &mut Judging<'_>,
) -> Result<()> {
    match run_beside(reader, wanted, case, job, awaited, judging)? {
        Some(sums) => write_sums(reader, case, sums, judging),
        None => Ok(()),
    }
}

/// Runs a case beside its golden film, or to make its golden sums, and judges it into a verdict.
fn run_with_files<R: Files + Print>(
    reader: &mut Reader<'_, R>,
    wanted: &Wanted<'_>,
    case: &Case,
    task: &mut Task,
    verdict: &mut Verdict,
) -> Result<()> {
    let alloc = reader.alloc;
    let mut judging = Judging::new(alloc, case, wanted.keeps, &task.compared, verdict);
    let awaited = task.awaited.as_mut_slice();
    judge_with_files(reader, wanted, case, &task.job, awaited, &mut judging)?;
    judge_warnings(alloc, &task.watching, &task.job, &mut judging)
}

/// A case in which this one thing is not as expected.
fn failed(alloc: Global, line: String) -> Result<Ready> {
    let mut verdict = Verdict::new(alloc);
    verdict.fail(line)?;
    Ok(Ready::Ended(verdict))
}

/// A case whose cartridge is refused: compares why with what is expected.
fn refused(alloc: Global, case: &Case, cause: &str) -> Result<Ready> {
    match &case.refused {
        Some(expected) if expected.as_str() == cause => Ok(Ready::Ended(Verdict::new(alloc))),
        Some(_) => failed(
            alloc,
            format!(in alloc; "the cartridge is refused: {cause}")?,
        ),
        None => bail!("{} refused: {cause}", case.cart.as_str()),
    }
}

/// A case whose cartridge is accepted against what is expected.
fn accepted(alloc: Global) -> Result<Ready> {
    failed(alloc, String::from_str(alloc, "the cartridge is accepted")?)
}

/// Whether the run of a case reads or writes files.
fn has_files(wanted: &Wanted<'_>, case: &Case) -> bool {
    case.film.is_some() || (wanted.updates && case.sums.is_some())
}

/// Makes the run of a case that reads or writes files.
fn end_with_files<R: Files + Print>(
    reader: &mut Reader<'_, R>,
    wanted: &Wanted<'_>,
    case: &Case,
    task: &mut Task,
) -> Result<Ready> {
    let mut verdict = Verdict::new(reader.alloc);
    run_with_files(reader, wanted, case, task, &mut verdict)?;
    Ok(Ready::Ended(verdict))
}

/// Reads what the run of a case needs, and makes the run at once if it reads or writes files. `size` is that of the
/// cartridge's file.
fn ready_to_run<R: Files + Print>(
    reader: &mut Reader<'_, R>,
    wanted: &Wanted<'_>,
    case: &Case,
    job: Job,
    size: usize,
) -> Result<Ready> {
    let mut task = task_of(reader, wanted, case, job, size)?;
    if has_files(wanted, case) {
        return end_with_files(reader, wanted, case, &mut task);
    }
    Ok(Ready::Runs(task))
}

/// Reads a case with this reader.
fn ready_by<R: Files + Print>(
    reader: &mut Reader<'_, R>,
    wanted: &Wanted<'_>,
    case: &Case,
) -> Result<Ready> {
    match input_of(reader, case)? {
        Input::Refused(cause) => refused(reader.alloc, case, cause.as_str()),
        Input::Runs(_, _) if case.refused.is_some() => accepted(reader.alloc),
        Input::Runs(job, size) => ready_to_run(reader, wanted, case, job, size),
    }
}

/// Reads a case. What can't be read is an error.
fn try_ready<R: Files + Print + AllocGlobal>(
    rt: &R,
    wanted: &Wanted<'_>,
    case: &Case,
) -> Result<Ready> {
    let mut reader = Reader::new(rt, rt.alloc(), wanted.folder);
    ready_by(&mut reader, wanted, case)
}

/// Reads a case. If it can't be read, its verdict says so.
pub fn ready_case<R: Files + Print + AllocGlobal>(
    rt: &R,
    wanted: &Wanted<'_>,
    case: &Case,
) -> Result<Ready, AllocError> {
    match try_ready(rt, wanted, case) {
        Ok(ready) => Ok(ready),
        Err(error) => Ok(Ready::Ended(fault_for(rt.alloc(), &error)?)),
    }
}

/// The verdict on a case that could not be run, for this error.
fn fault_for(alloc: Global, error: &Error) -> Result<Verdict, AllocError> {
    let reason = format!(in alloc; "{error:#}")?;
    Verdict::fault(alloc, reason)
}

/// Runs a case that has been read, and returns the verdict on it.
pub fn judge_task(
    alloc: Global,
    keeps: bool,
    case: &Case,
    task: &mut Task,
) -> Result<Verdict, AllocError> {
    let mut verdict = Verdict::new(alloc);
    match run_task(alloc, keeps, case, task, &mut verdict) {
        Ok(()) => Ok(verdict),
        Err(error) => fault_for(alloc, &error),
    }
}
