//! Judges a run frame by frame, and finds what is not as expected.

ghost use Rattle.std.specs.Prelude.{◌≡◌};
ghost use Rattle.sha2.specs.Sha256.{sha256};

use crate::pictures::GoldenPng;
use crate::places::compare_memory;
use crate::played::{Awaited, Emitted, Played};
use anyhow::Result;
use bench_checks::{
    Case, FrameCheck, Golden, MemoryCheck, Shot, Sum, Verdict, is_heard_as, is_silent, is_sum_met,
};
use frame_sums::{SumPair, SumsFile};
use golden_frame::Found;
use sha2::{Digest, Sha256};
use std::alloc::Global;

/// How many frames differ from golden ones, and the first.
#[derive(Clone, Copy)]
struct Differing {
    count: u32,
    first: u32,
}

impl Differing {
    /// None so far.
    fn new() -> Differing {
        Differing { count: 0, first: 0 }
    }

    /// Notes a frame.
    fn note(&mut self, frame: u32) {
        if self.count == 0 {
            self.first = frame;
        }
        self.count = self.count.saturating_add(1);
    }
}

/// What the run of a case is compared with, beside what the case says itself.
#[derive(Drop)]
pub struct Compared {
    /// The golden sums, if there are some.
    pub golden: Option<SumsFile>,
    /// The golden PNGs.
    pub pngs: Vec<GoldenPng>,
    /// Where each memory check looks.
    pub places: Vec<u32>,
}

impl Compared {
    /// Nothing so far.
    pub fn new(alloc: Global) -> Compared {
        Compared {
            golden: None,
            pngs: Vec::new(alloc),
            places: Vec::new(alloc),
        }
    }
}

/// A case while it is judged.
#[derive(Drop)]
pub struct Judging<'a> {
    alloc: Global,
    case: &'a Case,
    /// Whether pictures and samples are kept for a page.
    keeps: bool,
    compared: &'a Compared,
    /// What is known of it so far.
    verdict: &'a mut Verdict,
    /// All pictures and all samples so far, if there are golden sums.
    pictures: Sha256,
    sounds: Sha256,
    /// The first frame in which something is heard.
    heard: Option<u32>,
    other_pictures: Differing,
    other_sounds: Differing,
    other_film: Differing,
}

/// The text, or the empty one.
fn text_or_empty(text: &Option<String>) -> &str {
    match text {
        Some(text) => text.as_str(),
        None => "",
    }
}

/// The sums of a frame.
fn sums_of(emitted: &Emitted) -> SumPair
    ensures picture { result.picture ≡ sha256 emitted.now.picture.items }
    ensures sound { result.sound ≡ sha256 emitted.now.sound.items }
{
    SumPair {
        picture: Sha256::digest(emitted.picture.as_slice()),
        sound: Sha256::digest(emitted.sound.as_slice()),
    }
}

/// The golden sums of a frame, if there are some.
fn golden_pair(golden: &Option<SumsFile>, frame: u32) -> Option<SumPair> {
    match golden {
        Some(sums) if (frame as usize) < sums.frames() => Some(sums.pair(frame as usize)),
        _ => None,
    }
}

/// What a sum is, and what is expected.
fn other_sum(
    alloc: Global,
    frame: u32,
    what: &str,
    sum: &[u8; 32],
    expected: &Option<Sum>,
) -> Result<String> {
    let sum = Sum { bytes: *sum };
    match expected {
        Some(expected) => Ok(format!(in alloc;
            "frame {frame}: the {what} has the sum {sum}, not {expected}"
        )?),
        None => Ok(format!(in alloc; "frame {frame}: the {what} has the sum {sum}")?),
    }
}

/// What a page shows beside a picture: that of the golden film, if there is one.
fn golden_film(alloc: Global, film: Option<&[u8]>) -> Result<Option<Golden>> {
    match film {
        Some(bytes) => Ok(Some(Golden::Frame(Vec::from_slice(alloc, bytes)?))),
        None => Ok(None),
    }
}

/// What a page shows beside a picture: a golden PNG. `turned` has a bit turned wherever they differ.
fn golden_png(alloc: Global, png: &GoldenPng, turned: &[u8]) -> Result<Golden> {
    let file = Vec::from_slice(alloc, png.file.as_slice())?;
    Ok(Golden::Png(file, Vec::from_slice(alloc, turned)?))
}

impl<'a> Judging<'a> {
    /// Returns a case before its run.
    pub fn new(
        alloc: Global,
        case: &'a Case,
        keeps: bool,
        compared: &'a Compared,
        verdict: &'a mut Verdict,
    ) -> Judging<'a> {
        Judging {
            alloc,
            case,
            keeps,
            compared,
            verdict,
            pictures: Sha256::new(),
            sounds: Sha256::new(),
            heard: None,
            other_pictures: Differing::new(),
            other_sounds: Differing::new(),
            other_film: Differing::new(),
        }
    }

    /// Keeps the picture of a frame that is not as expected, beside the one that is expected, if it is known.
    fn keep_shot(&mut self, frame: u32, picture: &[u8], expected: Option<Golden>) -> Result<()> {
        let came = Vec::from_slice(self.alloc, picture)?;
        self.verdict.shots.push(Shot {
            frame,
            came,
            expected,
        })?;
        Ok(())
    }

    /// Tells what the comparison of the picture of a frame with a golden PNG found.
    fn tell_png(
        &mut self,
        frame: u32,
        picture: &[u8],
        png: &GoldenPng,
        found: &Found,
    ) -> Result<()> {
        let Some(place) = found.place else {
            return Ok(());
        };
        let line = png.line_of(self.alloc, found.differing, place)?;
        self.verdict.fail(line)?;
        if self.keeps {
            let expected = golden_png(self.alloc, png, found.turned())?;
            self.keep_shot(frame, picture, Some(expected))?;
        }
        Ok(())
    }

    /// Compares the picture of a frame with its golden PNGs.
    fn check_pngs(&mut self, frame: u32, picture: &[u8]) -> Result<()> {
        let (alloc, compared) = (self.alloc, self.compared);
        for png in compared.pngs.as_slice() {
            if png.at == frame {
                let found = png.compare(alloc, picture)?;
                self.tell_png(frame, picture, png, &found)?;
            }
        }
        Ok(())
    }

    /// Compares the sums of a frame with the golden ones. Returns whether they are the same.
    fn compare_golden(&mut self, frame: u32, sums: &SumPair) -> bool {
        let Some(expected) = golden_pair(&self.compared.golden, frame) else {
            return true;
        };
        let pictures_same = expected.picture == sums.picture;
        let sounds_same = expected.sound == sums.sound;
        if !pictures_same {
            self.other_pictures.note(frame);
        }
        if !sounds_same {
            self.other_sounds.note(frame);
        }
        pictures_same && sounds_same
    }

    /// Compares a frame with what is expected of it. Returns whether it is so.
    fn compare_frame(&mut self, check: &FrameCheck, sums: &SumPair) -> Result<bool> {
        let (alloc, frame) = (self.alloc, check.at);
        let picture_met = is_sum_met(&check.picture, &sums.picture);
        let sound_met = is_sum_met(&check.sound, &sums.sound);
        if !picture_met {
            let line = other_sum(alloc, frame, "picture", &sums.picture, &check.picture)?;
            self.verdict.fail(line)?;
        }
        if !sound_met {
            let line = other_sum(alloc, frame, "sound", &sums.sound, &check.sound)?;
            self.verdict.fail(line)?;
        }
        Ok(picture_met && sound_met)
    }

    /// Makes the checks of sums of a frame. Returns whether all is as expected.
    fn check_sums(&mut self, frame: u32, emitted: &Emitted) -> Result<bool> {
        let case = self.case;
        let mut sums = None;
        let mut is_same = true;
        if self.compared.golden.is_some() {
            self.pictures.update(emitted.picture.as_slice());
            self.sounds.update(emitted.sound.as_slice());
            let pair = sums_of(emitted);
            is_same = self.compare_golden(frame, &pair);
            sums = Some(pair);
        }
        for check in case.frame_checks.as_slice() {
            if check.at == frame {
                let pair = match sums {
                    Some(pair) => pair,
                    None => sums_of(emitted),
                };
                sums = Some(pair);
                is_same = self.compare_frame(check, &pair)? && is_same;
            }
        }
        Ok(is_same)
    }

    /// Makes a check of a memory. Returns whether it is as expected.
    fn check_memory(&mut self, played: &Played, check: &MemoryCheck, place: u32) -> Result<bool> {
        match compare_memory(self.alloc, played, check, place)? {
            Some(line) => {
                self.verdict.fail(line)?;
                Ok(false)
            }
            None => Ok(true),
        }
    }

    /// Makes the checks of memories of a frame. Returns whether all is as expected.
    fn check_memories(&mut self, frame: u32, played: &Played) -> Result<bool> {
        let case = self.case;
        let mut is_same = true;
        for (number, check) in case.memory_checks.as_slice().iter().enumerate() {
            let place = self.compared.places.as_slice().get(number).copied();
            if let Some(place) = place {
                if check.at == frame {
                    is_same = self.check_memory(played, check, place)? && is_same;
                }
            }
        }
        Ok(is_same)
    }

    /// Notes whether something is heard in a frame, and keeps its samples.
    fn hear(&mut self, frame: u32, samples: &[u8]) -> Result<()> {
        if self.keeps {
            self.verdict.sound.extend_from_slice(samples)?;
        }
        if self.heard.is_none() && !is_silent(samples) {
            self.heard = Some(frame);
        }
        Ok(())
    }

    /// Judges a frame that has run. `film` is the golden picture, if there is a golden film.
    pub fn judge_frame(&mut self, frame: u32, played: &Played, film: Option<&[u8]>) -> Result<()> {
        let emitted = played.emitted();
        self.hear(frame, emitted.sound.as_slice())?;
        let sums_met = self.check_sums(frame, emitted)?;
        let memories_met = self.check_memories(frame, played)?;
        let picture = emitted.picture.as_slice();
        self.check_pngs(frame, picture)?;
        let film_met = match film {
            Some(golden) => golden == picture,
            None => true,
        };
        if !film_met {
            self.other_film.note(frame);
        }
        let is_met = sums_met && memories_met && film_met;
        if self.keeps && !is_met && self.verdict.shots.is_empty() {
            let expected = golden_film(self.alloc, film)?;
            self.keep_shot(frame, picture, expected)?;
        }
        Ok(())
    }

    /// Says how many frames differ from golden ones.
    fn tell_differing(&mut self, what: &str, than: &str, found: Differing) -> Result<()> {
        let alloc = self.alloc;
        if found.count > 0 {
            let frames = self.case.frames;
            let Differing { count, first } = found;
            self.verdict.fail(format!(in alloc;
                "{count} of {frames} {what} are other than in {than}: first that of frame {first}"
            )?)?;
        }
        Ok(())
    }

    /// Compares the number of frames and the sums of the whole run with the golden ones.
    fn judge_whole(&mut self, name: &str) -> Result<()> {
        let (alloc, frames) = (self.alloc, self.case.frames);
        let Some(golden) = &self.compared.golden else {
            return Ok(());
        };
        let (count, all) = (golden.frames(), golden.all());
        if count != frames as usize {
            let line = format!(in alloc; "{frames} frames were run, and {name} has {count}")?;
            return Ok(self.verdict.fail(line)?);
        }
        let frames_same = self.other_pictures.count == 0 && self.other_sounds.count == 0;
        let is_same = all.picture == self.pictures.finalize_reset()
            && all.sound == self.sounds.finalize_reset();
        if frames_same && !is_same {
            let line = format!(in alloc; "the sums of the whole run are other than in {name}")?;
            self.verdict.fail(line)?;
        }
        Ok(())
    }

    /// Says whether what is heard is as expected.
    fn judge_sound(&mut self) -> Result<()> {
        let alloc = self.alloc;
        if is_heard_as(self.case.is_heard, self.heard) {
            return Ok(());
        }
        let line = match self.heard {
            Some(frame) => format!(in alloc; "something is heard, first in frame {frame}")?,
            None => String::from_str(alloc, "nothing is heard")?,
        };
        Ok(self.verdict.fail(line)?)
    }

    /// Says whether the awaited instructions began in time.
    fn judge_reaches(&mut self, awaited: &[Awaited]) -> Result<()> {
        let (alloc, case) = (self.alloc, self.case);
        for (reach, one) in case.reaches.as_slice().iter().zip(awaited.iter()) {
            let (address, within) = (one.address, reach.within);
            if !reach.is_met(one.reached) {
                self.verdict.fail(match one.reached {
                    Some(frame) => format!(in alloc;
                        "the first instruction at {address:06X} begins in frame {frame}, not within {within} frames"
                    )?,
                    None => format!(in alloc; "no instruction at {address:06X} begins in the run")?,
                })?;
            }
        }
        Ok(())
    }

    /// Judges the whole run after its last frame.
    pub fn end(&mut self, awaited: &[Awaited]) -> Result<()> {
        let case = self.case;
        let sums = text_or_empty(&case.sums);
        let film = text_or_empty(&case.film);
        let (pictures, sounds) = (self.other_pictures, self.other_sounds);
        let film_pictures = self.other_film;
        self.tell_differing("pictures", sums, pictures)?;
        self.tell_differing("sounds", sums, sounds)?;
        self.judge_whole(sums)?;
        self.tell_differing("pictures", film, film_pictures)?;
        self.judge_sound()?;
        self.judge_reaches(awaited)
    }

    /// Notes what is not as expected: a line.
    pub fn fail(&mut self, line: String) -> Result<()> {
        Ok(self.verdict.fail(line)?)
    }

    /// Notes what else was done: a line.
    pub fn note(&mut self, line: String) -> Result<()> {
        Ok(self.verdict.notes.push(line)?)
    }
}
