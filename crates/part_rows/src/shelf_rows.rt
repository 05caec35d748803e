// Tests of real files, as an outside reader expects them, and of the lines as they are printed. Planned failures, a
// shelf that never fails and a full device are in the rows of the whole program, in `console_rows`.
use file_shelf::{Cause, Clash, FileShelf};
use run_io::{Line, cannot_read_line, cannot_write_line, frames_line, no_memory_line, usage_line};
use shelf::{Failed, Input, LoadEnd, Out, Shelf};
use std::alloc::Global;
use std::test::Fail;
use std::{env, fs, io};

fn load<H: Shelf>(
    alloc: Global,
    shelf: &mut H,
    name: &str,
    limit: usize,
) -> Result<Vec<u8>, LoadEnd> {
    let mut bytes = Vec::new(alloc);
    shelf.load(name, limit, &mut bytes)?;
    Ok(bytes)
}

fn end_of_load<H: Shelf>(
    alloc: Global,
    shelf: &mut H,
    name: &str,
    limit: usize,
) -> Result<(), LoadEnd> {
    load(alloc, shelf, name, limit)?;
    Ok(())
}

fn put<H: Shelf>(shelf: &mut H, out: Out, text: &str) -> Result<(), Failed> {
    shelf.put(out, text.as_bytes())
}

/// Whether the shelf loads these bytes, and no others, from a file.
fn loads<H: Shelf>(alloc: Global, shelf: &mut H, name: &str, wanted: &str) -> bool {
    match load(alloc, shelf, name, wanted.len()) {
        Ok(bytes) => bytes.as_slice() == wanted.as_bytes(),
        Err(_) => false,
    }
}

/// Whether the shelf loads a file of `abc`, unless there is room for two bytes or the file is removed. A folder is no
/// file.
fn follows_a_file(rt: &HostRuntime, shelf: &mut FileShelf<'_, HostRuntime>, name: &str) -> bool {
    loads(rt.alloc(), shelf, name, "abc")
        && end_of_load(rt.alloc(), shelf, name, 2) == Err(LoadEnd::TooLong)
        && fs::remove_file(rt, name).is_ok()
        && end_of_load(rt.alloc(), shelf, name, 3) == Err(LoadEnd::Failed)
        && end_of_load(rt.alloc(), shelf, "/", 3) == Err(LoadEnd::Failed)
}

#[test]
fn real_files_come_back(rt: HostRuntime) -> Result<(), Fail> {
    let mut path = env::temp_dir(&rt)?;
    path.push("snes-run-io-test")?;
    let name = path.to_str().ok_or("no text")?;
    fs::write(&rt, name, "abc")?;
    let mut shelf = FileShelf::new(&rt);
    assert!(rt; follows_a_file(&rt, &mut shelf, name));
    Ok(())
}

/// Puts text to the video and flushes it, before it is created and after. It is created twice: first as a folder.
fn results_around_creation<H: Shelf>(shelf: &mut H) -> [Result<(), Failed>; 6] {
    [
        put(shelf, Out::Video, "early"),
        shelf.flush(Out::Video),
        shelf.create(Out::Video, "/"),
        shelf.create(Out::Video, "/dev/null"),
        put(shelf, Out::Video, "abc"),
        shelf.flush(Out::Video),
    ]
}

#[test]
fn an_output_takes_nothing_before_it_is_created(rt: HostRuntime) {
    let mut shelf = FileShelf::new(&rt);
    let found = results_around_creation(&mut shelf);
    let failed = Err(Failed);
    assert_eq!(rt; found, [failed, failed, failed, Ok(()), Ok(()), Ok(())]);
}

const FOLDER: &str = "/tmp/snes-part-rows-names";

const READ: &str = "/tmp/snes-part-rows-names/read";

const LINK: &str = "/tmp/snes-part-rows-names/link";

const FILM: &str = "/tmp/snes-part-rows-names/film";

const AGAIN: &str = "/tmp/snes-part-rows-names/./film";

/// Makes a file with two names, and one that is longer than what is put to it.
fn lay_names(rt: &HostRuntime) -> io::Result<()> {
    fs::create_dir_all(rt, FOLDER)?;
    fs::write(rt, READ, "abc")?;
    let _ = fs::remove_file(rt, LINK);
    fs::hard_link(rt, READ, LINK)?;
    fs::write(rt, FILM, "longer than what is put")
}

/// Whether a file has these bytes.
fn has(rt: &HostRuntime, name: &str, wanted: &str) -> bool {
    match fs::read(rt, name) {
        Ok(bytes) => bytes.as_slice() == wanted.as_bytes(),
        Err(_) => false,
    }
}

/// Whether a file that was loaded is refused as an output, under any name, and keeps its bytes. It has one end, since a
/// proof reads all that is dropped again at each end.
fn refuses_what_was_loaded(rt: &HostRuntime, shelf: &mut FileShelf<'_, HostRuntime>) -> bool {
    load(rt.alloc(), shelf, READ, 3).is_ok()
        && shelf.first_fault().is_none()
        && shelf.create(Out::Video, LINK).is_err()
        && shelf.first_fault() == Some(Cause::Same(Clash::Loaded))
        && has(rt, READ, "abc")
}

/// Whether a longer file ends up with what is put to it, and is refused as another output under another name.
fn refuses_the_other_output(rt: &HostRuntime, shelf: &mut FileShelf<'_, HostRuntime>) -> bool {
    shelf.create(Out::Video, FILM).is_ok()
        && put(shelf, Out::Video, "abc").is_ok()
        && shelf.flush(Out::Video).is_ok()
        && shelf.create(Out::Sound, AGAIN).is_err()
        && has(rt, FILM, "abc")
}

/// Whether a device is accepted for two outputs, and an output can be created again.
fn takes_devices(rt: &HostRuntime, shelf: &mut FileShelf<'_, HostRuntime>) -> bool {
    shelf.create(Out::Sound, "/dev/null").is_ok()
        && shelf.create(Out::Image, "/dev/null").is_ok()
        && shelf.create(Out::Video, FILM).is_ok()
        && has(rt, FILM, "")
}

/// Two names of one file: an output is refused before anything is lost, and a device never is.
#[test]
fn an_output_is_no_file_that_the_shelf_has_to_do_with(rt: HostRuntime) {
    let is_laid = lay_names(&rt).is_ok();
    let mut shelf = FileShelf::new(&rt);
    let found = is_laid
        && refuses_what_was_loaded(&rt, &mut shelf)
        && refuses_the_other_output(&rt, &mut shelf)
        && takes_devices(&rt, &mut shelf);
    let _ = fs::remove_dir_all(&rt, FOLDER);
    assert!(rt; found);
}

fn prints(line: &Line, text: &str) -> bool {
    line.bytes() == text.as_bytes()
}

#[test]
fn the_lines_as_printed(rt: HostRuntime) {
    assert!(rt; prints(&frames_line(60, 31947), "frames 60 samples 31947\n"));
    assert!(rt; prints(&usage_line(), "usage: snes run, serial, make or demo\n"));
    assert!(rt; prints(&cannot_read_line(Input::Script), "cannot read script\n"));
    assert!(rt; prints(&no_memory_line(), "no memory\n"));
    assert!(rt;
        cannot_write_line(Out::Video).is_some_and(|line| prints(&line, "cannot write video\n"))
    );
    assert!(rt; cannot_write_line(Out::Say).is_none());
}
