// Tests of the words without a lock: the cases of the lock that have a result, and the numbers of the window.
use crate::cases::{a_byte_for_sound, calls_over_a_whole, refused_calls};
use snes_defs::Region;
use std::test::Fail;
use word_log::Words;

#[test]
fn sound_reads_what_the_console_wrote(rt: HostRuntime) -> Result<(), Fail> {
    let (words, whole) = Words::open(rt.alloc(), Region::Ntsc)?;
    assert_eq!(rt; a_byte_for_sound(&words, whole), None);
    Ok(())
}

#[test]
fn a_refused_call_is_that_of_the_log(rt: HostRuntime) -> Result<(), Fail> {
    let (words, whole) = Words::open(rt.alloc(), Region::Ntsc)?;
    assert_eq!(rt; refused_calls(&words, whole), None);
    Ok(())
}

#[test]
fn calls_over_a_whole_are_those_of_the_log(rt: HostRuntime) -> Result<(), Fail> {
    let (words, mut whole) = Words::open(rt.alloc(), Region::Pal)?;
    assert_eq!(rt; calls_over_a_whole(&words, &mut whole), None);
    Ok(())
}
