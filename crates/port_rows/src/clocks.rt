// The numbers of both regions, against frames and lines counted by hand.
use clock_ratio::{
    end_stamp, end_stamp_in, least, most, samples_before, samples_before_in, stamp_in, window,
};
use snes_defs::{Region, Side};
use std::test::Fail;

#[test]
fn a_frame_of_ntsc_has_532_samples(rt: HostRuntime) -> Result<(), Fail> {
    let end = end_stamp_in(Region::Ntsc, 1);
    let samples = samples_before_in(Region::Ntsc, 2_012_696_576);
    let of_a_second = samples_before(end_stamp(60));
    assert_eq!(rt; [end, samples, of_a_second], [2_012_696_576, 532, 31_947]);
    Ok(())
}

#[test]
fn a_frame_of_pal_has_639_samples(rt: HostRuntime) -> Result<(), Fail> {
    let end = end_stamp_in(Region::Pal, 1);
    let samples = samples_before_in(Region::Pal, 43_578_163_200);
    let none = samples_before_in(Region::Pal, 65_972_247);
    let first = samples_before_in(Region::Pal, 65_972_248);
    assert_eq!(rt; [end, samples, none, first], [43_578_163_200, 639, 0, 1]);
    Ok(())
}

/// Returns the stamps of 6 and of 40 master clocks and of sixteen lines.
fn counted(region: Region) -> [u64; 3] {
    [
        stamp_in(region, Side::Console, 6),
        stamp_in(region, Side::Console, 40),
        stamp_in(region, Side::Console, 16 * 1364),
    ]
}

#[test]
fn steps_and_windows_are_those_of_master_clocks_and_lines(rt: HostRuntime) -> Result<(), Fail> {
    for region in [Region::Ntsc, Region::Pal] {
        assert_eq!(rt;
            [least(region), most(region), window(region)],
            counted(region),
            "{region:?}"
        );
    }
    Ok(())
}
