ghost use Rattle.std.specs.Prelude.{◌≡◌, ◌≤◌};
ghost use Rattle.snes_defs.specs.declared.region.Region.TheVariants.{Ntsc};

use port_log::Ports;
use port_wire::Wire;
use snes_defs::{Region, Side};
use std::test::Fail;
use word_log::Words;

// Writes a byte from the console to port 0 at stamp 0, over any wire of new ports. Returns whether it is taken, and
// whether the sound side reads it there over its pass, and then over the whole.
fn carried<W: Wire>(wire: &W, whole: W::Whole) -> [bool; 3]
where
    W::Whole: Drop,
    requires of { W.is_whole_of wire.now whole }
    requires region { W.region_of wire.now ≡ Ntsc }
    requires console { (W.both whole).console.at ≡ 0 }
    requires sound { (W.both whole).sound.at ≡ 0 }
{
    let (mut console, mut sound) = wire.part(whole);
    let written = wire.write(&mut console, 0, 0, 5, 33_792);
    let heard = wire.read(&mut sound, 0, 0);
    let mut whole = wire.reunite(console, sound);
    let again = wire.read_whole(&mut whole, Side::Sound, 0, 0);
    [written == Ok(()), heard == Ok(5), again == Ok(5)]
}

#[test]
fn the_ports_are_a_wire(rt: HostRuntime) -> Result<(), Fail> {
    let (ports, whole) = Ports::open(rt.alloc(), Region::Ntsc)?;
    assert_eq!(rt; carried(&ports, whole), [true; 3]);
    Ok(())
}

#[test]
fn the_words_are_a_wire(rt: HostRuntime) -> Result<(), Fail> {
    let (words, whole) = Words::open(rt.alloc(), Region::Ntsc)?;
    assert_eq!(rt; carried(&words, whole), [true; 3]);
    Ok(())
}
