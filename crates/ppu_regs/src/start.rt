//! The registers at the start.
ghost use Rattle.std.specs.Prelude.{◌≡◌};
ghost use Rattle.ppu_regs.specs.Picture.{background_start, windows_start, screens_start, rotation_start, colour_start};
ghost use Rattle.ppu_regs.specs.Picture.{registers_start};

use crate::registers::{
    Background, CgramPort, ColourMath, Combine, Counters, Display, LayerScreens, LayerWindows,
    OamPort, ObjectTiles, Outside, Over, Registers, Rotation, Settings, VramPort, Window,
    WindowPart,
};
use snes_defs::Profile;

impl Background {
    fn start() -> Background
        ensures { result ≡ background_start }
    {
        Background {
            large: false,
            mosaic: false,
            map_base: 0,
            wide: false,
            tall: false,
            tile_base: 0,
            scroll_x: 0,
            scroll_y: 0,
        }
    }
}

impl LayerWindows {
    fn start() -> LayerWindows
        ensures { result ≡ windows_start }
    {
        LayerWindows {
            one_outside: false,
            one_on: false,
            two_outside: false,
            two_on: false,
            combine: Combine::Or,
        }
    }
}

impl LayerScreens {
    fn start() -> LayerScreens
        ensures { result ≡ screens_start }
    {
        LayerScreens {
            main: false,
            sub: false,
            main_masked: false,
            sub_masked: false,
            arithmetic: false,
        }
    }
}

impl Rotation {
    fn start() -> Rotation
        ensures { result ≡ rotation_start }
    {
        Rotation {
            flip_x: false,
            flip_y: false,
            outside: Outside::Wrap,
            a: 0,
            b: 0,
            c: 0,
            d: 0,
            center_x: 0,
            center_y: 0,
            scroll_x: 0,
            scroll_y: 0,
            kept: 0,
        }
    }
}

impl ColourMath {
    fn start() -> ColourMath
        ensures { result ≡ colour_start }
    {
        ColourMath {
            black: WindowPart::Never,
            none: WindowPart::Never,
            sub_screen: false,
            direct: false,
            subtract: false,
            halve: false,
            backdrop: false,
            red: 0,
            green: 0,
            blue: 0,
        }
    }
}

impl Registers {
    /// Returns the registers of a profile at the start: forced blank, VRAM's step 1, all else 0.
    pub fn start(profile: Profile) -> Registers
        ensures { result ≡ registers_start profile }
    {
        Registers {
            display: Display {
                blanked: true,
                brightness: 0,
            },
            object_tiles: ObjectTiles {
                size: 0,
                gap: 0,
                base: 0,
            },
            oam: OamPort {
                word: 0,
                rotates: false,
                address: 0,
                kept: 0,
            },
            mode: 0,
            bg3_front: false,
            mosaic: 0,
            bg1: Background::start(),
            bg2: Background::start(),
            bg3: Background::start(),
            bg4: Background::start(),
            scroll_kept: 0,
            rotation: Rotation::start(),
            vram: VramPort {
                steps_at_high: false,
                remap: 0,
                step: 1,
                address: 0,
                fetched: 0,
            },
            cgram: CgramPort {
                index: 0,
                high: false,
                kept: 0,
            },
            window_one: Window { left: 0, right: 0 },
            window_two: Window { left: 0, right: 0 },
            windows_bg1: LayerWindows::start(),
            windows_bg2: LayerWindows::start(),
            windows_bg3: LayerWindows::start(),
            windows_bg4: LayerWindows::start(),
            windows_objects: LayerWindows::start(),
            windows_colour: LayerWindows::start(),
            screens_bg1: LayerScreens::start(),
            screens_bg2: LayerScreens::start(),
            screens_bg3: LayerScreens::start(),
            screens_bg4: LayerScreens::start(),
            screens_objects: LayerScreens::start(),
            colour: ColourMath::start(),
            settings: Settings {
                extbg: false,
                half_dots: false,
                overscan: false,
            },
            counters: Counters {
                h: 0,
                v: 0,
                latched: false,
                h_high: false,
                v_high: false,
            },
            over: Over {
                range: false,
                time: false,
            },
            profile,
        }
    }
}
