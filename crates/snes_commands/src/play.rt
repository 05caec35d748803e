ghost use Rattle.std.specs.Prelude.{◌≡◌, [], OnOk, OnErr};
ghost use Rattle.shelf.specs.Told.{Holds, HasRisen};
ghost use Rattle.shelf.specs.Shown.{OnlyPuts};
ghost use Rattle.run_io.specs.Form.{order_by};
ghost use Rattle.spc_player.specs.Play.{Playing};
ghost use Rattle.spc_player.specs.Player.{IsPlaying, stamp_of, waiting_of};
ghost use Rattle.snes_commands.specs.Play.{heard_in, TookSound, TookSoundFirst};

use crate::command::Performs;
use crate::loads::Loads;
use crate::sound_out::{play_parts, play_sound};
use crate::spc::SpcFile;
use crate::table::TableFile;
use port_wire::Gate;
use run_io::{
    Asked, Count, Form, Line, Setting, Word, count_set, number_set, samples_line, stem_set,
};
use shelf::{Failed, Input, Out, Shelf};
use snes_defs::NoMemory;
use spc_player::Player;
use std::alloc::Global;
use std::thread::Threads;
use stem_player::Heard;

/// The command `play`: plays a sound file on the sound side alone, whole or some of its voices, and may fade out.
pub struct Play;

static INPUTS: [Input; 2] = [Input::Spc, Input::Table];

static SETTINGS: [Setting; 2] = [Setting::Voices, Setting::Fade];

static OUTPUTS: [Out; 1] = [Out::Sound];

/// All nine parts of the sound: eight voices and the echo.
const ALL: u16 = 511;

/// Returns what is heard by the arguments: the parts that they name, or all, and a fade of 32 samples for each
/// millisecond.
fn heard_by(pairs: &[Word]) -> Heard
    ensures { result ≡ heard_in pairs.now }
{
    let stem = stem_set(pairs).unwrap_or(ALL);
    let fade = number_set(pairs, Setting::Fade).unwrap_or(0);
    Heard {
        stem,
        fade: 32 * fade,
    }
}

/// Plays into the sound output what the arguments ask for. Touches no other output.
#[tactic(auto, unfolding(crate::specs::Play::IsSound))]
fn play_asked<H: Shelf>(player: &mut Player, asked: &Asked<'_>, shelf: &mut H) -> Result<(), Failed>
    requires early { stamp_of player.old ≡ 0 }
    requires empty { waiting_of player.old ≡ [] }
    ensures whole { OnOk result ((w : Playing) → IsPlaying player.old w → TookSound (order_by asked.now) w (Holds ((H.shown shelf.old).written Out.Sound)) (Holds ((H.shown shelf.new).written Out.Sound))) }
    ensures first { (w : Playing) → IsPlaying player.old w → TookSoundFirst (order_by asked.now) w (Holds ((H.shown shelf.old).written Out.Sound)) (Holds ((H.shown shelf.new).written Out.Sound)) }
    ensures failed { OnErr result (HasRisen ((H.shown shelf.old).write_faults Out.Sound) ((H.shown shelf.new).write_faults Out.Sound)) }
    ensures only { OnlyPuts (H.shown shelf.old) (H.shown shelf.new) Out.Sound }
{
    if count_set(asked.pairs, &SETTINGS) == 0 {
        return play_sound(player, asked.count, shelf);
    }
    play_parts(player, &heard_by(asked.pairs), asked.count, shelf)
}

impl Performs for Play {
    ghost use Rattle.std.specs.Prelude.{◌≡◌, refl, List, ℕ, []};
    ghost use Rattle.spc_player.specs.SoundFile.{Image};
    ghost use Rattle.spc_player.specs.Play.{play_start};
    ghost use Rattle.spc_player.specs.Player.{IsPlaying, stamp_of, waiting_of};
    ghost use Rattle.snes_commands.specs.Play.{play, ShowsSound};

    type Inputs = (SpcFile, TableFile);

    type Ready = Player;

    ghost command = { play };

    ghost is_ready = { λ order told ready. (image : Image) × (table : List ℕ) × ShowsSound told image table × IsPlaying ready (play_start image table) × (stamp_of ready ≡ 0) × (waiting_of ready ≡ []) };

    fn form() -> Form {
        Form {
            numbered: false,
            inputs: &INPUTS,
            optional: &[],
            count: Some(Count::Samples),
            settings: &SETTINGS,
            outputs: &OUTPUTS,
        }
    }

    fn differs(_line: &Line) -> bool {
        false
    }

    fn ready(
        &self,
        alloc: Global,
        _asked: &Asked<'_>,
        inputs: <(SpcFile, TableFile) as Loads>::Value,
    ) -> Result<Player, NoMemory> {
        let (image, table) = inputs;
        let player = Player::new(alloc, &image, &table)?;
        Ok(player)
    }

    fn fill<R: Threads, H: Shelf>(
        &self,
        _rt: &R,
        _gate: &dyn Gate,
        asked: &Asked<'_>,
        ready: Player,
        shelf: &mut H,
    ) -> Result<Line, Out> {
        let mut player = ready;
        match play_asked(&mut player, asked, shelf) {
            Ok(()) => Ok(samples_line(asked.count)),
            Err(Failed) => Err(Out::Sound),
        }
    }

    ghost inputs_are = { refl };

    ghost outputs_apart = { refl };
}
