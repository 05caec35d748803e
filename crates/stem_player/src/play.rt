// What is heard of a sound file, into a sink.
ghost use Rattle.std.specs.Prelude.{◌≡◌, ◌≢◌, ◌^◌, ◌+◌, ◌<◌, ◌≤◌, ◌++◌, ℕ, List, [], length, OnOk, OnErr};
ghost use Rattle.arrayvec.specs.ArrayVec.{array_vec_len};
ghost use Rattle.snes_defs.specs.declared.ports.Side.{Side};
ghost use Rattle.run_drive.specs.Run.{Adds, AddsSome};
ghost use Rattle.spc_player.specs.Play.{Playing, after_steps, to_sample};
ghost use Rattle.spc_player.specs.Player.{HasGoneOn, IsPlaying, stamp_of, waiting_of};
ghost use Rattle.stem_player.specs.Heard.{heard_pairs, heard_sample};

use crate::fade::{fade_sample, level_of};
use crate::heard::Heard;
use arrayvec::ArrayVec;
use run_drive::Sink;
use shelf::Failed;
use snes_defs::Side;
use spc_player::Player;

/// How many bytes may be gathered before they are passed on, less the four of one more sample.
const MANY: usize = 4092;

/// Plays one sample when `left` remain, this one included, and returns its four bytes as they are heard.
fn next_heard(player: &mut Player, heard: &Heard, left: u32) -> [u8; 4]
    requires empty { waiting_of player.old ≡ [] }
    requires early { stamp_of player.old ≤ 2 ^ 61 }
    ensures next { (w : Playing) → IsPlaying player.old w → IsPlaying player.new (after_steps w (to_sample w)) }
    ensures bytes { (w : Playing) → IsPlaying player.old w → result ≡ heard_sample heard.now w left }
    ensures none_left { waiting_of player.new ≡ [] }
    ensures late { stamp_of player.new ≤ stamp_of player.old + 3780000 }
{
    let bytes = player.next_stem(heard.stem);
    fade_sample(level_of(heard.fade, left), bytes)
}

/// Adds the four bytes of a sample.
fn gather(buffer: &mut ArrayVec<u8, 4096>, bytes: [u8; 4])
    requires { array_vec_len buffer.old ≤ 4092 }
    ensures items { buffer.new.items ≡ buffer.old.items ++ bytes }
    ensures size { array_vec_len buffer.new ≡ array_vec_len buffer.old + 4 }
{
    let Ok(()) = buffer.try_extend_from_slice(&bytes) else {
        unreachable!()
    };
}

/// Passes the gathered bytes to the sink, in one call. If there are none nothing is taken.
fn pass_on<K: Sink>(buffer: &mut ArrayVec<u8, 4096>, sink: &mut K) -> Result<(), Failed>
    ensures empty { OnOk result (buffer.new.items ≡ []) }
    ensures room { OnOk result (array_vec_len buffer.new ≡ 0) }
    ensures whole { OnOk result (Adds (K.holds sink.old Side.Sound) (K.holds sink.new Side.Sound) buffer.old.items) }
    ensures some { OnErr result (AddsSome (K.holds sink.old Side.Sound) (K.holds sink.new Side.Sound) buffer.old.items) }
    ensures other { (other : Side) (had : List ℕ) → other ≢ Side.Sound → K.holds sink.old other had → K.holds sink.new other had }
    ensures failed { OnErr result (K.failed sink.old sink.new Side.Sound) }
    ensures only { K.only_takes sink.old sink.new }
{
    if buffer.is_empty() {
        return Ok(());
    }
    let Ok(()) = sink.take(Side::Sound, buffer.as_slice()) else {
        return Err(Failed);
    };
    buffer.clear();
    Ok(())
}

/// Plays `samples` samples, and passes the sink exactly what is heard of them.
///
/// The player is then behind the last of them. If the sink fails to take some, it has taken a prefix of them. The
/// player is then behind as many samples as it had played. No byte is pending in either case.
pub fn play_heard<K: Sink>(
    player: &mut Player,
    heard: &Heard,
    samples: u32,
    sink: &mut K,
) -> Result<(), Failed>
    requires early { stamp_of player.old ≤ 2 ^ 60 }
    requires empty { waiting_of player.old ≡ [] }
    ensures whole { OnOk result ((w : Playing) → IsPlaying player.old w
        → Adds (K.holds sink.old Side.Sound) (K.holds sink.new Side.Sound) (heard_pairs heard.now w samples samples)) }
    ensures first { (w : Playing) → IsPlaying player.old w
        → AddsSome (K.holds sink.old Side.Sound) (K.holds sink.new Side.Sound) (heard_pairs heard.now w samples samples) }
    ensures stands { OnOk result ((w : Playing) → IsPlaying player.old w → HasGoneOn player.new w samples) }
    ensures stops { OnErr result ((w : Playing) → IsPlaying player.old w → (played : ℕ) × (played ≤ samples) × HasGoneOn player.new w played) }
    ensures none_left { waiting_of player.new ≡ [] }
    ensures other { (other : Side) (had : List ℕ) → other ≢ Side.Sound → K.holds sink.old other had → K.holds sink.new other had }
    ensures failed { OnErr result (K.failed sink.old sink.new Side.Sound) }
    ensures only { K.only_takes sink.old sink.new }
{
    let mut buffer: ArrayVec<u8, 4096> = ArrayVec::new();
    'samples: for k in 0..samples {
        if buffer.len() > MANY {
            let Ok(()) = pass_on(&mut buffer, sink) else {
                return Err(Failed);
            };
        }
        let bytes = next_heard(player, heard, samples - k);
        gather(&mut buffer, bytes);
    }
    let Ok(()) = pass_on(&mut buffer, sink) else {
        return Err(Failed);
    };
    Ok(())
}
