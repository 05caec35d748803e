ghost use Rattle.std.specs.Prelude.{◌≡◌};
ghost use Rattle.audio_side.specs.Timer.{stopped, switched, ticked};

/// One of the three timers.
#[derive(Clone, Copy)]
pub struct Timer {
    /// Whether the timer runs: its bit of F1.
    pub on: bool,
    /// The number of ticks after which the counter advances, 0 for 256.
    pub target: u8,
    /// Ticks since the counter last advanced.
    pub stage: u8,
    /// The counter, four bits.
    pub counter: u8,
}

/// A timer that is off.
#[inline(always)]
pub fn stopped_timer() -> Timer
    ensures { result ≡ stopped }
{
    Timer {
        on: false,
        target: 0,
        stage: 0,
        counter: 0,
    }
}

/// A timer after a tick.
#[tactic(auto, unfolding(crate::specs::Timer::ticked))]
#[inline(always)]
pub fn tick(timer: Timer) -> Timer
    ensures { result ≡ ticked timer }
{
    if timer.on {
        let stage = ((timer.stage as u16 + 1) % 256) as u8;
        if stage == timer.target {
            Timer {
                stage: 0,
                counter: ((timer.counter as u16 + 1) % 16) as u8,
                ..timer
            }
        } else {
            Timer { stage, ..timer }
        }
    } else {
        timer
    }
}

/// A timer after a write of F1.
#[tactic(auto, unfolding(crate::specs::Timer::switched))]
#[inline(always)]
pub fn switch(on: bool, timer: Timer) -> Timer
    ensures { result ≡ switched on timer }
{
    if on && !timer.on {
        Timer {
            on,
            stage: 0,
            counter: 0,
            ..timer
        }
    } else {
        Timer { on, ..timer }
    }
}
