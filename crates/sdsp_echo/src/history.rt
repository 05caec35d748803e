ghost use Rattle.std.specs.Prelude.{◌≡◌};
ghost use Rattle.sdsp_echo.specs.Echo.{pushed};

/// The last eight numbers of one side of the delay line, the oldest first.
#[derive(Clone, Copy)]
pub struct History {
    /// The oldest number.
    pub h0: i16,
    /// The second oldest number.
    pub h1: i16,
    /// The third oldest number.
    pub h2: i16,
    /// The fourth oldest number.
    pub h3: i16,
    /// The fourth newest number.
    pub h4: i16,
    /// The third newest number.
    pub h5: i16,
    /// The second newest number.
    pub h6: i16,
    /// The newest number.
    pub h7: i16,
}

/// A history with a new number added and the oldest dropped.
#[tactic(auto, unfolding(crate::specs::Echo::pushed))]
#[inline(always)]
pub fn push(h: History, x: i16) -> History
    ensures { result ≡ pushed h x }
{
    History {
        h0: h.h1,
        h1: h.h2,
        h2: h.h3,
        h3: h.h4,
        h4: h.h5,
        h5: h.h6,
        h6: h.h7,
        h7: x,
    }
}
