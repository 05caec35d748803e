/// The two television standards for which the console was built.
#[derive(Clone, Copy, Debug, PartialEq, Eq)]
pub enum Region {
    /// 262 lines per frame, a master clock of 236,250,000/11 Hz.
    Ntsc,
    /// 312 lines per frame, a master clock of 21,281,370 Hz.
    Pal,
}
