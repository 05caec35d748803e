/// The set of rules that the machine follows where public descriptions and the first profile differ.
///
/// A script's first line chooses it. `docs/machine/PROFILES.md` has the rules side by side.
#[derive(Clone, Copy, Debug, PartialEq, Eq)]
pub enum Profile {
    /// The profile of scripts of versions 1 and 2.
    First,
    /// The profile of scripts of version 3, nearer to the console.
    Second,
}
