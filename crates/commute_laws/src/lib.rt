// Why the steps of two machines commute: what two sides do by themselves they do in the serial run.
//
// Builds on `side_law`, and has no code. `specs/` defines a machine with its history, the run of one machine against a
// list of the other's entries, and a leg. It also defines when a pair of histories is on the serial run. `laws` holds
// for any two machines of one region. It says that two sides that ran by themselves are on the serial run. It also says
// what such a pair has emitted and written, and how a leg continues.
//
// A driver that lets two machines run apart keeps two legs (`IsLeg`). At each meeting it has what `heard_is_serial` and
// `pairs_stay_below` require. `docs/proof/COMMUTING.md` says in plain words why it is so.
#![tactic(auto)]

pub mod laws;
