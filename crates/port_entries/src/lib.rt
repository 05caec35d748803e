// What is recorded of the writes and clears at the four ports, and what a port holds at a stamp.
//
// Depends on the plain types alone, and has definitions and lemmas but no code. The log of the ports and the laws of
// steps that commute both use these definitions. How far a side may run ahead of the other's clock is an argument: the
// number of stamps in the window of a region. A law that is false of entries with numbers of 256 and more requires
// `CarryBytes` of its lists.
#![tactic(auto)]
