// The state of a segment in words that a caller lends: those of its route table, then those of its settings. Here are the definitions and the sizes; the calls are in
// `segment`.

// How many words a state has.
#![tactic(auto)]

pub const WORDS: usize = 490;

// Where the settings start: so many words are the table's.
pub const SETTINGS: usize = 388;
