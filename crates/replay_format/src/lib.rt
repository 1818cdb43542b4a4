// A recording: its header, the words of its samples, and its tail.
#![tactic(auto)]

pub mod header;
pub mod words;

// The channels of a hop, and the spans and the repairs that the log holds.
pub const CHANNELS: usize = 8;

pub const SPANS: usize = 256;

pub const REPAIRS: usize = 1024;
