// A journal's replay without its reading and writing: bytes in, lines out, in any number of pieces.
#![tactic(auto)]

mod playing; // playing.rt: where a replay stands, and what a call has done
mod steps; // steps.rt: one record's line, one word of the last line
mod advancing; // advancing.rt: as many steps as the bytes and the buffer allow

pub use advancing::advance;
pub use playing::{Advanced, Playing, Stage, start};
