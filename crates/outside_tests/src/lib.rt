//! What `mt_port` is outside of memory: a real file that is read, and inputs and outputs that fail in mid-stream or take
//! nothing. They stand in a crate of their own, since a crate with tests is proved twice.
#![tactic(auto)]

#[cfg(test)]
mod fakes;
#[cfg(test)]
mod tests;
