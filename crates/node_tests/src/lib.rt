//! The tests of frames and nodes, over what these libraries show to those above them.
#![tactic(auto)]

#[cfg(test)]
mod acknowledging;
#[cfg(test)]
mod bus;
#[cfg(test)]
mod frames;
#[cfg(test)]
mod listeners;
#[cfg(test)]
mod node;
