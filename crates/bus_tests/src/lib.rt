//! The tests of segments and of the levels of a line, over what these libraries show to those above them.
#![tactic(auto)]

#[cfg(test)]
mod levels;
#[cfg(test)]
mod segment;
