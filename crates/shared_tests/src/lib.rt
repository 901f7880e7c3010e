//! The tests of mailboxes that threads share, and of routes' turns over them and over the plain ones, over what these
//! libraries show to those above them.
#![tactic(auto)]

#[cfg(test)]
mod gates;
#[cfg(test)]
mod shared;
#[cfg(test)]
mod shared_closing;
#[cfg(test)]
mod turns;
