//! The tests of mailboxes, filters, receive FIFOs and controllers, over what these libraries show to those above them.
#![tactic(auto)]

#[cfg(test)]
mod controller;
#[cfg(test)]
mod filters;
#[cfg(test)]
mod mailboxes;
#[cfg(test)]
mod posts;
#[cfg(test)]
mod posts_closing;
#[cfg(test)]
mod priority;
#[cfg(test)]
mod words;
