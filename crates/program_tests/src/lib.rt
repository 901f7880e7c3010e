//! The tests of the program: its commands over readers, writers and files of the tests' own.
#![tactic(auto)]

#[cfg(test)]
mod event_lists;
#[cfg(test)]
mod failures;
#[cfg(test)]
mod files;
#[cfg(test)]
mod limits;
#[cfg(test)]
mod options;
#[cfg(test)]
mod refusals;
#[cfg(test)]
mod run;
#[cfg(test)]
mod runs;
#[cfg(test)]
mod streams;
#[cfg(test)]
mod words;
#[cfg(test)]
mod worked;
#[cfg(test)]
mod worked_routes;
#[cfg(test)]
mod worked_talkers;
