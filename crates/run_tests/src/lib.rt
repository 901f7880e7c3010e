//! The tests of scripts, reports and whole runs, over what these libraries show to those above them.
#![tactic(auto)]

#[cfg(test)]
mod paced_runs;
#[cfg(test)]
mod reports;
#[cfg(test)]
mod runs;
#[cfg(test)]
mod scripts;
#[cfg(test)]
mod threaded_runs;
