//! Times the calls of the libraries: `bench frames`, `bench filters`, `bench mail`, `bench nodes`, `bench segments`.
#![tactic(auto)]

mod filters;
mod frames;
mod mail;
mod nodes;
mod rate;
mod segments;

use std::io;

/// Measures what the word names; with another word, or none, says which there are.
fn main(rt: HostRuntime) -> io::Result<()> {
    let words: Vec<String> = std::env::args(&rt)?.collect(rt.alloc())?;
    match words.get(1).map(|word| word.as_str()) {
        Some("filters") => filters::measure(&rt),
        Some("frames") => frames::measure(&rt),
        Some("mail") => mail::measure(&rt),
        Some("nodes") => nodes::measure(&rt),
        Some("segments") => segments::measure(&rt),
        _ => println!(rt; "bench filters, frames, mail, nodes or segments"),
    }
}
