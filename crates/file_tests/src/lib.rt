//! Tests of packet files and of the words of a command, over public calls alone: headers and
//! packets, passes over a file, losses, runs of a decoder under them, and options with their
//! meaning. It stands on their crates, and promises nothing: the tests stand apart so that no crate
//! is proved again for them.
#![tactic(auto)]

#[cfg(test)]
mod files;
#[cfg(test)]
mod losses;
#[cfg(test)]
mod passes;
#[cfg(test)]
mod runs;
#[cfg(test)]
mod versions;
#[cfg(test)]
mod words;
