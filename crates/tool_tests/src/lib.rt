//! Tests of the program's top call `run`, over public calls alone: files, codewords, losses, runs
//! of a decoder, and refusals, by what a run reads, writes and tells. It stands on `tool_commands`,
//! and promises nothing: the tests stand apart so that the commands aren't proved again for them.
#![tactic(auto)]

#[cfg(test)]
mod tests;
