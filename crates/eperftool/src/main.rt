//! The program `eperftool`: `main` hands `run` its words and the standard streams, and ends with
//! the status that it gives. It stands on `tool_commands`, which says what a run does, and promises
//! nothing of its own.
#![tactic(auto)]

use fec_base::{NoMemory, ProgressWatch, ReadSource, Watch, Words, WriteSink};
use std::alloc::Global;
use std::env;
use std::io::{BufReader, ErrorKind};
use std::process::ExitCode;
use tool_base::Status;
pub use tool_commands::{Ended, run};

// The input is read in pieces of this length, whatever the reads ask for.
const INPUT_BUFFER_LEN: usize = 262_144;

// The words after the program's name, or the exit status without them.
fn collect_words(rt: &HostRuntime) -> Result<Words, u8> {
    let mut words = Words::new(rt.alloc());
    let args = match env::args(rt) {
        Ok(args) => args,
        Err(e) if e.kind() == ErrorKind::OutOfMemory => return Err(Status::Memory.code()),
        // A word isn't UTF-8.
        Err(_) => return Err(Status::Usage.code()),
    };
    for word in args.skip(1) {
        match words.push(word.as_str()) {
            Ok(()) => {}
            Err(NoMemory) => return Err(Status::Memory.code()),
        }
    }
    Ok(words)
}

// Runs over the standard streams. The output has no buffer behind it: `run` hands it large pieces,
// and the error of a last flush would be lost.
fn run_on_streams(rt: &HostRuntime, words: &Words) -> Status {
    let alloc: Global = rt.alloc();
    let watch: Box<dyn Watch> = match Box::new(alloc, ProgressWatch::new(rt.stderr())) {
        Ok(watch) => watch,
        Err(_) => return Status::Memory,
    };
    let reader = match BufReader::with_capacity(alloc, INPUT_BUFFER_LEN, rt.stdin()) {
        Ok(reader) => reader,
        Err(_) => return Status::Memory,
    };
    let mut input = ReadSource::new(reader);
    let mut output = WriteSink::new(rt.stdout());
    let mut report = WriteSink::new(rt.stderr());
    run(alloc, words, &mut input, &mut output, &mut report, watch).status
}

fn main(rt: HostRuntime) -> ExitCode {
    let code = match collect_words(&rt) {
        Ok(words) => run_on_streams(&rt, &words).code(),
        Err(code) => code,
    };
    ExitCode::from(code)
}
