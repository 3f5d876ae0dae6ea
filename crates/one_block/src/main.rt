//! An example of the library, to copy from: a sender that encodes one source block, a receiver over
//! a `Session` with a watch of its own, and what packets determine: nothing yet, with a null word;
//! the block; or that no codeword fits. It also prints draws of the generator, a shuffle and small
//! matrices. It stands on `staircase` and `triangle` for codes and on `fec_session` for codewords
//! and decoders. It promises that the packets are the codeword of the source, and that the verdict
//! is what the arrivals determine. What it prints is compared with the file `stdout`, whose lines
//! come from worked examples.
#![tactic(auto)]

mod block;
mod fault;
mod lines;
mod matrices;
mod numbers;
mod receiver;
mod sender;
mod showing;
mod watch;

use fault::Fault;
use fec_base::WriteSink;
use showing::{show_contradiction, show_matrices, show_numbers, show_packets, show_rounds};
use watch::CountWatch;

fn main(rt: HostRuntime) -> Result<(), Fault> {
    let alloc = rt.alloc();
    let mut out = WriteSink::new(rt.stdout());
    show_numbers(alloc, &mut out)?;
    show_matrices(alloc, &mut out)?;
    let packets = sender::send(alloc, &[1, 2, 4])?;
    let others = sender::send(alloc, &[1, 3, 4])?;
    show_packets(&mut out, &packets)?;
    let watch = CountWatch::new(WriteSink::new(rt.stdout()));
    show_rounds(alloc, &mut out, &packets[3..4], &packets[5..7], watch)?;
    let watch = CountWatch::new(WriteSink::new(rt.stdout()));
    show_rounds(alloc, &mut out, &packets[3..5], &packets[..1], watch)?;
    let watch = CountWatch::new(WriteSink::new(rt.stdout()));
    show_contradiction(alloc, &mut out, &packets, &others[1..2], watch)
}
