// What the example shows.
ghost use Rattle.std.specs.Prelude.{◌≡◌, List, length};
ghost use Rattle.sparse_rows.specs.Codeword.{Arrival};
ghost use Rattle.one_block.specs.Block.{TellsSource, IsOpen};

use crate::block::K;
use crate::fault::Fault;
use crate::lines::{put_line, put_symbol};
use crate::matrices::put_rows;
use crate::numbers::{first_draws, shuffled_numbers, state_after};
use crate::receiver::{conclude, open_session, receive, take_packets};
use crate::sender::Packet;
use crate::watch::CountWatch;
use fec_base::{Sink, write_all};
use fec_session::{Session, SessionVerdict, SourceBlock};
use staircase::{Built, staircase};
use std::alloc::Global;
use triangle::triangle;

/// Shows the state after 10,000 steps (RFC 5170, section 5.7), draws below 1,000, and a shuffle.
pub fn show_numbers<S: Sink>(alloc: Global, out: &mut S) -> Result<(), Fault> {
    put_line(out, "state", &[state_after(1, 10_000)])?;
    let draws = first_draws(alloc, 1, 1000, 7)?;
    put_line(out, "draws", &draws)?;
    let draws = first_draws(alloc, 7, 1000, 15)?;
    put_line(out, "draws", &draws)?;
    let order = shuffled_numbers(alloc, 1_622_650_073, 7)?;
    put_line(out, "shuffle", &order)?;
    Ok(())
}

/// Shows matrices of both LDPC codes.
pub fn show_matrices<S: Sink>(alloc: Global, out: &mut S) -> Result<(), Fault> {
    let built = staircase(alloc, 3, 7, 3, 1, 1000)?;
    show_built(alloc, out, "staircase", &built)?;
    let built = staircase(alloc, 4, 9, 4, 99, 1000)?;
    show_built(alloc, out, "staircase", &built)?;
    let built = triangle(alloc, 3, 7, 3, 1, 1000)?;
    show_built(alloc, out, "triangle", &built)?;
    let built = triangle(alloc, 6, 20, 5, 12_345, 1000)?;
    show_built(alloc, out, "triangle", &built)?;
    Ok(())
}

// Shows the size of a matrix, how many draws it took, and its rows.
fn show_built<S: Sink>(alloc: Global, out: &mut S, name: &str, built: &Built) -> Result<(), Fault> {
    put_line(out, name, &[built.code.k(), built.code.n()])?;
    put_line(out, "draws", &[built.draws])?;
    put_rows(alloc, out, &built.code)?;
    Ok(())
}

/// Shows packets.
pub fn show_packets<S: Sink>(out: &mut S, packets: &[Packet]) -> Result<(), Fault> {
    for packet in packets {
        put_symbol(out, "packet", packet.esi, &packet.bytes)?;
    }
    Ok(())
}

/// Receives packets, and where they leave the block open, more of them.
pub fn show_rounds<S: Sink, T: Sink + Drop>(
    alloc: Global,
    out: &mut S,
    packets: &[Packet],
    more: &[Packet],
    watch: CountWatch<T>,
) -> Result<(), Fault> {
    match receive(alloc, packets, watch)? {
        SessionVerdict::Undetermined(session, word) => {
            put_line(out, "open", word.positions())?;
            show_more(alloc, out, session, more)
        }
        verdict => show_verdict(out, verdict),
    }
}

/// Receives packets, and then others that contradict them.
pub fn show_contradiction<S: Sink, T: Sink + Drop>(
    alloc: Global,
    out: &mut S,
    packets: &[Packet],
    others: &[Packet],
    watch: CountWatch<T>,
) -> Result<(), Fault> {
    let mut session = open_session(alloc, watch)?;
    take_packets(&mut session, packets)?;
    show_more(alloc, out, session, others)
}

// Receives more packets, and shows what all determine.
fn show_more<S: Sink, T: Sink + Drop>(
    alloc: Global,
    out: &mut S,
    session: Session<CountWatch<T>>,
    more: &[Packet],
) -> Result<(), Fault>
    requires { (arrivals : List Arrival) × IsOpen session arrivals }
{
    let mut session = session;
    take_packets(&mut session, more)?;
    let verdict = conclude(alloc, session)?;
    show_verdict(out, verdict)
}

// Shows a verdict.
fn show_verdict<S: Sink, T: Sink + Drop>(
    out: &mut S,
    verdict: SessionVerdict<CountWatch<T>>,
) -> Result<(), Fault>
    requires { TellsSource verdict }
{
    match verdict {
        SessionVerdict::Block(block, watch) => show_source(out, &block, watch.count),
        SessionVerdict::Undetermined(_session, word) => {
            put_line(out, "open", word.positions())?;
            Ok(())
        }
        SessionVerdict::NoCodeword(_session) => {
            write_all(out, b"no codeword\n")?;
            Ok(())
        }
    }
}

// Shows the symbols of a source block, what gave them, and how many the watch was told.
fn show_source<S: Sink>(out: &mut S, block: &SourceBlock, told: u64) -> Result<(), Fault>
    requires { length block.now.source ≡ K }
{
    for e in 0..K {
        put_symbol(out, "source", e, block.symbol(e))?;
    }
    let how = if block.by_peeling() {
        "peeled, told"
    } else {
        "solved, told"
    };
    put_line(out, how, &[told])?;
    Ok(())
}
