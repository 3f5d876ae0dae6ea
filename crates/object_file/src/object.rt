// The object: the whole input.
ghost use Rattle.std.specs.Prelude.{◌≡◌, ◌<◌, ◌≤◌, ◌+◌, vec_len, length, IfOk, IfErr, OnOk, OnErr};
ghost use Rattle.std.specs.Io.KnownBytes.{Consumes, IsAtEnd};
ghost use Rattle.packet_file.specs.declared.fault.Limit.TheVariants.{Length};
ghost use Rattle.packet_file.specs.declared.fault.FileFault.TheVariants.{TooLarge};
ghost use Rattle.tool_base.specs.declared.causes.Refusal.TheVariants.{Memory, File};
ghost use Rattle.packet_file.specs.Taking.{TakesAtMost};
ghost use Rattle.object_file.specs.Taken.{most_taken};
ghost use Rattle.object_file.specs.Object.{RefusesObject, RefusesPiece};
ghost use Rattle.object_file.specs.Receiving.{TakesBehind};

use fec_base::{ReadFailed, Source, read_full};
use packet_file::{FileFault, Limit};
use std::alloc::Global;
use tool_base::Refusal;

// How many bytes are asked for at a time.
const PIECE_LEN: usize = 65_536;

// How many bytes an object has at most.
const MOST_BYTES: usize = 268_435_456;

const TOO_LONG: Refusal = Refusal::File(FileFault::TooLarge(Limit::Length));

/// The whole input, where it has at most 268,435,456 bytes. It is read in pieces of 65,536 bytes,
/// so that memory grows with the input; where there are more bytes, the piece that shows it is the
/// last, and nothing behind it is taken.
pub fn read_object<S: Source>(alloc: Global, input: &mut S) -> Result<Vec<u8>, Refusal>
    ensures bound { IfOk result (λ object. vec_len object ≤ 268435456) }
    ensures bytes { IfOk result (λ object.
        Consumes (S.left input.old) (S.left input.new) object.items) }
    ensures end { OnOk result (IsAtEnd (S.left input.new)) }
    ensures refusal { IfErr result
        (λ refusal. RefusesObject (S.left input.old) (S.left input.new) (S.faults input.old)
        (S.faults input.new) refusal) }
    ensures taken { TakesAtMost (S.left input.old) (S.left input.new) most_taken }
{
    let mut object = Vec::new(alloc);
    let mut piece = new_piece(alloc, PIECE_LEN)?;
    while object.len() <= MOST_BYTES {
        if take_piece(input, &mut object, &mut piece)? < PIECE_LEN {
            return check_length(object);
        }
    }
    Err(TOO_LONG)
}

// A piece of so many bytes to be read into.
fn new_piece(alloc: Global, len: usize) -> Result<Vec<u8>, Refusal>
    ensures len { IfOk result (λ piece. vec_len piece ≡ len) }
    ensures refusal { IfErr result (λ refusal. refusal ≡ Memory) }
{
    Ok(vec![in alloc; 0u8; len]?)
}

// The object, where it isn't longer than an object may be.
fn check_length(object: Vec<u8>) -> Result<Vec<u8>, Refusal>
    ensures ok { IfOk result (λ same. (same ≡ object) × (vec_len object ≤ 268435456)) }
    ensures err { OnErr result ((result ≡ Err (File (TooLarge Length)))
        × (268435456 < vec_len object)) }
{
    if object.len() > MOST_BYTES {
        return Err(TOO_LONG);
    }
    Ok(object)
}

// Reads as many bytes as the piece holds, or to the end of the input, and puts them behind the
// object's. Says how many.
fn take_piece<S: Source>(
    input: &mut S,
    object: &mut Vec<u8>,
    piece: &mut [u8],
) -> Result<usize, Refusal>
    ensures bound { IfOk result (λ taken. taken ≤ length piece.new) }
    ensures len { IfOk result (λ taken. vec_len object.new ≡ vec_len object.old + taken) }
    ensures bytes { OnOk result
        (TakesBehind (S.left input.old) (S.left input.new) object.old.items object.new.items) }
    ensures end { IfOk result (λ taken. taken < length piece.new → IsAtEnd (S.left input.new)) }
    ensures refusal { IfErr result (λ refusal.
        RefusesPiece (S.faults input.old) (S.faults input.new) refusal) }
    ensures taken { OnErr result
        (TakesAtMost (S.left input.old) (S.left input.new) (length piece.new)) }
    ensures len_stays { length piece.new ≡ length piece.old }
    ensures later { S.faults input.old ≤ S.faults input.new }
{
    let taken = match read_full(input, piece) {
        Ok(taken) => taken,
        Err(ReadFailed) => return Err(Refusal::File(FileFault::ReadFault)),
    };
    object.extend_from_slice(&piece[..taken])?;
    Ok(taken)
}
