// The packet file of an object, made ready to be written.
ghost use Rattle.std.specs.Prelude.{◌≤◌, vec_len, IfOk, IfErr};
ghost use Rattle.tool_base.specs.Ranges.{IsInRange};
ghost use Rattle.object_file.specs.Made.{IsMade, RefusesMaking};
ghost use Rattle.object_file.specs.Options.{header_for};
ghost use Rattle.object_file.specs.Asking.{encode_command};

use crate::{EncodeOptions, Staging, build_codes};
use packet_file::Header;
use sparse_rows::Code;
use std::alloc::Global;
use tool_base::Refusal;

/// How many bytes wait for the output at most: room for many packets, which it takes as one piece.
pub const STAGING_LEN: usize = 262_144;

/// What is ready to be written: the header, the object with its last source symbol padded, and the
/// codes of its blocks.
#[derive(Drop)]
pub struct Made {
    pub header: Header,
    pub object: Vec<u8>,
    pub codes: Vec<Code>,
    pub staging: Staging,
}

/// Makes the packet file of an object ready.
pub fn make_file(
    alloc: Global,
    options: &EncodeOptions,
    mut object: Vec<u8>,
) -> Result<Made, Refusal>
    requires range { IsInRange (encode_command options.now) }
    requires most { vec_len object ≤ 268435456 }
    ensures made { IfOk result
        (IsMade (header_for options.now (vec_len object)) options.now.shape.draws object.items) }
    ensures refusal { IfErr result (RefusesMaking options.now object.items) }
{
    let header = options.header(object.len() as u64)?;
    let codes = build_codes(alloc, &header, options.shape.draws)?;
    let len = options.symbol as usize;
    let padded = object.len().div_ceil(len) * len;
    object.resize(padded, 0)?;
    let staging = Staging::new(alloc, STAGING_LEN)?;
    Ok(Made {
        header,
        object,
        codes,
        staging,
    })
}
