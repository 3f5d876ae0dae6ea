// What the words of an `encode` say of a file.
ghost use Rattle.std.specs.Prelude.{◌≡◌, ◌≤◌, IfOk, IfErr, Some};
ghost use Rattle.tool_base.specs.Ranges.{IsInRange};
ghost use Rattle.packet_file.specs.Header.{size_fault};
ghost use Rattle.object_file.specs.Options.{header_for};
ghost use Rattle.object_file.specs.Asking.{encode_command};

use oti_fields::Oti;
use packet_file::{FileFault, Header};
use tool_base::Shape;

/// The options of an `encode`: the code, the length of a symbol in bytes, and the greatest numbers
/// of source symbols and of encoding symbols of a block, and the version of the file.
#[derive(Clone, Copy, Debug, PartialEq, Eq)]
pub struct EncodeOptions {
    pub shape: Shape,
    pub symbol: u32,
    pub block: u32,
    pub max_n: u32,
    pub format: u8,
}

impl EncodeOptions {
    /// The header of the file of an object of `length` bytes, or the first limit that its sizes
    /// pass.
    pub fn header(&self, length: u64) -> Result<Header, FileFault>
        requires range { IsInRange (encode_command self.now) }
        requires most { length ≤ 268435456 }
        ensures ok { IfOk result (λ h. h ≡ header_for self.now length) }
        ensures err { IfErr result (λ fault. size_fault (header_for self.now length) ≡ Some fault) }
    {
        let shape = self.shape;
        let oti = Oti {
            length,
            symbol: self.symbol,
            n1m3: (shape.n1 - 3) as u8,
            group: 1,
            block: self.block,
            max_n: self.max_n,
            seed: shape.seed_field(),
        };
        match Header::new(shape.codec, oti) {
            Ok(header) => Ok(header.with_version(self.format)),
            Err(fault) => Err(fault),
        }
    }
}
