// How a run ends.
ghost use Rattle.std.specs.Prelude.{◌≡◌};
ghost use Rattle.tool_base.specs.Status.{fault_text};
ghost use Rattle.tool_base.specs.ExitCodes.{code_of};

/// How a run ends. The numbers are the exit statuses of the program.
#[derive(Clone, Copy, Debug, PartialEq, Eq)]
pub enum Status {
    /// The output and the report are whole.
    Done = 0,
    /// There was no memory.
    Memory = 1,
    /// The words are no command with its options.
    Usage = 2,
    /// The input failed.
    ReadFault = 3,
    /// The output or the report failed.
    WriteFault = 4,
    /// The header or a packet of the input is malformed.
    Malformed = 5,
    /// The code of a block takes more draws than the limit allows.
    Draws = 6,
    /// A size or a count passes its limit.
    Limit = 7,
    /// Codewords of different source blocks fit the packets of some block.
    Undetermined = 8,
    /// No codeword fits the packets of some block: they contradict one another.
    NoCodeword = 9,
    /// The watch failed.
    WatchFault = 10,
}

impl Status {
    /// The exit status.
    pub fn code(self) -> u8
        ensures { result ≡ code_of self }
    {
        self as u8
    }

    /// The report of a status, and nothing for those whose report goes by the input.
    pub fn fault_text(self) -> &'static str
        ensures { result.now ≡ fault_text self }
    {
        match self {
            Status::Memory => "fault: memory\n",
            Status::Usage => "fault: usage\nusage: eperftool COMMAND [--name=value ...]\n",
            Status::ReadFault => "fault: read\n",
            Status::WriteFault => "fault: write\n",
            Status::WatchFault => "fault: watch\n",
            Status::Done
            | Status::Malformed
            | Status::Draws
            | Status::Limit
            | Status::Undetermined
            | Status::NoCodeword => "",
        }
    }
}
