// The versions of a packet file.
ghost use Rattle.std.specs.Prelude.{◌≡◌, ◌≢◌, MatchOption};
ghost use Rattle.packet_file.specs.Header.{version_number};
ghost use Rattle.packet_file.specs.declared.version.Version.{Version};

/// How the packets of a file are spelled.
#[derive(Clone, Copy, Debug, PartialEq, Eq)]
pub enum Version {
    /// Each packet has the whole encoding symbol.
    One,
    /// Each packet tells its length, and has no padding.
    Two,
}

impl Version {
    /// The number of the version: 1 or 2.
    pub fn number(self) -> u8
        ensures { result ≡ version_number self }
    {
        match self {
            Version::One => 1,
            Version::Two => 2,
        }
    }

    /// The version of a number. None where no version has it.
    pub fn from_number(number: u8) -> Option<Version>
        ensures { MatchOption result ((version : Version)
            → version_number version ≢ number) (λ version. version_number version ≡ number) }
    {
        match number {
            1 => Some(Version::One),
            2 => Some(Version::Two),
            _ => None,
        }
    }
}
