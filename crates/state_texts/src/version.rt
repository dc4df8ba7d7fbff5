//! The versions of state texts.
ghost use Rattle.std.specs.Prelude.{◌≡◌};
ghost use Rattle.state_texts.specs.Versions.{version_byte, version_of};

/// A version of state texts: the byte that they begin with, and how the body of each chain is written behind it.
#[derive(Clone, Copy, Debug, PartialEq, Eq)]
pub enum Version {
    One,
}

impl Version {
    /// The version whose texts begin with the byte, if there is one.
    pub fn of_byte(byte: u8) -> Option<Version>
        ensures { result ≡ version_of byte }
    {
        match byte {
            1 => Some(Version::One),
            _ => None,
        }
    }

    /// The byte that a text begins with.
    pub fn byte(self) -> u8
        ensures { result ≡ version_byte self }
    {
        match self {
            Version::One => 1,
        }
    }
}
