//! Versions of a session.

ghost use Rattle.std.specs.Prelude.{◌≡◌};
ghost use Rattle.nm_frames.specs.Version.{lesser_version, other_version, version_number};
ghost use Rattle.nm_frames.specs.Version.{version_of};

/// The version of a session, or of a Hello. In a session of version 1 null messages carry the
/// promise of `Book::old_null`, in one of version 2 that of `Book::null`.
#[derive(Clone, Copy)]
pub enum Version {
    One,
    Two,
}

impl Version {
    /// The version of this number, if there is one.
    pub fn of(number: u16) -> Option<Self>
        ensures { result ≡ version_of number }
    {
        match number {
            1 => Some(Version::One),
            2 => Some(Version::Two),
            _ => None,
        }
    }

    /// Its number in a Hello.
    pub fn number(self) -> u16
        ensures { result ≡ version_number self }
    {
        match self {
            Version::One => 1,
            Version::Two => 2,
        }
    }

    /// The other one.
    pub fn other(self) -> Self
        ensures { result ≡ other_version self }
    {
        match self {
            Version::One => Version::Two,
            Version::Two => Version::One,
        }
    }

    /// The lesser of this and another.
    pub fn lesser(self, other: Version) -> Self
        ensures { result ≡ lesser_version self other }
    {
        match self {
            Version::One => Version::One,
            Version::Two => other,
        }
    }
}
