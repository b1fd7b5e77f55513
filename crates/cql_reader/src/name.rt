//! Keeps names: of streams, sources and columns.
ghost use Rattle.std.specs.Prelude.{◌≡◌, ◌≤◌, length};

/// Limits the letters, digits and underscores of a name.
pub const MAX_NAME: usize = 32;

/// Holds the name of a stream, of a source or of a column.
#[derive(Clone, Copy, Debug)]
pub struct Name {
    /// Holds the bytes, and then what is left of the room.
    pub bytes: [u8; MAX_NAME],
    /// Counts the bytes of the name.
    pub len: usize,
    ghost fits: { len ≤ 32 },
}

impl Name {
    ghost use Rattle.cql_reader.specs.Names.{name_of};

    /// Makes the name of these bytes.
    pub fn new(bytes: &[u8]) -> Name
        requires { length bytes.now ≤ 32 }
        ensures { name_of result ≡ bytes.now }
    {
        let mut room = [0; MAX_NAME];
        room[..bytes.len()].copy_from_slice(bytes);
        Name {
            bytes: room,
            len: bytes.len(),
        }
    }

    /// Lends the bytes of the name.
    pub fn as_bytes(&self) -> &[u8]
        ensures { result.now ≡ name_of self.now }
    {
        &self.bytes[..self.len]
    }
}
