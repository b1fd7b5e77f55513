//! Keeps the declared streams that a query may name.
ghost use Rattle.std.specs.Prelude.{◌≡◌, [], ◌∷◌, ◌++◌, OnOk, OnErr, map, position};
ghost use Rattle.std.specs.Str.{bytes_eq};
ghost use Rattle.cql_reader.specs.Names.{name_of};
ghost use Rattle.names.specs.Catalog.{number_in, columns_in};

use cql_reader::Name;
use std::alloc::{AllocError, Global};
use std::marker::Model;

/// Is a declared stream: its name, and its columns' names.
#[derive(Drop)]
pub(crate) struct Declared {
    /// Holds its name.
    name: Name,
    /// Holds the names of its columns, in the order of its declaration.
    columns: Vec<Name>,
}

/// Holds the declared streams by their numbers, which count from 0 in the order of declaration.
///
/// It holds their names and their columns' names, as `resolve` looks them up. An engine keeps one
/// beside its streams and adds to it at each declaration.
#[derive(Drop)]
pub struct Catalog {
    /// Holds the streams by their numbers.
    streams: Vec<Declared>,
}

impl Model for Catalog {
    ghost use Rattle.std.specs.Prelude.{List};
    ghost use Rattle.names.specs.Catalog.{Stream};
    ghost use Rattle.names.specs.Views.{streams_of};

    ghost Value = { List Stream };

    ghost view = { λ c. streams_of c.streams.items };
}

/// Returns the number of the stream of a name.
fn number_among(streams: &[Declared], name: &[u8]) -> Option<usize>
    ensures { result ≡ position (λ d. bytes_eq (name_of d.name) name.now) streams.now }
{
    streams
        .iter()
        .position(|stream| stream.name.as_bytes() == name)
}

impl Catalog {
    /// Makes a catalog without streams.
    pub fn new(alloc: Global) -> Catalog
        ensures { result ≡ [] }
    {
        Catalog {
            streams: Vec::new(alloc),
        }
    }

    /// Adds a stream, whose number is how many there were before.
    ///
    /// # Errors
    /// `AllocError` when out of memory; then nothing has changed.
    pub fn declare(&mut self, name: Name, columns: Vec<Name>) -> Result<(), AllocError>
        ensures ok { OnOk result (self.new
            ≡ self.old ++ record { name = name_of name; columns = map name_of columns.items }
            ∷ []) }
        ensures err { OnErr result (self.new ≡ self.old) }
    {
        self.streams.push(Declared { name, columns })?;
        Ok(())
    }

    /// Returns the number of the stream of a name; None where no stream has it.
    pub fn number_of(&self, name: &[u8]) -> Option<usize>
        ensures { result ≡ number_in self.now name.now }
    {
        number_among(&self.streams, name)
    }

    /// Lends the columns' names of the stream of a name; none where no stream has it.
    pub fn columns_of(&self, name: &[u8]) -> &[Name]
        ensures { map name_of result.now ≡ columns_in self.now name.now }
    {
        match self.number_of(name) {
            Some(number) => &self.streams[number].columns,
            None => &[],
        }
    }
}
