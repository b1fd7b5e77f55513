//! Finds an engine's streams and queries in its tables of names.
ghost use Rattle.std.specs.Prelude.{◌≡◌, List, count_by, map, not, position};
ghost use Rattle.std.specs.Str.{bytes_eq};
ghost use Rattle.name_table.specs.Names.{bears};
ghost use Rattle.reference.specs.Machine.{Registered, Stream, is_called};
ghost use Rattle.reference.specs.Named.{name_of_registered, stream_name};

use name_table::NameTable;

/// Returns the number of the stream of this name, if the table has the names of all streams. Takes
/// no memory; the time grows with the logarithm of the number of streams.
pub fn stream_place(names: &NameTable, name: &str) -> Option<u64>
    ensures { (streams : List Stream) → names.now ≡ map stream_name streams
        → result ≡ position (λ s. bytes_eq s.name name.now) streams }
{
    number_of(names, name)
}

/// Returns the number of the undropped query of this name, if the table has the names of all
/// undropped queries. Takes no memory; the time grows with the logarithm of their number.
pub fn query_place(names: &NameTable, name: &str) -> Option<u64>
    ensures { (queries : List Registered) → names.now ≡ map name_of_registered queries
        → result ≡ position (is_called name.now) queries }
{
    number_of(names, name)
}

/// Counts the undropped queries, if the table has the names of all of them. Scans nothing.
pub fn count_undropped(names: &NameTable) -> usize
    ensures { (queries : List Registered) → names.now ≡ map name_of_registered queries
        → result ≡ count_by (λ q. not q.is_dropped) queries }
{
    names.count_names()
}

/// Returns the number that has this name in the table.
fn number_of(names: &NameTable, name: &str) -> Option<u64>
    ensures { result ≡ position (bears name.now) names.now }
{
    names.number(name).map(|number| number as u64)
}
