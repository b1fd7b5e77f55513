//! Lists the names of the declared streams and of their columns.
ghost use Rattle.std.specs.Prelude.{◌≡◌, ◌≤◌, ◌++◌, ◌∷◌, [], IfOk, length};
ghost use Rattle.std.specs.List.{AllByRecursion};
ghost use Rattle.reference.specs.Commands.{catalog_of};

use crate::stream::Stream;
use names::Catalog;
use std::alloc::{AllocError, Global};

/// Returns the names of the streams and of their columns.
fn catalog_of(alloc: Global, streams: &[Stream]) -> Result<Catalog, AllocError>
    ensures catalog { IfOk result (λ c. c ≡ catalog_of streams.now) }
    ensures few { IfOk result (λ c. AllByRecursion (λ s. length s.columns ≤ 8) c) }
{
    let mut catalog = Catalog::new(alloc);
    for stream in streams {
        stream.declare_in(alloc, &mut catalog)?;
    }
    Ok(catalog)
}

/// Returns the names of the streams and of one more.
pub(crate) fn catalog_with(
    alloc: Global,
    streams: &[Stream],
    stream: &Stream,
) -> Result<Catalog, AllocError>
    ensures catalog { IfOk result (λ c. c
        ≡ catalog_of streams.now ++ catalog_of (stream.now ∷ [])) }
    ensures few { IfOk result (λ c. AllByRecursion (λ s. length s.columns ≤ 8) c) }
{
    let mut catalog = catalog_of(alloc, streams)?;
    stream.declare_in(alloc, &mut catalog)?;
    Ok(catalog)
}
