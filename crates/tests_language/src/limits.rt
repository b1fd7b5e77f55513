//! Tests calls at the limits of an engine, by their first test that fails.
ghost use Rattle.std.specs.Prelude.{◌≤◌};

use reference::{Fault, NewRows, append_fault, declare_fault, register_fault};
use std::alloc::{AllocError, Global};
use std::test::Fail;

/// Returns the first fault of `count` rows of one value at the instant 0, for a stream of one
/// column to which `arrivals` rows came.
fn fault_of_rows(
    alloc: Global,
    count: usize,
    arrivals: u64,
    first_open: u64,
) -> Result<Option<Fault>, AllocError>
    requires { first_open ≤ 1 }
{
    let mut rows = NewRows::new(alloc);
    for _ in 0..count {
        rows.push_row(0, &[Some(7)])?;
    }
    Ok(append_fault(&rows, 1, arrivals, first_open))
}

#[test]
fn a_full_stream_takes_no_row(rt: HostRuntime) -> Result<(), Fail> {
    for (count, arrivals, fault) in [
        (1, 1_073_741_823, None),
        (1, 1_073_741_824, Some(Fault::StreamFull)),
        (1_024, 1_073_740_800, None),
        (1_024, 1_073_740_801, Some(Fault::StreamFull)),
        (1_025, 1_073_741_824, Some(Fault::TooMany)),
        (0, 1_073_741_824, None),
    ] {
        assert_eq!(rt; fault_of_rows(rt.alloc(), count, arrivals, 0)?, fault);
    }
    let late = fault_of_rows(rt.alloc(), 1, 1_073_741_824, 1)?;
    assert_eq!(rt; late, Some(Fault::Late));
    Ok(())
}

#[test]
fn queries_and_registrations_are_counted(rt: HostRuntime) {
    for (is_taken, undropped, registrations, fault) in [
        (false, 0, 2_147_483_647, None),
        (false, 0, 2_147_483_648, Some(Fault::TooMany)),
        (false, 255, 255, None),
        (false, 256, 256, Some(Fault::TooMany)),
        (true, 256, 2_147_483_648, Some(Fault::NameTaken)),
    ] {
        assert_eq!(rt;
            register_fault("q", is_taken, undropped, registrations),
            fault
        );
    }
    let reserved = register_fault("where", false, 0, 2_147_483_648);
    assert_eq!(rt; reserved, Some(Fault::BadName));
}

/// Returns the first fault of a stream `S(a)` from an instant on, if there are so many streams.
fn fault_of_stream(alloc: Global, from: i64, streams: usize) -> Result<Option<Fault>, AllocError> {
    let mut columns = Vec::new(alloc);
    columns.push(String::from_str(alloc, "a")?)?;
    Ok(declare_fault("S", columns.as_slice(), from, false, streams))
}

#[test]
fn streams_are_counted(rt: HostRuntime) -> Result<(), Fail> {
    for (from, streams, fault) in [
        (0, 63, None),
        (0, 64, Some(Fault::TooMany)),
        (1_099_511_627_776, 0, None),
        (1_099_511_627_777, 64, Some(Fault::InstantRange)),
    ] {
        assert_eq!(rt; fault_of_stream(rt.alloc(), from, streams)?, fault);
    }
    Ok(())
}
