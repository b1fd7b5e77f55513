//! Says what a program writes of a fault, and its status then.
ghost use Rattle.std.specs.Prelude.{◌≡◌, ◌≢◌};
ghost use Rattle.std.specs.IoError.{error_kind};
ghost use Rattle.served.specs.Errors.{IsTold, memory_line};
ghost use Rattle.programs.specs.Run.{differs_line, fault_line};
ghost use Rattle.programs.specs.Ends.{no_server_text_line, no_text_line, status_of};

use served::{lack_server_memory, tell};
use std::io::{Error, ErrorKind};
use wire::{ScriptFault, Sink};

/// Is the status after a wrong command line.
pub(crate) const WRONG_WORDS: u8 = 2;

fn line_of(fault: &ScriptFault) -> &'static str
    ensures { result.now ≡ fault_line fault.now }
{
    match fault {
        ScriptFault::Read => "cqlrun: read failed\n",
        ScriptFault::Write => "cqlrun: write failed\n",
        ScriptFault::Memory => "cqlrun: out of memory\n",
    }
}

fn status_of(fault: &ScriptFault) -> u8
    ensures { result ≡ status_of fault.now }
{
    match fault {
        ScriptFault::Read | ScriptFault::Write => 1,
        ScriptFault::Memory => 3,
    }
}

/// Writes a fault after the program's name, and returns the program's status.
pub(crate) fn fail<E: Sink>(errors: &mut E, fault: &ScriptFault) -> u8
    ensures status { result ≡ status_of fault.now }
    ensures told { IsTold E.taken E.failures errors.old errors.new (fault_line fault.now) }
{
    tell(errors, line_of(fault));
    status_of(fault)
}

/// Writes that the history and the seat differ, and returns the program's status.
pub(crate) fn differ<E: Sink>(errors: &mut E) -> u8
    ensures status { result ≡ 1 }
    ensures told { IsTold E.taken E.failures errors.old errors.new differs_line }
{
    tell(errors, "cqlrun: close failed\n");
    1
}

/// Writes that memory ran out at the start, and returns the program's status.
pub fn lack_memory<E: Sink>(errors: &mut E) -> u8
    ensures status { result ≡ 3 }
    ensures told { IsTold E.taken E.failures errors.old errors.new (fault_line ScriptFault.Memory) }
{
    fail(errors, &ScriptFault::Memory)
}

/// Writes why the program's words could not be read, and returns the program's status. That is 3
/// when out of memory; otherwise 2, since a word that is not UTF-8 is a wrong command line. The
/// error is that of `std::env::args`.
pub fn lack_words<E: Sink>(errors: &mut E, error: &Error) -> u8
    ensures memory { error_kind error.now ≡ ErrorKind.OutOfMemory → result ≡ 3 }
    ensures lacks { result ≡ 3
        → IsTold E.taken E.failures errors.old errors.new (fault_line ScriptFault.Memory) }
    ensures wrong { error_kind error.now ≢ ErrorKind.OutOfMemory → result ≡ 2 }
    ensures told { result ≡ 2
        → IsTold E.taken E.failures errors.old errors.new no_text_line }
{
    if error.kind() == ErrorKind::OutOfMemory {
        return lack_memory(errors);
    }
    tell(errors, "cqlrun: a word is not UTF-8\n");
    WRONG_WORDS
}

/// Writes why the words of `cqld` could not be read, as `lack_words` does.
pub fn lack_server_words<E: Sink>(errors: &mut E, error: &Error) -> u8
    ensures memory { error_kind error.now ≡ ErrorKind.OutOfMemory → result ≡ 3 }
    ensures lacks { result ≡ 3 → IsTold E.taken E.failures errors.old errors.new memory_line }
    ensures wrong { error_kind error.now ≢ ErrorKind.OutOfMemory → result ≡ 2 }
    ensures told { result ≡ 2
        → IsTold E.taken E.failures errors.old errors.new no_server_text_line }
{
    if error.kind() == ErrorKind::OutOfMemory {
        return lack_server_memory(errors);
    }
    tell(errors, "cqld: a word is not UTF-8\n");
    WRONG_WORDS
}
