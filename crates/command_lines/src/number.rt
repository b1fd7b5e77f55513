//! Makes options that take a number.
ghost use Rattle.std.specs.Prelude.{codes};
ghost use Rattle.command_lines.specs.CommandLine.{option, values, wanted};
ghost use Rattle.command_lines.specs.Numbers.{IsNumberArg};

use clap::builder::ValueParser;
use clap::{Arg, value_parser};
use std::alloc::Global;

/// Makes the option `--NAME VALUE`, whose value is what the parser takes.
pub(crate) fn number<'a>(
    alloc: Global,
    name: &'a str,
    value: &'a str,
    parser: ValueParser<'a>,
    help: &'a str,
) -> Arg<'a>
    ensures { IsNumberArg (option name.now parser.entry) name.now parser.entry result }
{
    Arg::new(alloc, name)
        .long(name)
        .value_name(value)
        .value_parser(parser)
        .help(help)
}

/// Makes the same option as one that is required.
pub(crate) fn wanted_number<'a>(
    alloc: Global,
    name: &'a str,
    value: &'a str,
    parser: ValueParser<'a>,
    help: &'a str,
) -> Arg<'a>
    ensures { IsNumberArg (wanted (option name.now parser.entry)) name.now parser.entry result }
{
    Arg::new(alloc, name)
        .long(name)
        .value_name(value)
        .value_parser(parser)
        .help(help)
        .required(true)
}

/// Makes the option `--forget V`.
pub(crate) fn forget<'a>(alloc: Global) -> Arg<'a>
    ensures { IsNumberArg (option (codes "forget") values) (codes "forget") values result }
{
    number(
        alloc,
        "forget",
        "V",
        value_parser!(i64).range(0..=1_099_511_627_776),
        "Forget after so many values of 8 bytes, 0 to 2^40; 0 only if asked;\na call counts 16, \
        each value of a row 4",
    )
}
