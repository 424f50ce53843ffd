//! What is told of a command line that is refused.
use crate::tests::assert_same_at;
use crate::tests::of_command_line::words_of;
use command_line::arguments_of;
use std::alloc::Global;
use std::process::Abort;

/// What is told of a command line that is refused.
fn told_of(alloc: Global, line: &str) -> Option<String> {
    let words = words_of(alloc, line)?;
    let error = arguments_of(alloc, words.as_slice()).err()?;
    format!(in alloc; "{error}").ok()
}

/// The refusal of this command line says this of its command.
fn assert_usage(rt: &impl Abort, alloc: Global, line: &str, usage: &str) {
    let told = told_of(alloc, line).expect(rt, "a refusal");
    assert_same_at(rt, told.contains(usage), true, told.as_str());
}

#[test]
fn a_value_that_is_refused_is_told_with_the_usage_of_its_command(rt: HostRuntime) {
    let rows = [
        (
            "check --table a --fare 0 3 2025-01-07T08:30:00Z",
            "\nUsage: bovtrila check --table <FILE> [--strict | --fare <FROM> <TO> <MOMENT>]\n",
        ),
        (
            "verify --journal a --sealed 1 00",
            "\nUsage: bovtrila verify [OPTIONS] --journal <FILE> [REVISION]...\n",
        ),
        (
            "balances --table a --journal b --at x",
            "\nUsage: bovtrila balances [OPTIONS] --table <FILE> --journal <FILE> \
             [REVISION]...\n",
        ),
        (
            "replay --cards +10",
            "\nUsage: bovtrila replay [OPTIONS] --cards <N> [REVISION]...\n",
        ),
        (
            "replay --cards 1,000",
            "invalid value '1,000' for '--cards <N>': \
             a whole number from 1 to 100000, in the digits 0 to 9 alone\n",
        ),
        (
            "verify --journal a --expect-capacity 1000001",
            "invalid value '1000001' for '--expect-capacity <N>': \
             a whole number from 1 to 1000000, in the digits 0 to 9 alone\n",
        ),
    ];
    for (line, usage) in &rows {
        assert_usage(&rt, rt.alloc(), line, usage);
    }
}
