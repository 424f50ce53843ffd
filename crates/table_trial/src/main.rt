//! The program that fare tables and doors are tried by: `replay` and `check` of `tap_server`,
//! without a journal and without a server. It reads its command line, calls what is proved, and
//! prints.
#![tactic(auto)]

use command_line::{Arguments, Check, arguments_of, refuse_command, words_of};
use console::{SystemFiles, TrialFault, tell_fault};
use door_check::check_door;
use line_replay::replay_input;
use reply_book::NameHashing;
use std::io;
use std::process::ExitCode;
use std::random::RandomSource;
use std::rt::{Env, Files};
use table_check::{check_file, tell_changes, tell_fare};

fn main(rt: HostRuntime) -> io::Result<ExitCode> {
    match run(&rt) {
        Ok(status) => Ok(status),
        Err(fault) => tell_fault(&rt, fault),
    }
}

/// Does what the command line asks for, and answers the status. The commands over a journal are
/// refused.
fn run<R: AllocGlobal + Env + Files + Input + Print + Eprint + RandomSource>(
    rt: &R,
) -> Result<ExitCode, TrialFault> {
    let words = words_of(rt)?;
    let words: Vec<&str> = words.iter().map(|word| word.as_str()).collect(rt.alloc())?;
    let files = SystemFiles::new(rt);
    let mut output = io::writer(rt);
    match arguments_of(rt.alloc(), words.as_slice())? {
        Arguments::Replay {
            table,
            cards,
            revisions,
        } => replay_input(
            rt.alloc(),
            NameHashing::random(rt),
            &files,
            table,
            revisions.as_slice(),
            cards,
            &mut rt.reader(),
            &mut output,
        ),
        Arguments::Check(Check::Report { table, strict }) => {
            check_file(rt, &files, table, strict, &mut output)
        }
        Arguments::Check(Check::Fare { table, journey }) => {
            tell_fare(rt.alloc(), &files, table, journey, &mut output)
        }
        Arguments::Check(Check::Changes { old, new }) => {
            tell_changes(rt.alloc(), &files, old, new, &mut output)
        }
        Arguments::Check(Check::Door { door }) => check_door(rt, &files, door, &mut output),
        _ => Err(TrialFault::Line(refuse_command(rt.alloc())?)),
    }
}
