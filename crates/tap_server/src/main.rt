//! The program `bovtrila`: it reads its command line, calls the proved function of the command, and
//! ends with its status. Its promises are those of the crates below: what is written is a stated
//! function of what is read.
#![tactic(auto)]

use command_line::{Arguments, Check, arguments_of, words_of};
use console::{Output, SystemFiles};
use door_check::check_door;
use journal_audit::{
    CommandFault, ended_by, explained_balances, explained_history, explained_verify,
    tell_command_fault,
};
use journal_service::{System, SystemDisks, explained_migrate, serve_gates, standard_files};
use line_replay::replay_input;
use reply_book::NameHashing;
use statement_command::explained_statement;
use std::fs::File;
use std::io;
use std::io::Write;
use std::net::{Net, TcpListener, TcpStream};
use std::process::ExitCode;
use std::random::RandomSource;
use std::rt::{Env, Files};
use table_check::{check_file, tell_changes, tell_fare};

fn main(rt: HostRuntime) -> io::Result<ExitCode> {
    match run(&rt) {
        Ok(status) => Ok(status),
        Err(fault) => tell_command_fault(&rt, fault),
    }
}

/// Does what the command line asks for, and answers the status. What standard output refuses is
/// told with its reason, and nothing is told where nobody reads it any more.
fn run<
    R: System
        + Env
        + Input
        + RandomSource
        + Files<File = File>
        + Net<Listener = TcpListener, Stream = TcpStream>,
>(rt: &R) -> Result<ExitCode, CommandFault> {
    let mut output = Output::over(io::writer(rt));
    match done(rt, &mut output) {
        Ok(status) => Ok(status),
        Err(fault) => ended_by(rt.alloc(), output.refusal(), fault),
    }
}

/// Does what the command line asks for, with standard output, and answers the status.
fn done<
    R: System
        + Env
        + Input
        + RandomSource
        + Files<File = File>
        + Net<Listener = TcpListener, Stream = TcpStream>,
    W: Write,
>(rt: &R, output: &mut W) -> Result<ExitCode, CommandFault> {
    let words = words_of(rt)?;
    let words: Vec<&str> = words.iter().map(|word| word.as_str()).collect(rt.alloc())?;
    let files = SystemFiles::new(rt);
    let disks = SystemDisks::new(rt);
    let hashing = NameHashing::random(rt);
    match arguments_of(rt.alloc(), words.as_slice())? {
        Arguments::Replay {
            table,
            cards,
            revisions,
        } => Ok(replay_input(
            rt.alloc(),
            hashing,
            &files,
            table,
            revisions.as_slice(),
            cards,
            &mut rt.reader(),
            output,
        )?),
        Arguments::Check(Check::Report { table, strict }) => {
            Ok(check_file(rt, &files, table, strict, output)?)
        }
        Arguments::Check(Check::Fare { table, journey }) => {
            Ok(tell_fare(rt.alloc(), &files, table, journey, output)?)
        }
        Arguments::Check(Check::Changes { old, new }) => {
            Ok(tell_changes(rt.alloc(), &files, old, new, output)?)
        }
        Arguments::Check(Check::Door { door }) => Ok(check_door(rt, &files, door, output)?),
        Arguments::Serve(asked) => {
            let _held = standard_files(rt);
            serve_gates(rt, hashing, &asked)
        }
        Arguments::Migrate(asked) => explained_migrate(rt, &files, &disks, &asked, output),
        Arguments::Verify(asked) => explained_verify(rt, hashing, &files, &asked, output),
        Arguments::History(asked) => explained_history(rt, hashing, &files, &asked, output),
        Arguments::Balances(asked) => explained_balances(rt, hashing, &files, &asked, output),
        Arguments::Statement(asked) => explained_statement(rt, hashing, &files, &asked, output),
    }
}
