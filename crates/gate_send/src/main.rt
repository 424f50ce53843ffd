//! A gate's program: it reads its command line, opens or makes the gate's file, and sends what is
//! asked for, by the calls of `gate_command`.
#![tactic(auto)]

use gate_command::{
    Arguments, SendFault, Sent, arguments_of, gate_file, send_lines, tell_fault, words_of,
};
use std::fs::File;
use std::io;
use std::net::Net;
use std::process::ExitCode;
use std::rt::{Env, Files};
use std::time::Clock;

fn main(rt: HostRuntime) -> io::Result<ExitCode> {
    match run(&rt) {
        Ok(Sent::All) => Ok(ExitCode::SUCCESS),
        Ok(Sent::ButBadLines) => Ok(ExitCode::from(1)),
        Err(fault) => tell_fault(&rt, fault),
    }
}

/// Does what the command line asks for.
fn run<R: AllocGlobal + Env + Files<File = File> + Input + Print + Eprint + Net + Clock>(
    rt: &R,
) -> Result<Sent, SendFault> {
    let words = words_of(rt)?;
    let words: Vec<&str> = words.iter().map(|word| word.as_str()).collect(rt.alloc())?;
    let asked = arguments_of(rt.alloc(), words.as_slice())?;
    send(rt, &asked)
}

/// Opens or makes the gate's file, and sends what waits there and what the input asks for.
fn send<R: AllocGlobal + Files<File = File> + Input + Print + Eprint + Net + Clock>(
    rt: &R,
    asked: &Arguments<'_>,
) -> Result<Sent, SendFault> {
    let mut client = gate_file(rt, asked)?;
    send_lines(rt, &mut client, asked)
}
