//! The command line tool `wiz`.
//!
//! It hands the arguments of its command line, the host's files and the standard output to the top call, and ends with the
//! status of the report. Beside a refusal the error output shows what helps: the form of the command, or the line of the program. Of a long
//! search it shows how far it is.
#![tactic(auto)]

use explore::watch::{Progress, Watcher};
use explore_text::text::progress_text;
use rank_threads::OpenGate;
use std::alloc::{AllocError, Global};
use std::env::Env;
use std::io::Write;
use std::process::ExitCode;
use std::rt::Files;
use std::sync::Wait;
use std::thread::Threads;
use std::{env, io};
use wiz_cli::top::wiz;
use wiz_io::{HostSink, HostStore};
use wiz_tool::status::Status;
use wiz_usage::{WatchedStore, fault_line, usage};
use wiz_words::command::Command;
use wiz_words::read::read_command;

fn main(rt: HostRuntime) -> ExitCode {
    match run(&rt, &rt.stderr()) {
        Ok(status) => ExitCode::from(status),
        Err(_) => ExitCode::from(Status::OutOfMemory.number()),
    }
}

/// The status of the command. The error is out of memory.
fn run<R: Files + Print + Threads + Wait + Sync + Env + AllocGlobal, E: Print>(
    rt: &R,
    errors: &E,
) -> Result<u8, AllocError> {
    let args = read_words(rt)?;
    let mut words = Vec::new(rt.alloc());
    for word in args.iter() {
        words.push(word.as_str())?;
    }
    let program = program_named(rt.alloc(), words.as_slice());
    let mut store = WatchedStore::new(HostStore::new(rt), program);
    let mut out = HostSink::new(rt);
    let mut lines = Lines {
        alloc: rt.alloc(),
        errors,
    };
    let report = wiz(
        rt,
        rt.alloc(),
        words.as_slice(),
        &mut store,
        &mut out,
        &OpenGate,
        &mut lines,
    );
    if report.status == Status::Words.number() {
        show_usage(errors, words.as_slice());
    }
    if report.status == Status::Program.number() {
        if let Some(text) = store.seen() {
            show_fault(rt.alloc(), errors, text.as_slice());
        }
    }
    Ok(report.status)
}

/// The arguments after the program's name. If any argument is not valid UTF-8, none are passed; the top call then refuses the command.
fn read_words<R: Env + AllocGlobal>(rt: &R) -> Result<Vec<String>, AllocError> {
    let mut words = Vec::new(rt.alloc());
    match env::args(rt) {
        Ok(args) => {
            for word in args.skip(1) {
                words.push(word)?;
            }
            Ok(words)
        }
        Err(error) => match error.kind() {
            io::ErrorKind::OutOfMemory => Err(AllocError),
            _ => Ok(words),
        },
    }
}

/// The file of the program that the arguments name, if they name one.
fn program_named<'a>(alloc: Global, words: &'a [&'a str]) -> Option<&'a str> {
    match read_command(alloc, words) {
        Ok(Some(command)) => match command {
            Command::Record { run, .. }
            | Command::Check(run)
            | Command::Races { run, .. }
            | Command::Waits(run)
            | Command::Picture { run, .. }
            | Command::Explore { run, .. }
            | Command::Advise { run, .. } => Some(run.program),
            Command::Replay(replay)
            | Command::Watch { replay, .. }
            | Command::At(replay)
            | Command::Where { replay, .. } => replay.program,
            _ => None,
        },
        _ => None,
    }
}

/// Shows how far a search is, a line each time.
#[derive(Drop)]
struct Lines<'a, E: Print> {
    alloc: Global,
    errors: &'a E,
}

impl<'a, E: Print> Watcher for Lines<'a, E> {
    /// Shows the line. What cannot be made or shown is left out.
    fn looked(&mut self, progress: Progress) {
        if let Ok(line) = progress_text(self.alloc, progress) {
            let _ = io::writer(self.errors).write_all(line.as_slice());
        }
    }
}

/// Shows the forms of the commands, or of the one that is named. What cannot be shown is left out.
fn show_usage<E: Print>(errors: &E, words: &[&str]) {
    let mut errors = io::writer(errors);
    for form in usage(words) {
        let _ = errors.write_all(form.as_bytes());
    }
}

/// Shows the line of a program's first fault. What cannot be made or shown is left out.
fn show_fault<E: Print>(alloc: Global, errors: &E, text: &[u8]) {
    if let Ok(Some(line)) = fault_line(alloc, text) {
        let _ = io::writer(errors).write_all(line.as_slice());
    }
}
