//! Files in memory, and commands run over them by the tool with threads.
use explore::watch::Silent;
use rank_threads::OpenGate;
use std::alloc::Global;
use std::sync::Wait;
use std::thread::Threads;
use wiz_base::{Bytes, push_text};
use wiz_cli::top::wiz;
use wiz_io::{MemorySink, MemoryStore};
use wiz_tool::report::Report;

/// Files with these names and bytes.
pub fn files(alloc: Global, named: &[(&str, &[u8])]) -> Option<MemoryStore> {
    let mut store = MemoryStore::new(alloc);
    for (name, bytes) in named {
        store.add(name, bytes).ok()?;
    }
    Some(store)
}

/// The words of a text.
pub fn words_of<'a>(alloc: Global, text: &'a str) -> Option<Vec<&'a str>> {
    let mut words = Vec::new(alloc);
    for word in text.split_ascii_whitespace() {
        words.push(word).ok()?;
    }
    Some(words)
}

/// The parts one after the other.
pub fn joined(alloc: Global, parts: &[&[u8]]) -> Option<Bytes> {
    let mut text = Bytes::new(alloc);
    for part in parts {
        push_text(&mut text, part).ok()?;
    }
    Some(text)
}

/// Runs a command, whose arguments are the words of a text, over these files and this output.
pub fn run<R: Threads + Wait + Sync + AllocGlobal>(
    rt: &R,
    store: &mut MemoryStore,
    words: &str,
    out: &mut MemorySink,
) -> Option<Report> {
    let words = words_of(rt.alloc(), words)?;
    Some(wiz(rt, rt.alloc(), &words, store, out, &OpenGate, &mut Silent))
}

/// What a command answers: its status, what is printed, and how many replays it made.
#[derive(Drop)]
pub struct Answer {
    pub status: u8,
    pub printed: Bytes,
    pub replays: usize,
}

impl Answer {
    /// Whether another answer is the same.
    pub fn is(&self, other: &Answer) -> bool {
        self.has(other.status, other.printed.as_slice()) && self.replays == other.replays
    }

    /// Whether it has this status and output.
    pub fn has(&self, status: u8, printed: &[u8]) -> bool {
        self.status == status && self.printed.as_slice() == printed
    }
}

/// What a report and an output answer.
pub fn answer_of(alloc: Global, report: &Report, out: &MemorySink) -> Option<Answer> {
    let printed = Bytes::from_slice(alloc, out.bytes()).ok()?;
    Some(Answer {
        status: report.status,
        printed,
        replays: report.replayed.as_slice().len(),
    })
}

/// Runs a command over these files.
pub fn ask<R: Threads + Wait + Sync + AllocGlobal>(
    rt: &R,
    store: &mut MemoryStore,
    words: &str,
) -> Option<Answer> {
    let mut out = MemorySink::new(rt.alloc());
    let report = run(rt, store, words, &mut out)?;
    answer_of(rt.alloc(), &report, &out)
}
