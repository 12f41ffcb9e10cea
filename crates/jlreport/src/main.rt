//! The program `jlreport`: hands its words, the file and the standard streams to the engine, and
//! ends with the status that `jlreport_engine::serve` answers.
#![tactic(auto)]

mod progress;

use crate::progress::{ProgressLine, Watched};
use jlreport_cli::{Settings, WordsFault, settings};
use jlreport_engine::serve;
use std::alloc::{AllocError, Global};
use std::fs::File;
use std::io::{Read, Stdin};
use std::marker::Sync;
use std::process::ExitCode;
use std::random::RandomSource;
use std::sync::Wait;
use std::thread::Threads;
use std::{env, io};

/// What is read: a file, or standard input from where it stands.
#[derive(Drop)]
enum Source {
    File(File),
    Standard(Stdin),
}

impl Read for Source {
    fn read(&mut self, buffer: &mut [u8]) -> io::Result<usize> {
        match self {
            Source::File(file) => file.read(buffer),
            Source::Standard(input) => input.read(buffer),
        }
    }
}

impl Source {
    /// What the word for FILE names: standard input where it is `-`, and else the file of this
    /// path, unless it cannot be opened.
    fn open(rt: &HostRuntime, word: &str) -> Option<Source> {
        if word == "-" {
            return Some(Source::Standard(rt.stdin()));
        }
        File::open(rt, word).ok().map(Source::File)
    }

    /// How many bytes there are, where that is known before they are read: those of a file that is
    /// no pipe and no device.
    fn size(&self) -> Option<u64> {
        match self {
            Source::File(file) => file
                .metadata()
                .ok()
                .filter(|it| it.is_file())
                .map(|it| it.len()),
            Source::Standard(_) => None,
        }
    }
}

/// What the word for FILE names, unless it cannot be opened; with a line on the terminal, where
/// that is asked for.
fn open<'a>(rt: &'a HostRuntime, word: &str, progress: bool) -> Option<Watched<'a, Source>> {
    let source = Source::open(rt, word)?;
    let line = if progress {
        ProgressLine::new(rt, source.size())
    } else {
        None
    };
    Some(Watched::new(source, line))
}

/// Want of memory, in place of settings.
fn out_of_memory(error: AllocError) -> WordsFault {
    WordsFault::Clap(clap::Error::from(error))
}

/// The words of the command line, the program's name first.
fn words_of(rt: &HostRuntime) -> Result<Vec<String>, WordsFault> {
    match env::args(rt) {
        Ok(words) => words.collect(rt.alloc()).map_err(out_of_memory),
        Err(error) if error.kind() == io::ErrorKind::InvalidData => Err(WordsFault::NotUtf8),
        Err(_) => Err(out_of_memory(AllocError)),
    }
}

/// The texts of words.
fn texts_of(alloc: Global, words: &[String]) -> Result<Vec<&str>, AllocError> {
    words.iter().map(|word| word.as_str()).collect(alloc)
}

/// Does what is asked for, with the standard streams, the real files and threads.
fn serve_here(
    rt: &HostRuntime,
    threads: &(impl Threads + Wait + RandomSource + Sync),
    asked: Result<Settings<'_>, WordsFault>,
) -> u8 {
    let (mut out, mut err) = (rt.stdout(), rt.stderr());
    let progress = matches!(&asked, Ok(settings) if settings.progress);
    let mut opener = |word: &str| open(rt, word, progress);
    serve(threads, rt.alloc(), asked, &mut opener, &mut out, &mut err)
}

/// Does what words ask for.
fn serve_words(
    rt: &HostRuntime,
    threads: &(impl Threads + Wait + RandomSource + Sync),
    words: &[String],
) -> u8 {
    match texts_of(rt.alloc(), words) {
        Ok(texts) => serve_here(rt, threads, settings(rt.alloc(), texts.as_slice())),
        Err(error) => serve_here(rt, threads, Err(out_of_memory(error))),
    }
}

fn main(rt: HostRuntime) -> ExitCode {
    ExitCode::from(match words_of(&rt) {
        Ok(words) => serve_words(&rt, &rt, words.as_slice()),
        Err(fault) => serve_here(&rt, &rt, Err(fault)),
    })
}
