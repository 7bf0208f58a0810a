// What the programs reach outside themselves: words of the command line, files by name, what they read, and what they say.
#![tactic(auto)]

ghost use Rattle.std.specs.Prelude.{◌≡◌, ◌≤◌, length, IfSome};

use std::env::{Env, FillError};
use std::fmt::{Display, InlineText};
use std::fs::OpenOptions;
use std::io::{Error, ErrorKind, Read, Result, Stderr, Stdout};
use std::rt::Files;
use std::{fs, str};

// Room for any path.
pub fn buffer() -> [u8; 4096]
    ensures { length result ≡ 4096 }
{
    [0; 4096]
}

// Room for a piece of a file.
pub fn large_buffer() -> [u8; 65536]
    ensures { length result ≡ 65536 }
{
    [0; 65536]
}

// Word k of the command line, which is then in the bytes; none where there is none, or it is longer than they are.
pub fn word<'a>(env: &impl Env, k: usize, buf: &'a mut [u8]) -> Option<&'a [u8]>
    ensures { IfSome result (λ word. length word.now ≤ length buf.old) }
{
    let len = env.arg(k, buf).ok()?;
    Some(&buf[..len])
}

// Whether there is a word k, however long it is.
pub fn has_word(env: &impl Env, k: usize) -> bool {
    !matches!(env.arg(k, &mut [0]), Err(FillError::NotPresent))
}

// The library takes names in UTF-8 alone.
fn path(name: &[u8]) -> Result<&str> {
    str::from_utf8(name).or(Err(Error::from(ErrorKind::InvalidFilename)))
}

// Opens a file for reading.
pub fn open<R: Files>(files: &R, name: &[u8]) -> Result<R::File> {
    fs::open(files, path(name)?)
}

// Makes a file for writing; one that is there already is not opened.
pub fn create<R: Files>(files: &R, name: &[u8]) -> Result<R::File> {
    OpenOptions::new()
        .write(true)
        .create_new(true)
        .open(files, path(name)?)
}

pub fn remove(files: &impl Files, name: &[u8]) -> Result<()> {
    fs::remove_file(files, path(name)?)
}

pub fn rename(files: &impl Files, from: &[u8], to: &[u8]) -> Result<()> {
    fs::rename(files, path(from)?, path(to)?)
}

// Removes what could not be written whole; nothing is said where that is not possible.
pub fn abandon<R: Files>(files: &R, made: R::File, name: &[u8]) {
    drop(made);
    let _ = remove(files, name);
}

// Fills the bytes with the next of the file, as far as it has so many, and says how many it had: what cannot be read counts as not there.
pub fn read_full<R: Read>(file: &mut R, buf: &mut [u8]) -> usize
    ensures { result ≤ length buf.new }
{
    // By hand: the library's `read_exact` doesn't say how many there were.
    let mut done = 0;
    while done < buf.len() {
        let got = file.read(&mut buf[done..]).unwrap_or(0);
        if got == 0 {
            return done;
        }
        done += got;
    }
    done
}

// Where lines go, and what is said besides.
#[derive(Clone, Copy)]
pub struct Streams {
    pub out: Stdout,
    pub err: Stderr,
}

impl Streams {
    // Says on standard error that something failed, and why, in the system's words.
    pub fn fail(self, what: &[u8], error: Error) -> Result<()> {
        let text = InlineText::<256>::of(error);
        let why = text.as_str();
        let said = match why.split_once(" (os error ") {
            Some((words, _)) => words,
            None => why,
        };
        self.err.write_all(what)?;
        println!(self.err; ": {said}")
    }

    // Says on standard error what is wrong with a file.
    pub fn tell<D: Display + Drop>(self, name: &[u8], what: D) -> Result<()> {
        self.err.write_all(name)?;
        println!(self.err; ": {what}")
    }

    // Writes lines, and says so where they cannot be written; whether they could.
    pub fn print(self, lines: &[u8]) -> Result<bool> {
        match self.out.write_all(lines) {
            Ok(()) => Ok(true),
            Err(error) => {
                self.fail(b"standard output", error)?;
                Ok(false)
            }
        }
    }
}

// How far a program is, on standard error, if it is shown. Where that cannot be written, the program goes on.
#[derive(Clone, Copy)]
pub struct Progress {
    pub err: Stderr,
    pub shown: bool,
}

impl Progress {
    // In place of what was said before.
    pub fn say<D: Display + Drop>(self, how_far: D) {
        if self.shown {
            let _ = print!(self.err; "\r{how_far}");
        }
    }

    // Clears the line that it stood on.
    pub fn end(self) {
        self.say("\x1b[K");
    }
}
