// A file's bytes loaded into a lent text, and in plain words why not, and whether an argument is a word: for the planners' programs.
// No contract can say what a file or an argument holds. Proved is that nothing is out of range, how many bytes are told and of what kind of file (specs/Loads), and what is put of a file that is
// not there or can't be taken (`put_trouble`, specs/Troubles), for every name.
//
// Arguments and files are reached through a handle, so that a test may stand in for the system. std opens names of UTF-8 alone: of any other the file can't be read.
//
// Rests on `output`, `shown`, `scan`, `console` and std.
#![tactic(auto)]

ghost use Rattle.std.specs.Prelude.{◌≡◌, true, ◌++◌, ◌≤◌, length};
ghost use Rattle.output.specs.Pen.{pen, Wrote};
ghost use Rattle.files.specs.Loads.{Unread, TooMuch, LoadsUpTo, Loads, LoadsRndf};
ghost use Rattle.files.specs.Names.{IsGiven};
ghost use Rattle.files.specs.Troubles.{trouble};

use console::read_full;
use output::put_bytes;
use scan::same;
use shown::{first, is_mission_first};
use std::env::FillError;
use std::io::{ErrorKind, Read, Seek, SeekFrom};
use std::rt::{Env, Files};
use std::{fs, io, str};

// What came of a file: so many bytes of it, or why there are none. `Mission`: it was to be an RNDF, and begins as an MDF does.
#[derive(Clone, Copy)]
pub enum Loaded {
    Bytes(usize),
    NotAsked,
    OverLimit,
    TooBig,
    Missing,
    Folder,
    Unreadable,
    Mission,
}

// ## Arguments

// Whether the argument at that place is this word, of up to 16 bytes.
pub fn is_argument<R: Env>(rt: &R, i: usize, word: &[u8]) -> bool
    ensures { result ≡ true → length word.now ≤ 16 }
{
    let mut given = [0u8; 16];
    let n = rt.arg(i, &mut given).unwrap_or(0);
    same(first(&given, n), word)
}

// Puts the argument at that place at the front of the lent name.
pub fn argument<R: Env>(rt: &R, i: usize, name: &mut [u8]) -> Option<usize>
    ensures { IsGiven name.new result }
{
    match rt.arg(i, name) {
        Ok(n) => Some(n),
        Err(FillError::TooLong) => None,
        Err(FillError::NotPresent) => Some(0),
    }
}

// How many arguments the program was started with, its own name among them.
pub fn argument_count<R: Env>(rt: &R) -> usize {
    let mut none = [0u8; 0];
    for i in 0..usize::MAX {
        match rt.arg(i, &mut none) {
            Err(FillError::NotPresent) => return i,
            _ => {}
        }
    }
    usize::MAX
}

// ## Loading

// Why a file could not be opened or read.
fn why_unread(error: &io::Error) -> Loaded
    ensures { Unread result }
{
    match error.kind() {
        ErrorKind::NotFound => Loaded::Missing,
        ErrorKind::NotADirectory => Loaded::Missing,
        ErrorKind::IsADirectory => Loaded::Folder,
        _ => Loaded::Unreadable,
    }
}

// Where a file that is too big ends tells whether it is over the readers' limit too (of a pipe that is not told).
fn how_big<F: Seek>(file: &mut F) -> Loaded
    ensures { TooMuch result }
{
    match file.seek(SeekFrom::End(0)) {
        Ok(end) => {
            if end > 16777215 {
                Loaded::OverLimit
            } else {
                Loaded::TooBig
            }
        }
        Err(_) => Loaded::TooBig,
    }
}

// What there is behind the lent text, of which so many bytes are filled: a byte that is left over makes it too big.
fn load_rest<F: Read + Seek>(file: &mut F, n: usize) -> Loaded
    ensures { LoadsUpTo n result }
{
    let mut more = [0u8; 1];
    match file.read(&mut more) {
        Ok(0) => Loaded::Bytes(n),
        Ok(_) => how_big(file),
        Err(error) => why_unread(&error),
    }
}

// Fills the lent text from an open file.
fn load_open<F: Read + Seek>(file: &mut F, text: &mut [u8]) -> Loaded
    ensures { Loads text.new result }
{
    match read_full(file, text) {
        Ok(n) => load_rest(file, n),
        Err(error) => why_unread(&error),
    }
}

fn load_named<R: Files>(rt: &R, path: &str, text: &mut [u8]) -> Loaded
    ensures { Loads text.new result }
{
    match fs::open(rt, path) {
        Ok(mut file) => load_open(&mut file, text),
        Err(error) => why_unread(&error),
    }
}

pub fn load<R: Files>(rt: &R, path: &[u8], text: &mut [u8]) -> Loaded
    ensures { Loads text.new result }
{
    match str::from_utf8(path) {
        Ok(name) => load_named(rt, name, text),
        Err(_) => Loaded::Unreadable,
    }
}

// The same, of a file that is to be an RNDF and not an MDF.
pub fn load_rndf<R: Files>(rt: &R, path: &[u8], text: &mut [u8]) -> Loaded
    ensures { LoadsRndf text.new result }
{
    let loaded = load(rt, path, text);
    match loaded {
        Loaded::Bytes(n) => {
            if is_mission_first(first(text, n)) {
                return Loaded::Mission;
            }
            loaded
        }
        _ => loaded,
    }
}

// ## What is told

fn put_of(out: &mut [u8], at: usize, name: &[u8], words: &[u8]) -> usize
    ensures { Wrote (pen out.old at) (name.now ++ words.now) (pen out.new result) }
{
    let a = put_bytes(out, at, name);
    put_bytes(out, a, words)
}

// The sentence of a file that can't be taken; nothing where its bytes are there or it is not asked for. `too_big` are the words of the program: how much it takes.
pub fn put_trouble(out: &mut [u8], at: usize, name: &[u8], too_big: &[u8], loaded: Loaded) -> usize
    ensures { Wrote (pen out.old at) (trouble name.now too_big.now loaded) (pen out.new result) }
{
    match loaded {
        Loaded::Missing => put_of(out, at, name, b": there is no such file\n"),
        Loaded::Folder => put_of(out, at, name, b": this is a folder, not a file\n"),
        Loaded::Unreadable => put_of(out, at, name, b": the file can't be read\n"),
        Loaded::Mission => put_of(
            out,
            at,
            name,
            b": this is an MDF; name the RNDF first, and the MDF behind it\n",
        ),
        Loaded::TooBig => put_of(out, at, name, too_big),
        Loaded::OverLimit => put_of(out, at, name, too_big),
        Loaded::Bytes(_) => at,
        Loaded::NotAsked => at,
    }
}
