// What the programs do with files, and with the streams and arguments that they are started with. What fails is named on
// standard error: what could not be done, with which file, and why.
#![tactic(auto)]

ghost use Rattle.std.specs.Prelude.{◌≡◌, ◌+◌, ◌≤◌, IfErr, IfOk, length};

use std::env::{Env, FillError};
use std::fmt::InlineText;
use std::fs::{File, OpenOptions};
use std::io::{ErrorKind, Print, Read, Write};
use std::{fs, io, str};

// What kept a program from its input or its output.
#[derive(Clone, Copy, Debug, PartialEq, Eq)]
pub enum Failure {
    // The system refused it, which is named on standard error.
    Refused,
    // A text is longer than a program takes, which is named too.
    TooLong,
    // Fewer bytes are there than are asked for: of the input, or of the buffer.
    Short,
}

// What kept a read from its end, and a count that the buffer has room for: of a file how many bytes came, of `read_next`
// the length that was announced, 0 where none was.
#[derive(Clone, Copy, Debug, PartialEq, Eq)]
pub struct Unread {
    pub count: usize,
    pub why: Failure,
}

impl From<Unread> for Failure {
    fn from(unread: Unread) -> Failure
        ensures { result ≡ unread.why }
    {
        unread.why
    }
}

// Whether the program was started with an argument of that number, the first being 1.
pub fn is_given(rt: &HostRuntime, i: usize) -> bool {
    !matches!(argument(rt, i, &mut []), Err(FillError::NotPresent))
}

// An argument, put at the start of a buffer.
pub fn argument<'a>(rt: &HostRuntime, i: usize, buffer: &'a mut [u8]) -> Result<&'a [u8], FillError>
    ensures { IfOk result (λ word. length word.now ≤ length buffer.old) }
{
    let n = rt.arg(i, buffer)?;
    Ok(&buffer[..n])
}

// Writes to standard error. What cannot be written there cannot be told either.
pub fn say(rt: &HostRuntime, text: &[u8]) {
    let _ = rt.stderr().write_all(text);
}

// Writes a line to standard error: what cannot be done, with which file, and why. The reason is the system's text, which
// std gives with the error's number after it.
fn complain(rt: &HostRuntime, what: &[u8], name: &[u8], error: io::Error) -> Failure {
    let shown = InlineText::<256>::of(error);
    let text = shown.as_str();
    let why = match text.split_once(" (os error ") {
        Some((why, _)) => why,
        None => text,
    };
    for part in [what, name, b": ", why.as_bytes(), b"\n"] {
        say(rt, part);
    }
    Failure::Refused
}

// What the system gave; what it refused is named.
fn named<T>(rt: &HostRuntime, given: io::Result<T>, what: &[u8], name: &[u8]) -> Result<T, Failure>
    ensures { IfOk result (λ x. given ≡ Ok x) }
{
    given.map_err(|error| complain(rt, what, name, error))
}

// Fills the buffer from a reader, as far as the input goes.
fn fill<'a, R: Read>(
    rt: &HostRuntime,
    reader: &mut R,
    name: &[u8],
    buffer: &'a mut [u8],
) -> Result<&'a [u8], Unread>
    ensures read { IfOk result (λ read. length read.now ≤ length buffer.old) }
    ensures unread { IfErr result (λ unread. unread.count ≤ length buffer.old) }
{
    let mut count = 0;
    // Kept: a read gives as many bytes as it likes, so there is nothing to go over.
    while count < buffer.len() {
        match named(rt, reader.read(&mut buffer[count..]), b"cannot read ", name) {
            Ok(0) => break,
            Ok(more) => count += more,
            Err(why) => return Err(Unread { count, why }),
        }
    }
    Ok(&buffer[..count])
}

// A name as a path, which is text.
fn path_of(name: &[u8]) -> io::Result<&str> {
    str::from_utf8(name).map_err(|_| io::Error::from(ErrorKind::InvalidFilename))
}

// Opens a file to be read.
fn open(rt: &HostRuntime, name: &[u8]) -> io::Result<File> {
    File::open(rt, path_of(name)?)
}

// What a file begins with, as much as the buffer takes. A missing file counts as empty.
pub fn read_file<'a>(
    rt: &HostRuntime,
    path: &[u8],
    buffer: &'a mut [u8],
) -> Result<&'a [u8], Unread>
    ensures read { IfOk result (λ read. length read.now ≤ length buffer.old) }
    ensures unread { IfErr result (λ unread. unread.count ≤ length buffer.old) }
{
    match open(rt, path) {
        Ok(mut file) => fill(rt, &mut file, path, buffer),
        Err(error) if error.kind() == ErrorKind::NotFound => Ok(&buffer[..0]),
        Err(error) => {
            let why = complain(rt, b"cannot open ", path, error);
            Err(Unread { count: 0, why })
        }
    }
}

// No program takes a longer text: one that is cut off could be another net.
pub const LONGEST_TEXT: usize = 1000000;

// A text file. A missing file counts as empty; a file that is too long is named.
pub fn read_text_file<'a>(
    rt: &HostRuntime,
    path: &[u8],
    buffer: &'a mut [u8; LONGEST_TEXT + 1],
) -> Result<&'a [u8], Unread>
    ensures read { IfOk result (λ text. length text.now ≤ LONGEST_TEXT) }
    ensures unread { IfErr result (λ unread. unread.count ≤ LONGEST_TEXT + 1) }
{
    let text = read_file(rt, path, buffer)?;
    if text.len() > LONGEST_TEXT {
        say(rt, path);
        say(rt, b" is longer than 1000000 bytes\n");
        return Err(Unread {
            count: text.len(),
            why: Failure::TooLong,
        });
    }
    Ok(text)
}

// Fills the buffer from standard input.
pub fn read_exact(rt: &HostRuntime, buffer: &mut [u8]) -> Result<(), Failure> {
    let room = buffer.len();
    let read = fill(rt, &mut rt.stdin(), b"standard input", buffer)?;
    if read.len() < room {
        return Err(Failure::Short);
    }
    Ok(())
}

// What comes next on standard input: its length in two bytes, lower first, then its bytes.
pub fn read_next<'a>(rt: &HostRuntime, buffer: &'a mut [u8]) -> Result<&'a [u8], Unread>
    ensures read { IfOk result (λ read. length read.now ≤ length buffer.old) }
    ensures unread { IfErr result (λ unread. unread.count ≤ length buffer.old) }
{
    let mut head = [0u8; 2];
    read_exact(rt, &mut head).map_err(|why| Unread { count: 0, why })?;
    let count = u16::from_le_bytes(head) as usize;
    if count > buffer.len() {
        return Err(Unread {
            count: 0,
            why: Failure::Short,
        });
    }
    read_exact(rt, &mut buffer[..count]).map_err(|why| Unread { count, why })?;
    Ok(&buffer[..count])
}

// Takes turns until one fails, as at the end of the input. A proved loop has to end, and nothing says that the input does:
// no run uses up these turns.
pub fn take_turns<F: Fn(&HostRuntime) -> Result<(), Failure>>(rt: &HostRuntime, turn: F)
    requires { F.IsAlwaysCallable turn }
{
    for _ in 0..u64::MAX {
        if turn(rt).is_err() {
            break;
        }
    }
}

// Prints bytes.
pub fn print(rt: &HostRuntime, bytes: &[u8]) -> Result<(), Failure> {
    named(
        rt,
        rt.stdout().write_all(bytes),
        b"cannot write ",
        b"standard output",
    )
}

// Prints the first n bytes of a buffer.
pub fn print_first(rt: &HostRuntime, buffer: &[u8], n: usize) -> Result<(), Failure> {
    print(rt, buffer.get(..n).ok_or(Failure::Short)?)
}

// Writes bytes to a file as far as the device.
fn write_out(file: &mut File, bytes: &[u8]) -> io::Result<()> {
    file.write_all(bytes)?;
    file.sync_all()
}

// Makes a file with these bytes, where there is none of that name.
fn make_new(rt: &HostRuntime, path: &str, bytes: &[u8]) -> Result<(), Failure> {
    let name = path.as_bytes();
    let made = OpenOptions::new()
        .write(true)
        .create_new(true)
        .open(rt, path);
    let mut file = named(rt, made, b"cannot make ", name)?;
    named(rt, write_out(&mut file, bytes), b"cannot write ", name)
}

// Makes a file with these bytes, where one of that name may be left from before, and gives it the name of another, which it
// replaces.
fn put_in_place(
    rt: &HostRuntime,
    path: &str,
    meanwhile: &str,
    bytes: &[u8],
) -> Result<(), Failure> {
    let _ = fs::remove_file(rt, meanwhile);
    make_new(rt, meanwhile, bytes)?;
    named(
        rt,
        fs::rename(rt, meanwhile, path),
        b"cannot replace ",
        path.as_bytes(),
    )
}

// Writes a file whole, by another name that it has meanwhile. Where that fails, the file is as it was.
pub fn replace_file(
    rt: &HostRuntime,
    path: &[u8],
    meanwhile: &[u8],
    bytes: &[u8],
) -> Result<(), Failure> {
    let place = named(rt, path_of(path), b"cannot replace ", path)?;
    let made = named(rt, path_of(meanwhile), b"cannot make ", meanwhile)?;
    let done = put_in_place(rt, place, made, bytes);
    if done.is_err() {
        let _ = fs::remove_file(rt, made);
    }
    done
}
