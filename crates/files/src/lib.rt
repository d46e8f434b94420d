// The files and the arguments of the programs: a file is read to its end or not at all, and written whole or not; what cannot be is said on
// standard error, and why. A program's `rt` has its files and arguments.
#![tactic(auto)]

mod command;
mod decimal;
mod long;
mod refusal;
mod trouble;

ghost use Rattle.std.specs.Prelude.{◌≡◌, ◌≤◌, length, take};
ghost use Rattle.std.specs.Result.{result_ok};
ghost use Rattle.records.specs.Plan.{front_of};
ghost use Rattle.files.specs.Number.{number_in, values_in, reserve_in};
ghost use Rattle.std.specs.Io.{ReadsAtMost};

pub use command::{Argument, arguments};
use decimal::number_in;
use long::plan_front;
pub use long::stand_in;
pub use refusal::refused;
use std::fs::OpenFile;
use std::io::{ErrorKind, Read, Write};
use std::rt::Files;
use std::{fs, io, str};
pub use trouble::{Trouble, tell};

// How many bytes of a file are kept. A cluster record has at most 65,535: one more is too long, whatever follows it.
pub const MOST_KEPT: usize = 65536;

// The first bytes of a file.
pub type Buffer = [u8; MOST_KEPT];

// Of a plan file the size matters up to what a record can state, which is one less than 2^32: so many bytes past the buffer are counted.
const MOST_PAST: u64 = (1 << 32) - 65536;

// Reads the first bytes, as many as there are or as the buffer holds, and tells how many.
fn fill<F: Read>(file: &mut F, buffer: &mut [u8]) -> io::Result<usize>
    ensures { ReadsAtMost result buffer.new }
{
    let mut size: usize = 0;
    for _ in 0..buffer.len() {
        let n = file.read(&mut buffer[size..])?;
        size += n;
        // A full buffer is not read into again: not every source takes a read of no bytes.
        if n == 0 || size == buffer.len() {
            break;
        }
    }
    Ok(size)
}

// The same, but what goes past the buffer counts too, and is not kept.
fn fill_and_count<F: Read>(file: &mut F, buffer: &mut Buffer) -> io::Result<usize> {
    let size = fill(file, buffer)?;
    if size < buffer.len() {
        return Ok(size);
    }
    let past = io::copy(&mut file.take(MOST_PAST), &mut io::sink())?;
    Ok(size.saturating_add(usize::try_from(past).unwrap_or(usize::MAX)))
}

// A path as text; one that is none names no file here.
fn path_text(path: &[u8]) -> io::Result<&str> {
    str::from_utf8(path).map_err(|_| io::Error::from(ErrorKind::InvalidFilename))
}

// Opens the file at a path and reads it.
fn read_cluster<R: Files>(rt: &R, path: &[u8], buffer: &mut Buffer) -> io::Result<usize> {
    let mut file = fs::open(rt, path_text(path)?)?;
    fill(&mut file, buffer)
}

fn read_plan<R: Files>(rt: &R, path: &[u8], buffer: &mut Buffer) -> io::Result<usize> {
    let mut file = fs::open(rt, path_text(path)?)?;
    fill_and_count(&mut file, buffer)
}

// So many bytes of a buffer, or all that it has.
pub fn front(buffer: &[u8], n: usize) -> &[u8]
    ensures { result.now ≡ take n buffer.now }
{
    &buffer[..n.min(buffer.len())]
}

// The cluster record in the file that an argument names.
fn load_cluster<'a, 'b, R: Files>(
    rt: &R,
    file: &'a Argument,
    buffer: &'b mut Buffer,
) -> Result<&'b [u8], Trouble<'a>> {
    let path = file.text();
    let size = read_cluster(rt, path, buffer).map_err(|e| Trouble::CannotRead(path, e))?;
    Ok(front(buffer, size))
}

// The cluster record on standard input.
pub fn take_cluster<'b, R: Input>(
    rt: &R,
    buffer: &'b mut Buffer,
) -> Result<&'b [u8], Trouble<'static>> {
    let size = fill(&mut rt.reader(), buffer).map_err(|e| Trouble::CannotRead(
        b"standard input",
        e,
    ))?;
    Ok(front(buffer, size))
}

// The plan record in a file, or what is lent in place of one that is longer than any plan.
fn load_plan<'a, 'b, R: Files>(
    rt: &R,
    file: &'a Argument,
    buffer: &'b mut Buffer,
) -> Result<&'b [u8], Trouble<'a>> {
    let path = file.text();
    let size = read_plan(rt, path, buffer).map_err(|e| Trouble::CannotRead(path, e))?;
    Ok(plan_front(buffer, size))
}

// Both records, each in its buffer.
pub fn load<'a, 'b, R: Files>(
    rt: &R,
    cluster: &'a Argument,
    plan: &'a Argument,
    first: &'b mut Buffer,
    second: &'b mut Buffer,
) -> Result<(&'b [u8], &'b [u8]), Trouble<'a>> {
    let cluster = load_cluster(rt, cluster, first)?;
    let plan = load_plan(rt, plan, second)?;
    Ok((cluster, plan))
}

// The plan record at a buffer's front, as long as it says it is.
#[tactic(auto, unfolding(records::specs::Plan::front_of))]
pub fn record(buffer: &[u8]) -> &[u8]
    ensures { 7 ≤ length buffer.now → result.now ≡ front_of buffer.now }
{
    if records::FIRST_STEP <= buffer.len() {
        front(buffer, records::stated_length(buffer))
    } else {
        buffer
    }
}

// Brings a file's bytes to the disk. A file system that cannot be asked to is taken for one that has nothing left to do.
fn sync<F: OpenFile>(file: &F) -> io::Result<()> {
    match file.sync_all() {
        Err(error) if error.kind() != ErrorKind::InvalidInput => Err(error),
        _ => Ok(()),
    }
}

// Writes bytes to an open file. Those of a regular one are brought to the disk too, since closing a file tells no error.
fn write_closed<F: Write + OpenFile>(file: &mut F, bytes: &[u8]) -> io::Result<()> {
    file.write_all(bytes)?;
    if file.metadata()?.is_file() {
        sync(file)?;
    }
    Ok(())
}

// Opens the file at a path and writes bytes to it.
fn write_file<R: Files>(rt: &R, path: &[u8], bytes: &[u8]) -> io::Result<()> {
    let mut file = fs::create(rt, path_text(path)?)?;
    write_closed(&mut file, bytes)
}

// Writes bytes to a file.
pub fn save<'a, R: Files>(rt: &R, file: &'a Argument, bytes: &[u8]) -> Result<(), Trouble<'a>> {
    let path = file.text();
    write_file(rt, path, bytes).map_err(|e| Trouble::CannotWrite(path, e))
}

// The number that an argument is, which is called so.
pub fn number<'a>(what: &'static str, argument: &'a Argument) -> Result<u64, Trouble<'a>>
    ensures { result_ok result ≡ number_in argument.now }
{
    let text = argument.text();
    number_in(text).ok_or(Trouble::Unlike(what, "is not a number in digits", text))
}

// The reserve, if the last arguments are one; 0 if there are none.
pub fn reserve<'a>(arguments: &'a [Argument], usage: &'static str) -> Result<u64, Trouble<'a>>
    ensures { result_ok result ≡ reserve_in arguments.now }
{
    match arguments {
        [] => Ok(0),
        [percent] => number("the reserve", percent),
        _ => Err(Trouble::WrongUse(usage)),
    }
}

// The values of the digits that an argument is, which is called so.
pub fn digits<'a>(what: &'static str, argument: &'a Argument) -> Result<Argument, Trouble<'a>>
    ensures { result_ok result ≡ values_in argument.now }
{
    argument.values().ok_or(Trouble::Unlike(what, "are not all digits", argument.text()))
}
