// What keeps a program from its answer, and how that is told.
use std::fmt::InlineText;
use std::{fmt, io};

#[derive(Drop)]
pub enum Trouble<'a> {
    // what the program takes
    WrongUse(&'static str),
    CannotRead(&'a [u8], io::Error),
    CannotWrite(&'a [u8], io::Error),
    // what is not as it should be, what it should be, and its text
    Unlike(&'static str, &'static str, &'a [u8]),
}

// The words for an error, without the number that stands behind them.
#[derive(Drop)]
struct Reason(io::Error);

impl fmt::Display for Reason {
    fn fmt<W: fmt::Write>(&self, f: &mut fmt::Formatter<W>) -> fmt::Result {
        let text = InlineText::<128>::of(self.0);
        f.write_str(words(text.as_str()))
    }
}

fn words(error: &str) -> &str {
    error
        .split_once(" (os error ")
        .map_or(error, |(words, _)| words)
}

// Says that a program cannot do something to a file, and why.
fn cannot<E: Print>(err: &E, program: &str, action: &str, file: &[u8], error: io::Error) {
    let reason = Reason(error);
    let _ = print!(err; "{program}: cannot {action} ");
    let _ = err.write_all(file);
    let _ = println!(err; ": {reason}");
}

// Says what kept a program from its answer, if something did. What cannot be written is lost.
pub fn tell<E: Print>(err: &E, program: &str, ended: Result<(), Trouble<'_>>) {
    match ended {
        Ok(()) => {}
        Err(Trouble::WrongUse(words)) => {
            let _ = println!(err; "{program}: {words}");
        }
        Err(Trouble::CannotRead(file, error)) => cannot(err, program, "read", file, error),
        Err(Trouble::CannotWrite(file, error)) => cannot(err, program, "write", file, error),
        Err(Trouble::Unlike(what, wanted, text)) => {
            let _ = print!(err; "{program}: {what} {wanted}: ");
            let _ = err.write_all(text);
            let _ = println!(err; "");
        }
    }
}
