// The arguments of a program.
ghost use Rattle.std.specs.Prelude.{◌≡◌};
ghost use Rattle.files.specs.Number.{values_in};

use crate::decimal::{all_digits, to_values};
use std::env::FillError;
use std::marker::Model;
use std::rt::Env;

// How many bytes of an argument are read.
const MOST_BYTES: usize = 4096;

// The bytes of an argument; one that is longer than `MOST_BYTES` is read as empty.
#[derive(Drop)]
pub struct Argument {
    bytes: [u8; MOST_BYTES],
    length: usize,
}

impl Model for Argument {
    ghost use Rattle.std.specs.Prelude.{List, ℕ, ◌≤◌, take};
    ghost use Rattle.files.specs.declared.command.TheConstants.{MOST_BYTES};

    ghost Value = { List ℕ };

    ghost view = { λ a. take a.length a.bytes };

    ghost invariant = { λ a. a.length ≤ MOST_BYTES };
}

impl Argument {
    pub const EMPTY: Argument = Argument {
        bytes: [0; MOST_BYTES],
        length: 0,
    };

    // The argument at a place, if there is one; the name of the program is at 0.
    fn read<R: Env>(rt: &R, place: usize) -> Option<Argument> {
        let mut bytes = [0u8; MOST_BYTES];
        match rt.arg(place, &mut bytes) {
            Ok(length) => Some(Argument { bytes, length }),
            Err(FillError::TooLong) => Some(Argument::EMPTY),
            Err(FillError::NotPresent) => None,
        }
    }

    pub fn text(&self) -> &[u8]
        ensures { result.now ≡ self.now }
    {
        &self.bytes[..self.length]
    }

    // The values of its digits, a byte each, if it is digits and nothing else.
    pub fn values(&self) -> Option<Argument>
        ensures { result ≡ values_in self.now }
    {
        if !all_digits(self.text()) {
            return None;
        }
        let mut bytes = self.bytes;
        to_values(&mut bytes[..self.length]);
        Some(Argument {
            bytes,
            length: self.length,
        })
    }
}

// The arguments behind the program's name; at most seven, which is more than any program takes.
pub fn arguments<'a, R: Env>(rt: &R, read: &'a mut [Argument; 7]) -> &'a [Argument] {
    for (i, slot) in read.iter_mut().enumerate() {
        match Argument::read(rt, i + 1) {
            Some(argument) => *slot = argument,
            None => return &read[..i],
        }
    }
    read
}
