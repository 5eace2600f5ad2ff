//! What the arguments of a program ask for.
ghost use Rattle.std.specs.Prelude.{◌≡◌};
ghost use Rattle.wit_streams.specs.Asked.{asked_by};

use std::env::{Env, FillError};

/// What a call of a program asks for.
#[derive(Clone, Copy, Debug, PartialEq, Eq)]
pub enum Asked {
    /// There are no arguments: the program does its work.
    Work,
    /// `--help`
    Help,
    /// `--version`
    Version,
    /// Other arguments, or more than one.
    Unknown,
}

impl Asked {
    /// What the arguments behind the program's name ask for. Contracts don't see the arguments of a program.
    pub fn by(rt: &impl Env) -> Asked {
        let mut word = [0u8; 16];
        let asked = match rt.arg(1, &mut word) {
            Err(FillError::NotPresent) => return Asked::Work,
            Err(FillError::TooLong) => return Asked::Unknown,
            Ok(length) => Asked::by_word(&word[..length]),
        };
        match rt.arg(2, &mut []) {
            Err(FillError::NotPresent) => asked,
            _ => Asked::Unknown,
        }
    }

    /// What one argument asks for.
    pub fn by_word(word: &[u8]) -> Asked
        ensures { result ≡ asked_by word.now }
    {
        if word == "--help".as_bytes() {
            Asked::Help
        } else if word == "--version".as_bytes() {
            Asked::Version
        } else {
            Asked::Unknown
        }
    }
}
