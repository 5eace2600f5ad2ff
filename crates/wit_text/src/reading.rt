//! From the tokens of a file to what it says.

mod cursor;
mod file;
mod function;
mod gate;
mod lexeme;
mod name;
mod path;
mod statement;
mod types;
mod version;

pub use file::read_file;
