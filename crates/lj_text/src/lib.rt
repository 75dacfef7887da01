//! Text: all bytes of a source, lines, tokens, numbers, and output.
#![tactic(auto)]

mod fields;
mod input;
mod laws;
mod lines;
mod numbers;
mod output;
mod tokens;
mod words;

pub use fields::{
    cut_back, put, put_field, put_joined, put_named, put_number, put_number_field,
    put_number_fields,
};
pub use input::{PIECE, ReadFail, read_all};
pub use laws::{
    decimal_law, fields_law, line_numbers_law, line_order_law, lines_law, number_line_law,
    tokens_law, words_law,
};
pub use lines::{Line, Lines, after_line};
pub use numbers::{NotNumber, number};
pub use output::{WriteFault, write_all};
pub use tokens::{Token, Tokens};
pub use words::Words;
