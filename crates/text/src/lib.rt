// Text: bytes into lines, lines into words and numbers, and numbers into text. It knows of no board and of no call.
#![tactic(auto)]

mod digits;
mod lines;
mod words;

pub use digits::{
    decimal_length, has_room, put, put_byte, put_bytes, put_decimal, put_text, put_word,
    without_zeros,
};
pub use lines::{LF, appended, line_end, without_cr};
pub use words::{
    Figure, SPACE, after_word, bytes, is_last, next_word, number, numbers, signed_number, word_end,
};
