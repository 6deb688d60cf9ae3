//! Names in lines and in words: a byte that isn't printed bare is `%` and two hexadecimal digits.
#![tactic(auto)]

mod names;
mod spelled;

pub use names::{escaped, put_escaped};
pub use spelled::unescaped;
