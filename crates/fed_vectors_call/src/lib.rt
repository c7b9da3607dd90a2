//! What every call of the vectors' program is made with: the arguments that a line gives, and the value that a call gives or why there is
//! none.
//!
//! - `arguments`: `Arguments`, what a call is given
//! - `made`: values, lists and objects that calls give
//! - `answer`: `Answer`, what a call comes to
#![tactic(auto)]

mod answer;
mod arguments;
mod made;

pub use answer::{Answer, Stop};
pub use arguments::{Arguments, LAST_MOMENT};
pub use made::{
    List, Object, again, copy, count, hex_of, list_of, null, number, text, text_of_bytes, truth,
};
