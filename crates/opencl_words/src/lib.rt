//! Words and bytes of OpenCL C that the language lacks, each with a text that says what to write in its place. The
//! tables are the definition: a word is lacking where a row has it, and its hint is the text of that row; the contracts
//! say exactly which hint comes where no row fits. The crate knows bytes alone, and neither tokens nor faults.
#![tactic(auto)]

mod bytes;
mod said;
mod spelling;
mod words;

pub use bytes::byte_hint;
pub use said::{first_said, is_one_of, said_or};
pub use spelling::word_at;
pub use words::{
    NO_FLOATS, NO_STRUCTS, UNDECLARED, argument_hint, function_hint, is_built_in, value_hint,
    word_hint,
};
