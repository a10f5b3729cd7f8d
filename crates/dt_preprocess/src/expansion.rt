//! Calls of macros and what they come to (C11, 6.10.3; hide sets by Prosser).

pub(crate) mod arguments;
pub(crate) mod frame;
pub(crate) mod machine;
pub(crate) mod pasting;
pub(crate) mod source;
pub(crate) mod spelling;
pub(crate) mod substitution;
