//! Exit statuses.

/// The exit status of a command that was done.
pub const DONE: u8 = 0;

/// The exit status of a refusal.
pub const REFUSED: u8 = 1;

/// The exit status of a command line that is no command.
pub const COMMAND_LINE: u8 = 2;

/// The exit status of a file that can't be read or written.
pub const FILE: u8 = 3;
