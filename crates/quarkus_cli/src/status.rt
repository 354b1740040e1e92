//! The statuses that the program ends with.

/// The command was done.
pub const DONE: u8 = 0;

/// The words have none of the forms.
pub const REFUSED: u8 = 1;

/// The bytes of the file are no project.
pub const NO_PROJECT: u8 = 2;

/// The chain has a fault.
pub const NO_CHAIN: u8 = 3;

/// A step failed.
pub const STEP_FAILED: u8 = 4;

/// A file that is read isn't there, or can't be read.
pub const UNREADABLE: u8 = 6;

/// A file or the text couldn't be written.
pub const FAILED: u8 = 7;

/// Want of memory.
pub const NO_MEMORY: u8 = 8;

/// The bytes of a class file are no class.
pub const NO_CLASS: u8 = 9;
