//! What holds of the log that a file's bytes are.

ghost use Rattle.log_read.specs.ValidLogs.{LogsArePlain, LogsAreValid, NoFileLacksMemory};

/// The log that a file's bytes are is valid.
pub fn logs_are_valid()
    ensures { LogsAreValid }
{}

/// The log that a file's bytes are can be stated by a file again: it has no greater skew, and no more extra bounds,
/// than a file may state.
pub fn logs_are_plain()
    ensures { LogsArePlain }
{}

/// Want of memory is no fault of a file.
pub fn no_file_lacks_memory()
    ensures { NoFileLacksMemory }
{}
