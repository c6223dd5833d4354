//! What trimming keeps.

ghost use Rattle.proof_trim.specs.Laws.{RefutingCanBeTrimmed, TrimsKeepRefuting};

/// Lines that refute a value can be trimmed, and the lines that are left refute it too.
pub fn trims_keep_refuting()
    ensures refutes { TrimsKeepRefuting }
    ensures can { RefutingCanBeTrimmed }
{}
