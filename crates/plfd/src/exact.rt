//! The law of reading.
ghost use Rattle.plfd.specs.Exact.{ReadingIsExact};

/// Bytes are read as a formula exactly where they are its code, it is well formed over the settings, and its nodes fit.
pub fn reading_is_exact()
    ensures law { ReadingIsExact }
{}
