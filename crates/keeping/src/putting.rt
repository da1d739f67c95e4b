//! What is put into fields: a law.

ghost use Rattle.keeping.specs.PuttingFiles.{SkippedPutNothing};

/// A file that may be skipped puts no cancel function into a field, where each field is taken for one that keeps.
pub fn skipped_put_nothing()
    ensures { SkippedPutNothing }
{}
