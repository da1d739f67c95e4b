//! What holds of units, whoever runs them.

ghost use Rattle.vet_units.specs.UnitLaws.{KeptFilesReadBack};

/// What is kept of a unit in a file is what is read of it for the units that import its package, where the file has the
/// text that was written to it.
pub fn kept_files_read_back()
    ensures { KeptFilesReadBack }
{}
