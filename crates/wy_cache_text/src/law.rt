//! There is one reading of a cache file, and what is written is read again. The functions here do nothing when they run.
ghost use Rattle.wy_cache_text.specs.Files.{OneReading};
ghost use Rattle.wy_cache_text.specs.Reread.{ReadsWhatIsWritten};

/// Bytes are read as these entries, and as no others.
pub fn one_reading()
    ensures once { OneReading }
{}

/// A file is read as the entries that were written into it.
pub fn written_files_are_read()
    ensures read { ReadsWhatIsWritten }
{}
