//! What readings are by.
ghost use Rattle.mk_reader.specs.OnMaps.{ReadsTheMap};

/// A reading all of whose commands were answered, and changed no file that stood at its beginning,
/// is that of the map of files at its beginning: by the words, the environment and that map alone.
pub fn readings_of_maps()
    ensures { ReadsTheMap }
{}
