//! What holds of places.
ghost use Rattle.mk_dirs.specs.PlaceLaws.{WithoutDirectories};

/// Where no directory is searched, the place of a name is the name itself, or there is none.
pub fn without_directories_names_stand_for_themselves()
    ensures { WithoutDirectories }
{}
