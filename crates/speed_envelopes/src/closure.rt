//! Laws of drives taken together, as the clauses of functions that do nothing.
ghost use Rattle.speed_envelopes.specs.Closure.{GreaterIsDrive, LesserIsDrive, GreaterIsNarrowDrive, LesserIsNarrowDrive, FasterIsSooner, FasterIsOnTime, GreatestIsOnTime, NarrowingsNest, DriveIsNarrowDrive, GreatestIsNarrow, NoDriveIsNarrow};

/// The pointwise greater and the pointwise lesser of two drives are drives, under a narrowing too.
pub fn drives_close()
    ensures greater { GreaterIsDrive }
    ensures lesser { LesserIsDrive }
    ensures narrow_greater { GreaterIsNarrowDrive }
    ensures narrow_lesser { LesserIsNarrowDrive }
{}

/// A drive that is nowhere slower arrives nowhere later, so it is on time where the slower one is. So some drive is on time
/// exactly where the greatest is.
pub fn faster_is_on_time()
    ensures sooner { FasterIsSooner }
    ensures on_time { FasterIsOnTime }
    ensures greatest { GreatestIsOnTime }
{}

/// A drive under a narrowing is one under each wider narrowing, and every drive is one under no narrowing.
pub fn narrowings_nest()
    ensures nest { NarrowingsNest }
    ensures drive { DriveIsNarrowDrive }
    ensures greatest { GreatestIsNarrow }
    ensures no_drive { NoDriveIsNarrow }
{}
