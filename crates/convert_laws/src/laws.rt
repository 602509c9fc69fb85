//! What a conversion leaves, as the contracts of functions that do nothing.
ghost use Rattle.convert_laws.specs.Conversions.{ConversionsConvert, LeftIsTakenAgain};
ghost use Rattle.convert_laws.specs.Example.{ExampleOldFiles};
ghost use Rattle.convert_laws.specs.Orders.{FirstWritesPlace};

/// Free labels, and then the leaders, each on the lowest sector that is free.
pub fn first_writes_place()
    ensures { FirstWritesPlace }
{}

/// The writes of a conversion make a sound volume with the same files, and in each crash state before
/// the last of them root and old files are as they were.
pub fn conversions_convert()
    ensures { ConversionsConvert }
{}

/// A volume that was left in the middle of a conversion is taken again, and becomes the same.
pub fn left_is_taken_again()
    ensures { LeftIsTakenAgain }
{}

/// The files of an old volume that is written out sector by sector, the sectors that they need, and
/// the first writes of its conversion.
pub fn example_old_files()
    ensures { ExampleOldFiles }
{}
