//! Laws of the size of a problem.

ghost use Rattle.question.specs.SizeLaws.{SizesAreUnique, SmallCubesAreSmall};
ghost use Rattle.question.specs.SizesFall.{SizesFall};

/// A log and the nodes of a formula have one size.
pub fn sizes_are_unique()
    ensures unique { SizesAreUnique }
{}

/// Where the number of until and since nodes times the cube of the number of rows is at most 262,144, the size isn't above
/// the limit.
pub fn small_cubes_are_small()
    ensures small { SmallCubesAreSmall }
{}

/// The size of the problem of a log isn't above that of one that has as many rows and admits each timing that it admits.
pub fn sizes_fall()
    ensures fall { SizesFall }
{}
