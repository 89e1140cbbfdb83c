//! What holds of the variants of every file.
ghost use Rattle.network_variants.specs.Variants.{EachCombinationOnce};

/// The values of the variant of a number read as that number on an odometer, on which each value counts for as many variants as its change
/// keeps it. So each combination of values is that of one variant.
pub fn each_combination_once()
    ensures { EachCombinationOnce }
{}
