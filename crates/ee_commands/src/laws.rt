//! What holds of every part for which sizes were told. Each function does nothing: its
//! contract is the law.
ghost use Rattle.ee_commands.specs.ToldSizes.{EachSizeIsMadeAsTold, EachSizeMovesAsTold, EachSizeWearsAsTold};

/// Where `size_parts` told sizes for a script that is made so many times, and calls of a store that
/// was just formatted ask for its changes so many times, one by one and without a cut, no page is
/// erased more often than the line of the store's size says, whatever the calls are answered.
pub fn each_size_wears_as_told()
    ensures { EachSizeWearsAsTold }
{}

/// Where the calls make those changes, and no others, they move the map just as
/// often as that line says.
pub fn each_size_moves_as_told()
    ensures { EachSizeMovesAsTold }
{}

/// A store that is asked for those changes makes all of them, by as many transfers as that line
/// says, where the line doesn't say that the generations are used up, each forgetting is of an
/// address that has a value, power is on, and memory is found.
pub fn each_size_is_made_as_told()
    ensures { EachSizeIsMadeAsTold }
{}
