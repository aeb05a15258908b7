//! The laws of a memory.

ghost use Rattle.mir_mem.specs.MemoryLaws.{
  ReadsGiveWhatWasWritten,
  WritesKeepOtherBytes,
  WritesKeepLengths,
  CopiesGiveTheSource,
  CopiesKeepOtherBytes,
  CellsKeepOldBytes,
  BlocksKeepOldBytes,
  CellsAreNew,
  CellsAreApart,
  CellsAreApartFromOldBytes,
  BlocksAreNew,
  BlocksAreApartFromOldBytes,
  AddressesRoundTrip,
};

/// A read gives the bytes that were written last.
pub fn reads_give_what_was_written()
    ensures { ReadsGiveWhatWasWritten }
{}

/// A write changes no byte but those that it writes, and no length.
pub fn writes_keep_the_rest()
    ensures bytes { WritesKeepOtherBytes }
    ensures lengths { WritesKeepLengths }
{}

/// A copy leaves at its destination the bytes that its source had, and changes no others.
pub fn copies_give_the_source()
    ensures source { CopiesGiveTheSource }
    ensures others { CopiesKeepOtherBytes }
{}

/// A read gives the same bytes before and after the stack or the heap grows.
pub fn growth_keeps_old_bytes()
    ensures cells { CellsKeepOldBytes }
    ensures blocks { BlocksKeepOldBytes }
{}

/// New cells are zero and aligned.
pub fn cells_are_new()
    ensures { CellsAreNew }
{}

/// New cells share no byte with one another, and none with older bytes.
pub fn cells_are_apart()
    ensures new { CellsAreApart }
    ensures old { CellsAreApartFromOldBytes }
{}

/// New blocks are zero and aligned, and share no byte with older ones.
pub fn blocks_are_new()
    ensures new { BlocksAreNew }
    ensures old { BlocksAreApartFromOldBytes }
{}

/// The address of a byte, cast to an integer and back, is the same address.
pub fn addresses_round_trip()
    ensures { AddressesRoundTrip }
{}
