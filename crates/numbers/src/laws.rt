//! Laws of numbers as bytes and of the table of operators.

ghost use Rattle.numbers.specs.Laws.{
  LowBytesHaveLength,
  LowBytesAreBytes,
  HeldNumbersRoundTrip,
  ComparisonsTakeOneByte,
  ResultsKeepTheWidth,
};

/// A number's low bytes are as many as were asked for.
pub fn low_bytes_have_length()
    ensures { LowBytesHaveLength }
{}

/// Each of a number's low bytes is below 256.
pub fn low_bytes_are_bytes()
    ensures { LowBytesAreBytes }
{}

/// The low bytes of a number that a type holds are that number.
pub fn held_numbers_round_trip()
    ensures { HeldNumbersRoundTrip }
{}

/// The result of a comparison is one byte.
pub fn comparisons_take_one_byte()
    ensures { ComparisonsTakeOneByte }
{}

/// Any other result has as many bytes as the left operand.
pub fn results_keep_the_width()
    ensures { ResultsKeepTheWidth }
{}
