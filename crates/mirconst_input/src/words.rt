//! The command line, without the program's name.

ghost use Rattle.std.specs.Prelude.{◌≡◌};
ghost use Rattle.mirconst_input.specs.Words.{is_command};

/// Whether the arguments of the program are a command to evaluate the input: none, or `eval` alone.
pub fn is_command(words: &Vec<String>) -> bool
    ensures { result ≡ is_command words.now.items }
{
    match words.as_slice() {
        [] => true,
        [word] => word.as_str() == "eval",
        _ => false,
    }
}
