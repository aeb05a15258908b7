//! The ways in which a run of the program ends.

ghost use Rattle.std.specs.Prelude.{◌≡◌, Some};
ghost use Rattle.mirconst_input.specs.Statuses.{row_text};

use std::alloc::AllocError;
use std::fmt;
use world::{NoMemory, Text};
use world_check::{CheckRow, InvalidWorld};

/// How a run of the program ends.
#[derive(PartialEq, Eq, Debug, Drop)]
pub enum Status {
    /// Every goal, a definition to be evaluated as a constant, has a value.
    Values,
    /// Some goal has an error in place of a value.
    Errors,
    /// The arguments of the program are no command.
    BadWords,
    /// The input is not JSON.
    NotJson,
    /// The input is JSON that stands for no world with these goals; with the path of the first part that is
    /// wrong.
    NotAWorld(Text),
    /// The world of the input fails the check of its conditions; with the first one and its place.
    BadWorld(InvalidWorld),
    /// The input is too long.
    TooLong,
    /// A read failed.
    ReadFault,
    /// A write failed.
    WriteFault,
    /// There was no memory.
    NoMemory,
}

/// The name of a condition in the check of a world.
fn row_text(row: CheckRow) -> &'static str
    ensures { result.now ≡ row_text row }
{
    match row {
        CheckRow::C1 => "C1",
        CheckRow::C2 => "C2",
        CheckRow::C3 => "C3",
        CheckRow::C4 => "C4",
        CheckRow::C5 => "C5",
        CheckRow::C6 => "C6",
        CheckRow::C7 => "C7",
    }
}

impl Status {
    ghost use Rattle.mirconst_input.specs.Statuses.{code_of, line_of};

    /// The exit code of the program.
    pub fn code(&self) -> u8
        ensures { result ≡ code_of self.now }
    {
        match self {
            Status::Values => 0,
            Status::Errors => 1,
            Status::BadWords => 2,
            Status::NotJson => 3,
            Status::NotAWorld(_) => 4,
            Status::BadWorld(_) => 5,
            Status::TooLong => 6,
            Status::ReadFault => 7,
            Status::WriteFault => 8,
            Status::NoMemory => 9,
        }
    }
}

impl From<NoMemory> for Status {
    ghost use Rattle.mirconst_input.specs.declared.status.Status.TheVariants as status;

    ghost from_gives = { λ _ error. error ≡ status.NoMemory };

    fn from(_error: NoMemory) -> Status {
        Status::NoMemory
    }
}

impl From<AllocError> for Status {
    ghost use Rattle.mirconst_input.specs.declared.status.Status.TheVariants as status;

    ghost from_gives = { λ _ error. error ≡ status.NoMemory };

    fn from(_error: AllocError) -> Status {
        Status::NoMemory
    }
}

/// The line that the program prints for the way in which a run ends; empty if the results of all goals were
/// written.
impl fmt::Display for Status {
    ghost use Rattle.mirconst_input.specs.Statuses.{line_of};

    ghost output = { λ status. Some (line_of status) };

    fn fmt<W: fmt::Write>(&self, f: &mut fmt::Formatter<W>) -> fmt::Result {
        match self {
            Status::Values => Ok(()),
            Status::Errors => Ok(()),
            Status::BadWords => {
                f.write_str(
                    "usage: mirconst [eval [--blocks N] [--nesting N] [--bytes N] | make N]",
                )
            }
            Status::NotJson => f.write_str("mirconst: input is not JSON"),
            Status::NotAWorld(path) => {
                let path = path.as_str();
                write!(f, "mirconst: not a world: {path}")
            }
            Status::BadWorld(invalid) => {
                let row = row_text(invalid.row);
                let place = invalid.place.as_str();
                write!(f, "mirconst: world fails {row} at {place}")
            }
            Status::TooLong => f.write_str("mirconst: input is longer than 67108864 bytes"),
            Status::ReadFault => f.write_str("mirconst: read fault"),
            Status::WriteFault => f.write_str("mirconst: write fault"),
            Status::NoMemory => f.write_str("mirconst: no memory"),
        }
    }
}
