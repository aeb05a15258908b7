use mir::ConstEvalError;
use mir_eval::MirOutput;
use world::Const;

/// The answer to a definition.
#[derive(Drop)]
pub struct Evaluated {
    /// The value, or why there is none.
    pub result: Result<Const, ConstEvalError>,
    /// What the run wrote.
    pub output: MirOutput,
    /// How many blocks the run entered; 0 where no run began.
    pub turns: u64,
}
