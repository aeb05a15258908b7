//! Writes a text to a sink.

ghost use Rattle.std.specs.Prelude.{◌≡◌, ◌++◌, option_map, OnOk, OnErr};
ghost use Rattle.mirconst_run.specs.Runs.{IsBegun};
ghost use Rattle.streams.specs.Faults.{HasCause};

use streams::{Failed, Sink};

/// Writes all the bytes to a sink, in as many calls of `write` as it takes.
#[tactic(auto, using(crate::proofs::Moving::all_written))]
pub(crate) fn write_whole<K: Sink>(out: &mut K, bytes: &[u8]) -> Result<(), Failed>
    ensures written { OnOk result (K.written out.new ≡ option_map (λ before. before ++ bytes.now) (K.written out.old)) }
    ensures begun { OnErr result (IsBegun bytes.now (K.written out.old) (K.written out.new)) }
    ensures cause { OnErr result (HasCause (K.faults out.old) (K.faults out.new)) }
{
    let mut done = 0;
    while done < bytes.len() {
        done += out.write(&bytes[done..])?;
    }
    Ok(())
}
