//! Reading the whole input.

ghost use Rattle.std.specs.Prelude.{◌≡◌, ◌+◌, ◌<◌, ◌≤◌, [], Some, length, IfOk, IfErr, IfSome, OnOk};
ghost use Rattle.mirconst_input.specs.Input.{Moves, IsReadToEnd, Takes, TakesFew};
ghost use Rattle.mirconst_input.specs.Refusals.{IsOfRead, IsOfReading};
ghost use Rattle.mirconst_input.specs.Streams.{source_alone};

use crate::Status;
use std::alloc::{AllocError, Global};
use streams::Source;

/// The greatest length of the input, in bytes.
const MOST: usize = 67_108_864;

/// How many bytes are read at once.
const PIECE: usize = 65_536;

/// The buffer for the bytes of one read.
fn piece(alloc: Global) -> Result<Vec<u8>, AllocError>
    ensures { IfOk result (λ piece. length piece.items ≡ 65536) }
{
    vec![in alloc; 0u8; 65_536]
}

/// Reads some bytes from the source, adds them at the end of `bytes`, and returns how many.
#[tactic(auto, using(crate::proofs::Moving::piece_moves, crate::proofs::Moving::ends, crate::proofs::Moving::takes_piece, crate::proofs::Moving::takes_none))]
fn read_piece<S: Source>(src: &mut S, room: &mut [u8], bytes: &mut Vec<u8>) -> Result<usize, Status>
    requires { 0 < length room.old }
    ensures moves { OnOk result (Moves bytes.old.items (S.left src.old) bytes.new.items (S.left src.new)) }
    ensures grows { IfOk result (λ n. length bytes.new.items ≡ length bytes.old.items + n) }
    ensures fits { IfOk result (λ n. n ≤ length room.old) }
    ensures end { IfOk result (λ n. n ≡ 0 → IfSome (S.left src.new) (λ rest. rest ≡ [])) }
    ensures taken { Takes (length room.old) (S.left src.old) (S.left src.new) }
    ensures rising { S.faults src.old ≤ S.faults src.new }
    ensures refused { IfErr result (λ status. IsOfRead (S.faults src.old) (S.faults src.new) status) }
{
    let n = src.read(room).map_err(|_| Status::ReadFault)?;
    bytes.extend_from_slice(&room[..n])?;
    Ok(n)
}

/// Reads the input to its end, in pieces; never more than one byte above its greatest length.
#[tactic(auto, using(crate::proofs::Moving::read_to_end, crate::proofs::Moving::takes_few, crate::proofs::Moving::takes_more, crate::proofs::Moving::too_long, crate::proofs::Refusing::read_refused))]
pub fn read_input<S: Source>(alloc: Global, src: &mut S) -> Result<Vec<u8>, Status>
    ensures end { IfOk result (λ bytes. IsReadToEnd (S.left src.old) (S.left src.new) bytes.items) }
    ensures few { TakesFew (S.left src.old) (S.left src.new) }
    ensures refused { IfErr result (λ status. IsOfReading (source_alone (S.left src.old) (S.faults src.old)) (source_alone (S.left src.new) (S.faults src.new)) status) }
{
    let mut bytes = Vec::new(alloc);
    let mut room = piece(alloc)?;
    while bytes.len() <= MOST {
        let want = PIECE.min(MOST + 1 - bytes.len());
        let n = read_piece(src, &mut room[..want], &mut bytes)?;
        if n == 0 {
            return Ok(bytes);
        }
    }
    Err(Status::TooLong)
}
