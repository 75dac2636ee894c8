// Reading a source to its end.
ghost use Rattle.std.specs.Prelude.{◌≡◌, ◌≢◌, ◌≤◌, ◌<◌, ◌+◌, length, IfOk, OnOk, IfErr, vec_len};
ghost use Rattle.std.specs.Io.KnownBytes.{Consumes, IsAtEnd};
ghost use Rattle.pyr_port.specs.Causes.{Rose};
ghost use Rattle.pyr_port.specs.Taking.{Grows, Loses};
ghost use Rattle.pyr_port.specs.declared.reading.ReadFault.TheVariants.{SourceFault, Memory};

use crate::{Failed, Source};
use std::alloc::{AllocError, Global};

/// Why a source wasn't read to its end.
#[derive(Clone, Copy, Debug, PartialEq, Eq)]
pub enum ReadFault {
    /// The source failed.
    SourceFault,
    /// More bytes were left than the limit.
    TooLong,
    /// Memory ran out.
    Memory,
}

impl From<Failed> for ReadFault {
    ghost from_gives = { λ _ fault. fault ≡ SourceFault };

    fn from(_: Failed) -> Self {
        ReadFault::SourceFault
    }
}

impl From<AllocError> for ReadFault {
    ghost from_gives = { λ _ fault. fault ≡ Memory };

    fn from(_: AllocError) -> Self {
        ReadFault::Memory
    }
}

// The most bytes that one call asks for.
const PIECE: usize = 65_536;

/// All the bytes that are left, read to the end, where they are at most `limit`. After a refusal the
/// source has lost a prefix of them: `limit + 1` bytes where they are too long, else at most `limit`.
/// It takes memory for one piece and for what it reads, which grows by doubling.
pub fn read_all<S: Source>(
    alloc: Global,
    source: &mut S,
    limit: usize,
) -> Result<Vec<u8>, ReadFault>
    ensures bytes { IfOk result (λ bytes.
        Consumes (S.left source.old) (S.left source.new) bytes.items) }
    ensures end { OnOk result (IsAtEnd (S.left source.new)) }
    ensures fits { IfOk result (λ bytes. vec_len bytes ≤ limit) }

    ensures too_long { result ≡ Err ReadFault.TooLong
        → Loses (S.left source.old) (S.left source.new) (λ count. count ≡ limit + 1) }
    ensures not_too_long { IfErr result (λ fault. fault ≢ ReadFault.TooLong
        → Loses (S.left source.old) (S.left source.new) (λ count. count ≤ limit)) }

    ensures failed { result ≡ Err ReadFault.SourceFault
        → Rose (S.faults source.old) (S.faults source.new) }
    ensures later { S.faults source.old ≤ S.faults source.new }
{
    let mut piece = vec![in alloc; 0; limit.saturating_add(1).min(PIECE)]?;
    let mut bytes = Vec::new(alloc);
    while take_piece(source, &mut piece, &mut bytes, limit)? > 0 {}
    Ok(bytes)
}

// One turn: moves some bytes by way of the piece to the end of `bytes`, and answers how many. It asks
// for one more than there is room for at most, which tells a text that is too long.
fn take_piece<S: Source>(
    source: &mut S,
    piece: &mut [u8],
    bytes: &mut Vec<u8>,
    limit: usize,
) -> Result<usize, ReadFault>
    requires some { 0 < length piece.old }
    requires room { vec_len bytes.old ≤ limit }
    ensures bytes { IfOk result (λ count.
        Grows (S.left source.old) (S.left source.new) bytes.old.items bytes.new.items count) }
    ensures end { IfOk result (λ count. count ≡ 0 → IsAtEnd (S.left source.new)) }
    ensures fits { OnOk result (vec_len bytes.new ≤ limit) }

    ensures too_long { result ≡ Err ReadFault.TooLong → Loses (S.left source.old)
        (S.left source.new) (λ count. vec_len bytes.old + count ≡ limit + 1) }
    ensures not_too_long { IfErr result (λ fault. fault ≢ ReadFault.TooLong → Loses
        (S.left source.old) (S.left source.new) (λ count. vec_len bytes.old + count ≤ limit)) }

    ensures failed { result ≡ Err ReadFault.SourceFault
        → Rose (S.faults source.old) (S.faults source.new) }
    ensures later { S.faults source.old ≤ S.faults source.new }
{
    let room = limit - bytes.len();
    let most = room.saturating_add(1).min(piece.len());
    let piece = &mut piece[..most];
    let count = source.take(piece)?;
    if count > room {
        return Err(ReadFault::TooLong);
    }
    bytes.extend_from_slice(&piece[..count])?;
    Ok(count)
}
