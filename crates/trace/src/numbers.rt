//! Little-endian numbers at a place of a slice. What lies past the end reads 0: the decoder looks at a record's length first.
ghost use Rattle.std.specs.Prelude.{◌≡◌, ◌+◌, ◌<◌, ◌^◌};
ghost use Rattle.trace.specs.Format.{code_at, bytes_at, u16_at, u32_at, u64_at, id_at, maybe_seq, maybe_duration};

use types::ids::{ALL_ONES, SeqNum, SessionId};

/// Length, kind, instant and stamp: a body starts after them.
pub const HEADER: usize = 20;

/// The byte at a place.
pub fn byte_at(s: &[u8], at: usize) -> u8
    ensures { result ≡ code_at s.now at }
{
    s.get(at).copied().unwrap_or(0)
}

/// The `N` bytes from a place on.
pub fn bytes_at<const N: usize>(s: &[u8], at: usize) -> [u8; N]
    requires { at + N < 2 ^ 64 }
    ensures { result ≡ bytes_at N s.now at }
{
    let mut bytes = [0; N];
    for (i, byte) in bytes.iter_mut().enumerate() {
        *byte = byte_at(s, at + i);
    }
    bytes
}

/// Two bytes, the lowest first.
#[tactic(auto, unfolding(crate::specs::Format::bytes_at, crate::specs::Format::number_at))]
pub fn u16_at(s: &[u8], at: usize) -> u16
    requires { at + 2 < 2 ^ 64 }
    ensures { result ≡ u16_at s.now at }
{
    u16::from_le_bytes(bytes_at(s, at))
}

/// Four bytes, the lowest first.
#[tactic(auto, unfolding(crate::specs::Format::bytes_at, crate::specs::Format::number_at))]
pub fn u32_at(s: &[u8], at: usize) -> u32
    requires { at + 4 < 2 ^ 64 }
    ensures { result ≡ u32_at s.now at }
{
    u32::from_le_bytes(bytes_at(s, at))
}

/// Eight bytes, the lowest first.
#[tactic(auto, unfolding(crate::specs::Format::bytes_at, crate::specs::Format::number_at))]
pub fn u64_at(s: &[u8], at: usize) -> u64
    requires { at + 8 < 2 ^ 64 }
    ensures { result ≡ u64_at s.now at }
{
    u64::from_le_bytes(bytes_at(s, at))
}

/// The 16 bytes of an id.
pub fn id_at(s: &[u8], at: usize) -> SessionId
    requires { at + 16 < 2 ^ 64 }
    ensures { result ≡ id_at s.now at }
{
    SessionId(u64_at(s, at), u64_at(s, at + 8))
}

/// A number of which all ones means absent (01: bind's next, FinishedSending's last).
#[tactic(auto, unfolding(crate::specs::Format::maybe_seq))]
pub fn maybe_seq(n: u64) -> Option<SeqNum>
    ensures { result ≡ maybe_seq n }
{
    if n == ALL_ONES { None } else { Some(SeqNum(n)) }
}

/// A duration of which all ones means absent (01: open's grace).
#[tactic(auto, unfolding(crate::specs::Format::maybe_duration))]
pub fn maybe_duration(n: u64) -> Option<u64>
    ensures { result ≡ maybe_duration n }
{
    if n == ALL_ONES { None } else { Some(n) }
}
