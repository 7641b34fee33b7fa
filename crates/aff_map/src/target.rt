//! What an entry leads to.
ghost use Rattle.std.specs.Prelude.{◌≡◌};
ghost use Rattle.aff_map.specs.Symbol.{IsSymbolic, symbol_of};

const UNKNOWN: &[u8; 7] = b"UNKNOWN";

const UNREADABLE: &[u8; 14] = b"UNREADABLEDATA";

/// What an entry or a gap leads to: the stream of stored chunks, zeros, bytes that were not acquired, or
/// bytes that could not be read.
#[derive(Clone, Copy, Debug, PartialEq, Eq)]
pub enum Target {
    Stored,
    Zero,
    Unknown,
    Unreadable,
}

/// The byte at a place of a symbolic stream.
pub fn symbol(target: Target, at: u64) -> u8
    requires { IsSymbolic target }
    ensures { result ≡ symbol_of target at }
{
    match target {
        Target::Stored => unreachable!(),
        Target::Zero => 0,
        Target::Unknown => UNKNOWN[(at % 7) as usize],
        Target::Unreadable => UNREADABLE[(at % 14) as usize],
    }
}
