//! How far an extent has come.
ghost use Rattle.std.specs.Prelude.{◌≡◌, ◌↔◌, Some, IsTrue, slice_get};

/// An extent is claimed by a pass, and then published at a place of the history.
#[derive(Clone, Copy)]
pub enum Standing {
    Free,
    Claimed(u32),
    Published(u32),
}

const _: () = prove!(size_of::<Standing>() == 8);

pub fn is_free(standings: &[Standing], extent: u32) -> bool
    ensures { IsTrue result ↔ (slice_get standings.now extent ≡ Some Standing.Free) }
{
    match standings.get(extent as usize) {
        Some(Standing::Free) => true,
        _ => false,
    }
}

pub fn is_held(standings: &[Standing], extent: u32, claimant: u32) -> bool
    ensures { IsTrue result ↔ (slice_get standings.now extent ≡ Some (Standing.Claimed claimant)) }
{
    match standings.get(extent as usize) {
        Some(Standing::Claimed(by)) => *by == claimant,
        _ => false,
    }
}
