//! A URN.
ghost use Rattle.std.specs.Prelude.{◌≡◌, ◌≤◌, ◌↔◌, ◌++◌, codes, ℕ, Option, true, MatchOption, IfOk, OnOk, IsOkUnless, IsTrue, slice_get};
ghost use Rattle.aff_names.specs.Refused.{IsNameFault};
ghost use Rattle.aff_spec.specs.Names.{image_urn, stream_urn, volume_urn};
ghost use Rattle.aff_names.specs.Urn.{HasScheme, IsFirstBad, IsPath, IsUrn, may_be_at as spec_may_be_at};

use crate::{NameError, Uuid};
use aff_model::Memory;
use std::alloc::{AllocError, Global};
use std::marker::Model;

/// The text of a URN.
#[derive(Drop)]
pub struct Urn {
    text: String,
}

impl Model for Urn {
    ghost use Rattle.std.specs.Prelude.{ℕ, List};
    ghost use Rattle.std.specs.String.{string_bytes};
    ghost use Rattle.aff_names.specs.Urn.{IsUrn};

    ghost Value = { List ℕ };

    ghost view = { λ urn. string_bytes urn.text };

    ghost invariant = { λ urn. IsUrn (string_bytes urn.text) };
}

impl Urn {
    /// Reads a URN, which is the whole text. Each other text is refused: `NoScheme` goes before `BadUuid`.
    pub fn read(alloc: Global, text: &str) -> Result<Urn, NameError>
        ensures text { IfOk result (λ urn. urn ≡ text.now) }
        ensures urn { OnOk result (IsUrn text.now) }
        ensures taken { IsUrn text.now → IsOkUnless result NameError.Memory }
        ensures memory { result ≡ Err NameError.Memory → IsUrn text.now }

        ensures no_scheme { (result ≡ Err NameError.NoScheme) ↔ ¬ HasScheme text.now }
        ensures bad_uuid { (at : ℕ) → (result ≡ Err (NameError.BadUuid at)) ↔ (HasScheme text.now × IsFirstBad text.now at) }
    {
        if let Some(fault) = fault(text.as_bytes()) {
            return Err(fault);
        }
        let text = String::from_str(alloc, text)?;
        Ok(Urn { text })
    }

    /// The URN of the volume that a UUID names: `aff4://` and the UUID.
    pub fn of_volume(alloc: Global, volume: &Uuid) -> Result<Urn, Memory>
        ensures { IfOk result (λ urn. urn ≡ volume_urn volume.now) }
    {
        with_path(alloc, volume, "").map_err(|_| Memory)
    }

    /// The URN of a volume's stream: the volume's and `/data`.
    pub fn of_stream(alloc: Global, volume: &Uuid) -> Result<Urn, Memory>
        ensures { IfOk result (λ urn. urn ≡ stream_urn volume.now) }
    {
        with_path(alloc, volume, "/data").map_err(|_| Memory)
    }

    /// The URN of a volume's image: the volume's and `/image`.
    pub fn of_image(alloc: Global, volume: &Uuid) -> Result<Urn, Memory>
        ensures { IfOk result (λ urn. urn ≡ image_urn volume.now) }
    {
        with_path(alloc, volume, "/image").map_err(|_| Memory)
    }

    /// The same URN once more.
    pub fn try_clone(&self, alloc: Global) -> Result<Urn, Memory>
        ensures { IfOk result (λ urn. urn ≡ self.now) }
    {
        copied(alloc, self).map_err(|_| Memory)
    }

    /// The text as it was read.
    pub fn text(&self) -> &str
        ensures text { result.now ≡ self.now }
        ensures urn { IsUrn self.now }
    {
        self.text.as_str()
    }
}

// The URN of a volume's part by its path.
fn with_path(alloc: Global, volume: &Uuid, path: &str) -> Result<Urn, AllocError>
    requires { IsPath path.now }
    ensures { IfOk result (λ urn. urn ≡ codes "aff4://" ++ (volume.now ++ path.now)) }
{
    let uuid = volume.text();
    let text = format!(in alloc; "aff4://{uuid}{path}")?;
    Ok(Urn { text })
}

fn copied(alloc: Global, urn: &Urn) -> Result<Urn, AllocError>
    ensures { IfOk result (λ copy. copy ≡ urn.now) }
{
    let text = String::from_str(alloc, urn.text.as_str())?;
    Ok(Urn { text })
}

// What keeps bytes from being a URN.
fn fault(bytes: &[u8]) -> Option<NameError>
    ensures { MatchOption result (IsUrn bytes.now) (IsNameFault bytes.now) }
{
    if !bytes.starts_with(b"aff4://") {
        return Some(NameError::NoScheme);
    }
    let at = first_bad(bytes)?;
    Some(NameError::BadUuid(at))
}

// The first place behind the scheme at which bytes are not as a URN is.
fn first_bad(bytes: &[u8]) -> Option<u64>
    ensures { MatchOption result ((k : ℕ) → 7 ≤ k → k ≤ 43 → spec_may_be_at k (slice_get bytes.now k) ≡ true) (IsFirstBad bytes.now) }
{
    for at in 7..44 {
        if !may_be_at(at, bytes.get(at).copied()) {
            return Some(at as u64);
        }
    }
    None
}

// Whether a URN may have a byte at a place behind the scheme, or may end there. The UUID stands from 7 to 42.
fn may_be_at(at: usize, byte: Option<u8>) -> bool
    requires { 7 ≤ at }
    ensures { result ≡ spec_may_be_at at byte }
{
    match (at, byte) {
        (43, None | Some(b'/')) => true,
        (43, _) | (_, None) => false,
        (15 | 20 | 25 | 30, Some(byte)) => byte == b'-',
        (_, Some(byte)) => byte.is_ascii_hexdigit(),
    }
}
