//! What a volume says of itself, as a text.
ghost use Rattle.std.specs.Prelude.{◌≡◌, ◌++◌, IfOk, codes};
ghost use Rattle.std.specs.Fmt.{decimal};
ghost use Rattle.std.specs.String.{string_bytes};
ghost use Rattle.aff_map.specs.Symbol.{IsSymbolic};
ghost use Rattle.aff_offline.specs.InfoText.{gap_word, hashes_text, info_text, sizes_text};

use aff_hash::hex_line;
use aff_info::Info;
use aff_map::Target;
use aff_model::Memory;
use aff_report::digest_lines;
use std::alloc::{AllocError, Global};

// The name of a gap.
fn gap_word(gap: Target) -> &'static str
    requires { IsSymbolic gap }
    ensures { result.now ≡ gap_word gap }
{
    match gap {
        Target::Stored => unreachable!(),
        Target::Zero => "Zero",
        Target::Unknown => "UnknownData",
        Target::Unreadable => "UnreadableData",
    }
}

// The lines of all hashes.
fn hash_lines(alloc: Global, info: &Info) -> Result<String, Memory>
    ensures { IfOk result (λ text. string_bytes text ≡ hashes_text info.now) }
{
    let mut lines = digest_lines(alloc, &info.linear)?;
    let last = hex_line(alloc, "blockmap", &info.block_map)?;
    match lines.push_str(last.as_str()) {
        Ok(()) => Ok(lines),
        Err(AllocError) => Err(Memory),
    }
}

// The lines in front of the hashes.
fn sizes_text(
    alloc: Global,
    volume: &str,
    size: u64,
    stored: u64,
    gap: &str,
) -> Result<String, AllocError>
    ensures { IfOk result (λ text. string_bytes text ≡ sizes_text volume.now size stored gap.now) }
{
    format!(in alloc; "volume {volume}\nsize {size}\nstored {stored}\ngap {gap}\n")
}

// All lines.
fn joined(alloc: Global, sizes: &str, hashes: &str, aside: u64) -> Result<String, AllocError>
    ensures { IfOk result (λ text. string_bytes text ≡ sizes.now ++ (hashes.now ++ (codes "aside " ++ (decimal aside ++ codes "\n")))) }
{
    format!(in alloc; "{sizes}{hashes}aside {aside}\n")
}

/// The ten lines of `info`. Want of memory is the only error.
pub fn info_text(alloc: Global, info: &Info, aside: u64) -> Result<String, Memory>
    requires { IsSymbolic info.now.gap }
    ensures { IfOk result (λ text. string_bytes text ≡ info_text info.now aside) }
{
    let hashes = hash_lines(alloc, info)?;
    let gap = gap_word(info.gap);
    let volume = info.volume.text();
    let Ok(sizes) = sizes_text(alloc, volume, info.image_size, info.stream_size, gap) else {
        return Err(Memory);
    };
    match joined(alloc, sizes.as_str(), hashes.as_str(), aside) {
        Ok(text) => Ok(text),
        Err(AllocError) => Err(Memory),
    }
}
