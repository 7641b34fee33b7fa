//! The commas of a list.
ghost use Rattle.std.specs.Prelude.{◌≡◌, [], codes, if◌then◌else◌};

// What stands behind a run: a comma if more come.
pub(crate) fn comma_if(more: bool) -> &'static str
    ensures { result.now ≡ (if more then codes "," else []) }
{
    if more { "," } else { "" }
}
