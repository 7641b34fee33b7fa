//! A part of a slice.
ghost use Rattle.std.specs.Prelude.{◌≡◌, ◌≤◌, length, take, drop};

// The elements from a place on, up to a number of them.
pub(crate) fn part<T>(items: &[T], at: usize, len: usize) -> &[T]
    requires { at ≤ length items.now }
    ensures { result.now ≡ take len (drop at items.now) }
{
    let rest = &items[at..];
    if rest.len() < len { rest } else { &rest[..len] }
}
