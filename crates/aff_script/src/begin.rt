//! Where a script begins.
ghost use Rattle.std.specs.Prelude.{◌+◌, ◌≤◌, length};
ghost use Rattle.aff_script.specs.Split.{IsSplit};

use aff_plan::cut_at;

/// The offset and the number of the first line that is exactly `session`. Where there is none, these are the text's
/// length and the number that the next line would have: one more than there are lines, where a line feed that ends
/// the text ends its last line and begins none. So both `extent 0 512 0` and the same with a line feed give 2, and a
/// text of no bytes gives 1. It takes no memory.
pub fn split(text: &[u8]) -> (usize, u64)
    ensures split { IsSplit text.now result.0 result.1 }
    ensures inside { result.0 ≤ length text.now }
    ensures numbered { result.1 ≤ result.0 + 1 }
{
    let mut number = 1;
    let mut rest = text;
    'lines: while !rest.is_empty() {
        let (line, others) = cut_at(rest, b'\n');
        if line == b"session".as_slice() {
            return (text.len() - rest.len(), number);
        }
        number += 1;
        let Some(others) = others else {
            return (text.len(), number);
        };
        rest = others;
    }
    (text.len(), number)
}
