//! Where a script begins.
ghost use Rattle.std.specs.Prelude.{◌≡◌, ◌+◌, position};
ghost use Rattle.std.specs.Option.{option_map};
ghost use Rattle.aff_plan.specs.Text.{is_session};
ghost use Rattle.aff_spec.specs.Lines.{lines_of};

use crate::cut::cut_at;

/// The number of the first line that is exactly `session`, from 1. The plan is what stands before it.
pub fn script_line(text: &[u8]) -> Option<u64>
    ensures { result ≡ option_map (λ k. k + 1) (position is_session (lines_of text.now)) }
{
    let mut number = 0;
    let mut rest = Some(text);
    'lines: while let Some(lines) = rest {
        let (line, others) = cut_at(lines, b'\n');
        number += 1;
        if line == b"session".as_slice() {
            return Some(number);
        }
        rest = others;
    }
    None
}
