//! Lines that are printed.

ghost use Rattle.std.specs.Prelude.{◌≡◌, ◌∷◌, ◌++◌, map, OnOk};
ghost use Rattle.texts.specs.PrintedLines.{printed_line};

use std::alloc::AllocError;

/// Writes a line: its words with one blank between, and a line end. `AllocError` comes only for
/// want of memory; a part of the line may then have been written.
pub fn push_line(out: &mut Vec<u8>, first: &[u8], others: &[&[u8]]) -> Result<(), AllocError>
    ensures { OnOk result (out.new.items ≡ out.old.items ++ printed_line
        (first.now ∷ map (λ word. word.now) others.now)) }
{
    out.extend_from_slice(first)?;
    for word in others {
        out.push(b' ')?;
        out.extend_from_slice(word)?;
    }
    out.push(b'\n')?;
    Ok(())
}
