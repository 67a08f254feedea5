//! Lines that are printed one after another.

ghost use Rattle.std.specs.Prelude.{◌≡◌, ◌++◌, ◌∷◌, [], ℕ, List, OnOk, IsTrue, All};
ghost use Rattle.std.specs.List.{flat_map};
ghost use Rattle.net_model.specs.Names.{is_name};
ghost use Rattle.texts.specs.PrintedLines.{printed_line};

use net_model::Name;
use std::alloc::{AllocError, Global};
use texts::push_line;

/// What a printed line says.
pub trait PrintedLine {
    /// The words of the line.
    ghost words_of: { Self → List (List ℕ) };

    /// Its numbers are within their limits.
    ghost has_limits: { Self → Type 0 };

    /// It can be spelled.
    ghost is_spelled: { Self → Type 0 };

    /// Prints the line after others.
    fn push(&self, alloc: Global, out: &mut Vec<u8>) -> Result<(), AllocError>
        requires { has_limits self.now }
        ensures text { OnOk result (out.new.items ≡ out.old.items ++ printed_line
            (words_of self.now)) }
        ensures spelled { OnOk result (is_spelled self.now) };
}

/// Prints lines, one after another.
pub(crate) fn push_lines<L: PrintedLine>(
    alloc: Global,
    out: &mut Vec<u8>,
    lines: &[L],
) -> Result<(), AllocError>
    requires { All L.has_limits lines.now }
    ensures text { OnOk result (out.new.items ≡ out.old.items ++ flat_map
        (λ line. printed_line (L.words_of line)) lines.now) }
    ensures spelled { OnOk result (All L.is_spelled lines.now) }
{
    for line in lines {
        line.push(alloc, out)?;
    }
    Ok(())
}

/// Prints a line for each of these points, of a first word and the point.
pub(crate) fn push_points(
    out: &mut Vec<u8>,
    first: &[u8],
    points: &[Name],
) -> Result<(), AllocError>
    ensures text { OnOk result (out.new.items ≡ out.old.items ++ flat_map
        (λ point. printed_line (first.now ∷ point ∷ [])) points.now) }
    ensures spelled { OnOk result (All (λ point. IsTrue (is_name point)) points.now) }
{
    for point in points {
        push_line(out, first, &[point.bytes()])?;
    }
    Ok(())
}
