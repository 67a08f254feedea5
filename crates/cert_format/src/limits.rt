//! The greatest numbers in the text of a certificate.

ghost use Rattle.std.specs.Prelude.{◌≡◌};
ghost use Rattle.cert_format.specs.Limits.{most_line_number, most_written_weight};

/// The greatest size of a weight in the text of a certificate, in whole moments.
pub const MOST_WRITTEN_WEIGHT: u64 = 999_999_999_999_999_999;

/// The greatest number of a line in the text of a certificate.
pub const MOST_LINE_NUMBER: u64 = u64::MAX;

/// The limits of the code are those of the definitions.
pub fn law_limits_are_defined()
    ensures weight { MOST_WRITTEN_WEIGHT ≡ most_written_weight }
    ensures line_number { MOST_LINE_NUMBER ≡ most_line_number }
{}
