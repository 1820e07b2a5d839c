//! A law on the lines of prices, without a body: any crate may cite it.
ghost use Rattle.fp_duals_leaves.specs.PriceLines.{PriceLinesAreWritten};

/// Tables, their shares, the spans and the gifts beside them, the weights of shares and spans and
/// the groups of spans are written as so many lines as they have price lines, in the text of each
/// certificate with a list of spans and one of gifts for each table.
pub fn price_lines_are_written()
    ensures { PriceLinesAreWritten }
{}
