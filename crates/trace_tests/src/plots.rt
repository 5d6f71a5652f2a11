//! The jobs that are run under many schedules.

#[derive(Clone, Copy)]
pub(crate) enum Plot {
    /// A reader of one cell, and a writer of it.
    OneCell,
    /// A reader of two cells, and a writer of the second.
    TwoCells,
    /// The same, and a writer of both.
    BothCells,
    /// Two workers with two scripts each, which read and write two cells.
    Pairs,
    /// Three workers with nested blocks, alternatives, handlers and a before-commit body.
    Nested,
    /// Four workers that add to one cell.
    Adders,
}

/// The job's lines. ` | ` stands in front of each worker and of each script.
pub(crate) fn lines_of(plot: Plot) -> &'static str {
    match plot {
        Plot::OneCell => {
            "stm 1 / refs 1 / ref 0 1 | worker | script / read r0 0 / print r0 / end | worker | script / write 0 5 / end"
        }
        Plot::TwoCells => {
            "stm 1 / refs 2 / ref 0 1 / ref 1 1 | worker | script / read r0 0 / print r0 / read r1 1 / print r1 / end | worker | script / write 1 5 / end"
        }
        Plot::BothCells => {
            "stm 1 / refs 2 / ref 0 1 / ref 1 1 | worker | script / read r0 0 / print r0 / read r1 1 / print r1 / end | worker | script / write 0 5 / write 1 5 / end"
        }
        Plot::Pairs => {
            "stm 1 / refs 2 / ref 0 3 / ref 1 4 | worker | script / read r0 0 / read r1 1 / add r0 r1 / write 0 r0 / print r0 / end | script / read r2 1 / print r2 / sub r2 1 / write 1 r2 / end | worker | script / read r0 1 / write 0 r0 / print r0 / end | script / read r0 0 / read r1 1 / print r0 / print r1 / end"
        }
        Plot::Nested => {
            "stm 1 / refs 3 / ref 0 5 / ref 1 5 / ref 2 5 | worker | script / read r0 0 / inner r1 / write 1 r0 / hook rollback 1 / read r2 2 / check r2 9 7 / end / print r1 / write 0 r2 / end | worker | script / either / read r0 1 / write 2 8 / need r0 6 / or / read r0 2 / add r0 1 / write 2 r0 / hook commit 2 / end / print r0 / end | script / move 0 1 2 / end | worker | script / late / read r3 0 / print r3 / write 1 r3 / end / read r0 2 / print r0 / end | script / inner r0 / either / need 0 1 / or / move 2 0 100 / end / end / print r0 / end"
        }
        Plot::Adders => {
            "stm 1 / refs 1 | worker | script / read r0 0 / add r0 1 / write 0 r0 / print r0 / end | script / read r0 0 / add r0 10 / write 0 r0 / print r0 / end | worker | script / read r0 0 / add r0 100 / write 0 r0 / print r0 / end | worker | script / read r0 0 / add r0 1000 / write 0 r0 / print r0 / end | worker | script / read r0 0 / add r0 10000 / write 0 r0 / print r0 / end"
        }
    }
}
