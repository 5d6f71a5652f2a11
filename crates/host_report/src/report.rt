//! The report of a listing, and the order of its rows.

ghost use Rattle.std.specs.Prelude.{◌≡◌, IfOk, IsPermutation, OnOk};
ghost use Rattle.std.specs.List.Sorted.{IsSortedBy};
ghost use Rattle.ledger_model.specs.Order.{stands_before};
ghost use Rattle.ledger_model.specs.Report.{report};
ghost use Rattle.ledger_model.specs.Reported.{HaveTexts};
ghost use Rattle.host_report.specs.WithinTypes.{IsWithinTypes};

use crate::lines::put_report;
use ledger_model::Listing;
use std::alloc::Global;
use stm_model::Memory;

/// The report of a listing, made whole in memory. Each rolled attempt has a cause that a report can
/// name.
pub fn report_text(alloc: Global, listing: &Listing) -> Result<Vec<u8>, Memory>
    requires { HaveTexts listing.now }
    ensures text { IfOk result (λ text. text.items ≡ report listing.now) }
    ensures within { OnOk result (IsWithinTypes listing.now) }
{
    let mut text = Vec::new(alloc);
    put_report(&mut text, listing)?;
    Ok(text)
}

/// Puts a listing's rows in order: by position, writers before others, by worker, by number. All else
/// stays as it was.
pub fn order_rows(listing: &mut Listing)
    ensures rows { IsPermutation listing.old.rows listing.new.rows }
    ensures in_order { IsSortedBy stands_before listing.new.rows }
    ensures rest { listing.new ≡ record listing.old { rows = listing.new.rows } }
{
    listing.rows.sort();
}
