//! What stands at a pin of a table.

use rr_ids::Domain;

/// What feeds a pin of a table: nothing, or a part of a domain. `first` is the least pin of the table that a part of the
/// same triple feeds.
#[derive(Clone, Copy)]
pub(crate) enum TablePin {
    Open,
    Fed { first: usize, domain: Domain },
}
