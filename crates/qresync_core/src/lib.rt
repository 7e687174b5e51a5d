//! From the replies to a SELECT and, where nothing was kept, to a FETCH of all rows to the delta that makes a cache
//! the server's (RFC 7162, section 3.2.5).
#![tactic(auto)]

mod behind;
mod codes;
mod fault;
mod gone;
mod gone_sets;
mod latest;
mod laws;
mod maker;
mod resync;
mod rows;

pub use codes::{Codes, codes_of};
pub use fault::{CodeFault, ResyncFault};
pub use laws::{
    codes_mirror, empty_mirrors, facts_go_on, faultless_memory, fetch_has_box, first_mirrors,
    fresh_goes_on, kept_levels, maker_at_first, maker_makes, maker_on, nothing_stays, one_delta,
    rows_are_small, select_has_box, unchanged_stays,
};
pub use maker::DeltaMaker;
pub use resync::{delta_of, is_told_empty};
