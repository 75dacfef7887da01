//! The laws of cuts, rules, derivations and prices. Each function does nothing: its contract is the law.

mod cuts;
mod derivations;
mod prices;
mod rules;

pub use cuts::{
    larger_cuts_have_children, points_are_tested, points_of_cuts, rows_count_blocks, sizes_of_cuts,
};
pub use derivations::{
    costs_are_positive, derivations_stay_inside, expansion_covers, least_is_one,
    more_uploads_derive, schonheim_bounds,
};
pub use prices::{
    induced_has_instances, price_by_row, price_grows, prices_are_derivable, reads_are_children,
    rows_are_of_uploads,
};
pub use rules::{
    add_covers, all_cover, bases_have_no_children, blockwise_rules_join, chains_have_ends,
    derived_covers, derived2_covers, drop_covers, grow_covers, induced_covers, lower_covers,
    one_covers, product_covers, rule_covers, runs_cover,
};
