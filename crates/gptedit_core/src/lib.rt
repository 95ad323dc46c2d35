//! Plans changes of a partition table: requests for its entries, layouts, growths and new tables.
//!
//! `edit`, `edit_fitted`, `edit_fitted_reshaped`, `edit_reshaped`, `grow`, `make` and `remake` carry out a plan on a disk, in
//! one write of the table. Plans are made in memory.
#![tactic(auto)]

pub mod amount;
pub mod applying;
pub mod asked;
pub mod attributes;
pub mod dump;
pub mod editing;
pub mod fitted_reshaping;
pub mod fitting;
pub mod fitting_laws;
pub mod growth;
pub mod growth_laws;
pub mod laws;
pub mod making;
pub mod matching;
pub mod measure;
pub mod measuring;
pub mod order;
pub mod place;
pub mod plan;
pub mod refusal;
pub mod renewing;
pub mod reshaping;
pub mod reshaping_laws;
pub mod resolve;
pub mod scale;
mod sectors;
pub mod selecting;
pub mod sequence;
pub mod setting;
mod slots;
pub mod target;

pub use amount::{Amount, DEFAULT_ALIGN};
pub use asked::{Asked, Choice, Mode, RequestedLayout, Size};
pub use attributes::AttributeChange;
pub use dump::layout_of;
pub use editing::{edit, edit_fitted, edit_fitted_reshaped, edit_reshaped, grow};
pub use fitted_reshaping::FittedReshapedRequest;
pub use fitting::FittedRequest;
pub use growth::{Bounds, Growth};
pub use making::{Creation, Made, make, remake};
pub use matching::{EntryMatch, MatchedBy, MatchedLayout, match_layout, number_added};
pub use measure::{Extent, Measure, Position, Scale, WHOLE};
pub use measuring::{MeasuredPlace, MeasuredRequest, measure_place, measure_request};
pub use order::{has_safe_order, safe_orders_keep_a_copy};
pub use place::Place;
pub use plan::{Job, Outcome, Request};
pub use refusal::{Refusal, Stop};
pub use renewing::{count_guids, renewal};
pub use reshaping::{ReshapedRequest, Shape, StatedShape};
pub use resolve::ResolvedPartition;
pub use scale::{Measured, MeasuredSize, Unmeasured};
pub use sectors::SectorRange;
pub use selecting::{NoLayout, alteration, extension, removal};
pub use sequence::put_used_first;
pub use setting::{NewGuid, Setting, setting_layout};
pub use target::{NotFound, Target, find_target};
