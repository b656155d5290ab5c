//! Reports of an allocator and views of its blocks, as JSON and as pictures; its memory types over time; and plans.
#![tactic(auto)]

mod blocks_json;
mod blocks_svg;
mod escape;
mod fits;
pub mod laws;
pub mod place;
mod plan_svg;
mod reading;
mod report_json;
mod report_svg;
mod svg;
pub mod timeline;
mod view;

pub use blocks_json::BlocksJson;
pub use blocks_svg::BlocksSvg;
pub use fits::{blocks_fit, report_fits};
pub use plan_svg::PlanSvg;
pub use reading::whole_number;
pub use report_json::ReportJson;
pub use report_svg::ReportSvg;
pub use svg::write_amount;
pub use view::{BlockView, ResourceView, add_views};
