// What stands before a row's payload or its children: which bytes they are.
#![tactic(auto)]

mod form;
mod leads;
mod marks;
mod own;
mod plan;

pub use marks::Marks;
pub use own::head_of;
pub use plan::Plan;
