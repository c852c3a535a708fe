// The fields of requests and the text of answers (docs/REQUESTS.md), and what slices hold before they are lent.
#![tactic(auto)]

pub mod answer;
pub mod element;
pub mod error;
pub mod fields;
pub(crate) mod lent;

pub use answer::Answer;
pub use element::Element;
pub use error::ProbeError;
pub use fields::Fields;

#[cfg(test)]
mod tests;
