// The search over the settings of an encapsulation.
#![tactic(auto)]

pub mod findings;
pub mod hidden;
pub mod settings;

pub use findings::Findings;
pub use hidden::{Hidden, TooManyHidden};
pub use settings::Settings;
