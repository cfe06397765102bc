//! Which associations a capture has, in bounded memory: how each began and ended, what each of its
//! ends sent (`associations`), on which paths (`paths`), and whether AUTH is right
//! (`authentication`).
//!
//! What is counted of a packet for an association is what `specs/` defines, and each packet is
//! counted once: of one end of one association, or as unknown; and of an association on one path, or
//! as on others. It is said to be of an association only if its tag allows that. What is written is
//! proved safe and total: no clause says what a text is.
#![tactic(auto)]

mod associations;
mod authentication;
mod paths;

pub use crate::associations::association::Association;
pub use crate::associations::membership::Membership;
pub use crate::associations::report::AssociationReport;
pub use crate::associations::{Associations, Noted};
pub use crate::authentication::{Authentication, AuthenticationCounts};
pub use crate::paths::Paths;
pub use crate::paths::path_table::PathTable;
