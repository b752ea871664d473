//! The privilege descriptors of a database as a graph: which are supported, by whom a role grants, and what GRANT and REVOKE
//! leave (SQL:2016 Foundation, 12.2, 12.3 and 12.7).
#![tactic(auto)]

mod acting;
mod granting;
mod keys;
mod marking;
mod revoking;
mod supports;

pub use acting::{Grants, acting_grantor_among, covers};
pub use granting::grant;
pub use keys::action_number;
pub use marking::without;
pub use revoking::{RevocationMarks, revocation};
pub use supports::all_supported;
