//! PAT, CAT and PMT as views of sections and packets, the project's CAT, and the PMT with the project's
//! CA_descriptor.
#![tactic(auto)]

mod cat;
mod descriptor;
mod fault;
mod form;
mod items;
mod our_cat;
mod pat;
mod pmt;
mod program;
mod rewrite;
mod stream;

pub use cat::{Cat, cat_in, cat_of};
pub use descriptor::{CA_TAG, CaDescriptor, Descriptor, Descriptors};
pub use fault::FormFault;
pub use our_cat::{CAT_HEADER, CAT_PID, Tuning, cat_descriptor, cat_tuning};
pub use pat::{Pat, pat_in, pat_of};
pub use pmt::{Pmt, pmt_in};
pub use program::{PmtPids, Programs};
pub use rewrite::{restore_pmt, rewrite_pmt};
pub use stream::{Stream, Streams};
