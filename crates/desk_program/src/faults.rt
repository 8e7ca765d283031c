//! Why a docket that lasts can't be opened, or a call on it ends early: a type for each task, and the sum of them all.

mod beginning;
mod correcting;
mod court_file;
mod desk;
mod file;
mod journal;
mod opening;
mod output;
mod session;
mod together;

pub use beginning::BeginFault;
pub use correcting::{CorrectionFault, StrikingFault};
pub use court_file::CourtFileFault;
pub use desk::DeskFault;
pub use file::FileFault;
pub use opening::OpenFault;
pub use output::OutputFault;
pub(crate) use session::session_status;
pub use together::TogetherFault;
