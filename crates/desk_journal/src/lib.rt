//! Entries in one file, over any disk: what was appended lasts, through any crash.
//! It knows nothing of courts.
#![tactic(auto)]

mod checksum;
mod fault;
mod follow;
mod journal;
mod journal_end;
mod latch;
mod laws;
mod next;
mod pack;
mod publish;
mod reading;
mod recovery;
mod stamp;
mod unchanged;
mod walk;

pub use fault::JournalFault;
pub use journal::Journal;
pub use journal_end::JournalEnd;
pub use laws::{
    cut_files_keep_the_first, has_one_list_of_stamps, no_byte_changes_a_stamp,
    no_byte_hides_an_entry, no_entry_is_another, stands_for_one_list, times_never_go_back,
};
pub use recovery::{stamped_in, tail_after, tail_in};
pub use stamp::Stamp;
