//! Files that are read whole, and a sink that takes pieces of bytes: as traits with a written meaning, in
//! memory, and over the system.
//!
//! Code that is generic over [`Files`] and [`Sink`] can make neither a failed read nor a fault of a put by
//! itself. So its contract can say that it answers such a failure only if the object that was handed in
//! recorded one. What the objects hold is optional in the traits: clauses on bytes hold if it is known.
//!
//! | type | its contents | fails |
//! |---|---|---|
//! | [`MemFiles`], [`MemSink`] | known | at the calls that it was given |
//! | [`SureFiles`], [`SureSink`] | known | never |
//! | [`Gathered`] | known if its writer's are | when its writer fails, and from then on |
//! | [`OpenedFiles`] | known if its opener's are | when its opener or a file that this gave fails |
//! | [`Input`] | known if its reader's are | when its reader fails, and at each read but the first |
//!
//! **Proved of the system's too.** [`HostSink`] is a [`Gathered`] over a printer, and [`HostFiles`] is
//! [`OpenedFiles`] over what opens the files of the system; neither has code of its own to put or to read. So what
//! is proved over every writer and every opener is proved of them: a put adds its whole piece, or a first part of it
//! at a fault; `finish` leaves nothing waiting and loses nothing; a read opens the file of its name, once, and what
//! it answers is all that this file has. A body that drops or repeats bytes, or reads another file, is refused,
//! since it would be wrong over a writer or an opener whose contents are known.
//!
//! **Trusted.** No contract can say what a real file has or where the bytes of standard output go, so the contents of the system's
//! opener and printer aren't known. Left to trust are the one line that opens a file of the system by its name, and the lines that
//! make a printer to standard output. And no clause says when a reader or an opener has to succeed: a read that gives up, with its
//! `Failed` noted, isn't ruled out.
#![tactic(auto)]

mod files;
mod gathered;
mod host;
mod input;
mod memory;
mod opened;
mod reading;
mod sink;
mod sure;

pub use files::{FileFault, Files, ReadCause};
pub use gathered::{Gathered, write_all};
pub use host::{HostFiles, HostOpener, HostSink};
pub use input::{Input, OnlyReader};
pub use memory::{MemFiles, MemSink};
pub use opened::{Open, OpenedFiles};
pub use reading::read_to_end;
pub use sink::{Sink, SinkFault};
pub use sure::{SureFiles, SureSink};
