// The end of a process.
ghost use Rattle.lgx_answer.specs.Exit.{Exits};

use crate::status::Status;
use lgx_io::Gathered;
use std::io::Write;

/// Writes what still waits to be written, and answers the number that the process ends with: that of the status, or that of a
/// write fault if what waited couldn't be written, or an earlier put failed.
pub fn exit_number<W: Write + Drop>(status: Status, sink: &mut Gathered<W>) -> u8
    ensures { Exits status sink.old sink.new result }
{
    match sink.finish() {
        Ok(()) => status.number(),
        Err(_) => Status::WriteFault.number(),
    }
}
