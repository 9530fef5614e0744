// The law of traces, over the definitions alone.
ghost use Rattle.spec_machine.specs.Machine.{TracesKeepEvents};

/// The entries of a journal's trace are of its events, in order.
pub fn traces_keep_events()
    ensures { TracesKeepEvents }
{}
