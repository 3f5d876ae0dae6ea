// How a run ends.
ghost use Rattle.std.specs.Prelude.{◌≡◌, ◌≢◌, ◌⊎◌, OnOk, OnErr};
ghost use Rattle.tool_base.specs.Status.{fault_text};
ghost use Rattle.fec_base.specs.Outside.{stream};
ghost use Rattle.tool_base.specs.Written.{IsTold};

use crate::{Status, put_text};
use fec_base::{Sink, WriteFailed};

/// Ends a run with a status whose report goes by nothing else: it takes the text as far as it can.
pub fn tell<R: Sink>(report: &mut R, status: Status) -> Status
    ensures status { result ≡ status }
    ensures told { IsTold (fault_text status)
        (stream (R.held report.old) (R.faults report.old))
        (stream (R.held report.new) (R.faults report.new)) }
{
    let _ = put_text(report, status.fault_text());
    status
}

/// The status of a run whose output is whole, by how its report came out: a report that fails makes
/// `WriteFault` of `Done`, and changes no other status.
pub fn conclude(reported: Result<(), WriteFailed>, status: Status) -> Status
    ensures kept { (result ≡ status) ⊎ (result ≡ Status.WriteFault) }
    ensures whole { OnOk reported (result ≡ status) }
    ensures failed { OnErr reported (status ≡ Status.Done → result ≡ Status.WriteFault) }
    ensures other { status ≢ Status.Done → result ≡ status }
{
    match reported {
        Err(WriteFailed) if status == Status::Done => Status::WriteFault,
        _ => status,
    }
}
