// An end that never fails counts no fault.
ghost use Rattle.pb_io.specs.Laws.{SureSinkLaw, SureSourceLaw};

/// The law that a [`SureSource`](crate::SureSource) or a [`SureSink`](crate::SureSink) counts no
/// fault: a reading, a writing or a run over them never ends with a fault.
pub fn sure_law()
    ensures source { SureSourceLaw }
    ensures sink { SureSinkLaw }
{}
