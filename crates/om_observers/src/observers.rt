//! Who observes a run.

ghost use Rattle.std.specs.Prelude.{◌≡◌, None, false};

use crate::herald::Herald;
use crate::recorder::Recorder;
use crate::watch::Watch;

/// Names who observes a run of a cluster. It is lent to all workers; `none` has each of them off. An observer that is off costs a test of
/// an option, and the recorder that of an act and its message beside, which are made before it is asked for.
#[derive(Clone, Copy)]
pub struct Observers<'a> {
    /// Takes in what the threads do, in one order. A process then notes what it stored before it runs on.
    pub recorder: Option<&'a Recorder>,
    /// Whether each worker keeps what its process did, but for what was rolled back.
    pub keeps_witness: bool,
    /// Learns of outputs as they are released.
    pub herald: Option<&'a Herald>,
    /// Sees what each process does at the end of each turn.
    pub watch: Option<&'a Watch>,
}

impl<'a> Observers<'a> {
    /// Names no observer.
    pub fn none() -> Observers<'a>
        ensures recorder { result.recorder ≡ None }
        ensures witness { result.keeps_witness ≡ false }
        ensures herald { result.herald ≡ None }
        ensures watch { result.watch ≡ None }
    {
        Observers {
            recorder: None,
            keeps_witness: false,
            herald: None,
            watch: None,
        }
    }

    /// Tells the recorder and the herald, those that there are, that a worker has ended.
    pub fn end(&self) {
        if let Some(recorder) = self.recorder {
            recorder.end();
        }
        if let Some(herald) = self.herald {
            herald.end();
        }
    }
}
