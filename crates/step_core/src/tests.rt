//! A core on the empty workload; the worked examples of schedules are run by the top call and by the program.
ghost use Rattle.workload.specs.Validity.{IsValid};

use crate::Core;
use mope_base::{Items, Mode, SessionNo};
use proxy::Settings;
use server_conn::ListWatch;
use std::alloc::Global;
use std::test::Fail;
use value_cipher::Key;
use workload::Workload;

/// A workload without tables and sessions.
#[tactic(auto, unfolding(mope_base::specs::Lists::Each, workload::specs::Validity::AreDistinct))]
fn empty_workload(alloc: Global) -> Workload
    ensures { IsValid result }
{
    Workload {
        tables: Items::new(alloc),
        sessions: Items::new(alloc),
    }
}

#[test]
fn nothing_to_do(rt: HostRuntime) -> Result<(), Fail> {
    let alloc = rt.alloc();
    let w = empty_workload(alloc);
    let settings = Settings {
        key: Key { bytes: [0; 32] },
        first: 0,
        mode: Mode::Ordinary,
        keep: false,
    };
    let mut watch = ListWatch::new(alloc);
    let mut core = Core::new(alloc, &w, settings)?;
    assert!(rt; !core.step(SessionNo(1), &mut watch)?);
    let (finished, state) = core.finish(&mut watch)?;
    assert_eq!(rt; finished.as_slice().len(), 0);
    assert_eq!(rt; state.turns().len(), 0);
    assert_eq!(rt; watch.seen().len(), 0);
    Ok(())
}
