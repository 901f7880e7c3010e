//! What the thread of a segment promises.

ghost use Rattle.std.specs.Prelude.{◌≡◌};

use crate::thread_fault::ThreadFault;
use can_segment::RxSink;
use gw_site::Site;
use std::marker::PhantomData;
use std::snapshot::Snapshot;
use std::thread::Promise;

/// The segment that a thread was given. What comes back is this segment after all its bits.
pub(crate) struct SiteRun<R, P> {
    start: Snapshot<Site<P>>,
    of: PhantomData<R>,
}

impl<R, P> Drop for SiteRun<R, P> {
    fn drop(self) {
        let Self { start: _, of: _ } = self;
    }
}

impl<R, P: RxSink<R>> Promise<Result<Site<P>, ThreadFault>> for SiteRun<R, P> {
    ghost use Rattle.std.specs.Prelude.{IfOk};
    ghost use Rattle.gw_site.specs.Sites.{SiteRuns};

    ghost kept_by = { λ p r. IfOk r (SiteRuns P.bus_after P.transmitting P.sink_after P.port_stays p.start.value) };
}

impl<R, P> SiteRun<R, P> {
    /// What a thread that is given this segment promises.
    pub(crate) fn of(site: &Site<P>) -> SiteRun<R, P>
        ensures { result.start.value ≡ site.now }
    {
        SiteRun {
            start: Snapshot::of(site),
            of: PhantomData,
        }
    }
}
