// The new trace on its way to its name.
use body_fates::Judged;
use outside::Streams;
use reading::Trace;
use salvage_passes::Failure;
use std::fs::OpenFile;
use std::io::{Read, Result, Seek};
use std::rt::Files;

// Its own name, that under which it is written, and that of the damaged trace.
#[derive(Clone, Copy)]
pub(crate) struct NewTrace<'a, R> {
    pub(crate) files: &'a R,
    pub(crate) to: Streams,
    pub(crate) from: &'a [u8],
    pub(crate) name: &'a [u8],
    pub(crate) part: &'a [u8],
}

impl<R: Files> NewTrace<'_, R> {
    pub(crate) fn save<S: Read + Seek>(
        &self,
        trace: &mut Trace<'_, S>,
        judged: Judged,
    ) -> Result<()> {
        let mut made = match outside::create(self.files, self.part) {
            Ok(made) => made,
            Err(error) => return self.to.fail(self.part, error),
        };
        let failure = match salvage_passes::put_trace(trace, &mut made, judged) {
            Ok(()) => return self.settle(made),
            Err(failure) => failure,
        };
        outside::abandon(self.files, made, self.part);
        match failure {
            Failure::Unwritten(error) => self.to.fail(self.part, error),
            Failure::Changed => self.to.tell(self.from, "changed while it was read"),
        }
    }

    // Gives it its name once it is on the disk, so that a crash leaves no half trace.
    fn settle(&self, made: R::File) -> Result<()> {
        match made.sync_all() {
            Ok(()) => {
                drop(made);
                self.give_name()
            }
            Err(error) => {
                outside::abandon(self.files, made, self.part);
                self.to.fail(self.part, error)
            }
        }
    }

    fn give_name(&self) -> Result<()> {
        match outside::rename(self.files, self.part, self.name) {
            Ok(()) => Ok(()),
            Err(error) => {
                let _ = outside::remove(self.files, self.part);
                self.to.fail(self.name, error)
            }
        }
    }
}
